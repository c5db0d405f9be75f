// What a node is labelled by: the class of its attribute, and the labels of its kids.
ghost use Rattle.std.specs.Prelude.{◌≡◌, ◌==◌, if◌then◌else◌, Option, None, slice_get};
ghost use Rattle.sel_range.specs.Classes.{class_of};
ghost use Rattle.sel_items.specs.ItemsOf.{attribute_number};

use sel_forest::{Attribute, Node};
use sel_items::Label;
use sel_range::Classes;

/// The number that the attribute is, where it is one.
fn number_of(attribute: &Attribute) -> Option<i64>
    ensures { result ≡ attribute_number attribute.now }
{
    match attribute {
        Attribute::Number(number) => Some(*number),
        Attribute::Absent => None,
        Attribute::Symbol(_) => None,
    }
}

/// The class of the node's attribute, and 0 where the node has kids.
pub fn class_of_node(classes: &Classes, node: &Node) -> u16
    ensures { result ≡ (if node.now.kids == 0 then class_of classes.now (attribute_number node.now.attribute) else 0) }
{
    if node.kids != 0 {
        0
    } else {
        classes.class_of(number_of(&node.attribute))
    }
}

/// The label at a place, where there is one.
fn label_at(labels: &[Label], at: u32) -> Option<Label>
    ensures { result ≡ slice_get labels.now at }
{
    match labels.get(at as usize) {
        Some(label) => Some(*label),
        None => None,
    }
}

/// The label of the node's first kid, where it has one.
pub fn first_label(labels: &[Label], node: &Node) -> Option<Label>
    ensures { result ≡ (if node.now.kids == 0 then None else slice_get labels.now node.now.left) }
{
    if node.kids == 0 {
        None
    } else {
        label_at(labels, node.left)
    }
}

/// The label of the node's second kid, where it has one.
pub fn second_label(labels: &[Label], node: &Node) -> Option<Label>
    ensures { result ≡ (if node.now.kids == 2 then slice_get labels.now node.now.right else None) }
{
    if node.kids == 2 {
        label_at(labels, node.right)
    } else {
        None
    }
}
