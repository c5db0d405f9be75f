// Forests that are read, and forests in print.
ghost use Rattle.sel_grammar.specs.Lawful.{IsLawful};
ghost use Rattle.sel_forest.specs.Valid.{IsValidForest};
ghost use Rattle.sel_items.specs.Laws.{IsAcceptedForm};

use crate::accepted::{Subject, subject_of, text_of};
use crate::stop::Stop;
use sel_base::NoMemory;
use sel_forest::{Forest, Node, Tree, print_forest, reprint_forest};
use sel_grammar::{Attribute, Grammar};
use sel_sheet::Row;
use std::alloc::Global;
use std::fmt::Write;

// one byte more than a text may have
const TOO_LONG: usize = 4_294_967_295;

fn count_of_nodes(forest: &Forest) -> usize {
    let mut count: usize = 0;
    for tree in forest.trees.as_slice() {
        count = count.saturating_add(tree.nodes.len());
    }
    count
}

/// How many trees and nodes the row's forest has.
pub fn forest(alloc: Global, row: &Row<'_>) -> Result<String, Stop> {
    let subject = subject_of(alloc, row)?;
    let trees = subject.forest.trees.len();
    let nodes = count_of_nodes(&subject.forest);
    Ok(format!(in alloc; "{trees} trees of {nodes} nodes\n")?)
}

fn put_attribute(text: &mut String, attribute: &Attribute) -> Result<(), NoMemory> {
    match attribute {
        Attribute::Absent => text.push_str("-")?,
        Attribute::Number(number) => write!(text, "{number}")?,
        Attribute::Symbol(symbol) => match std::str::from_utf8(symbol.as_slice()) {
            Ok(symbol) => text.push_str(symbol)?,
            Err(_) => text.push_str("no text")?,
        },
    }
    Ok(())
}

fn put_node(text: &mut String, node: &Node) -> Result<(), NoMemory> {
    write!(
        text,
        "{} {} {} {} ",
        node.operator, node.kids, node.left, node.right
    )?;
    put_attribute(text, &node.attribute)?;
    text.push_str("\n")?;
    Ok(())
}

fn put_tree(text: &mut String, tree: &Tree) -> Result<(), NoMemory> {
    for node in tree.nodes.as_slice() {
        put_node(text, node)?;
    }
    Ok(())
}

fn put_forest(text: &mut String, forest: &Forest) -> Result<(), NoMemory> {
    for tree in forest.trees.as_slice() {
        put_tree(text, tree)?;
    }
    Ok(())
}

fn shown(alloc: Global, forest: &Forest) -> Result<String, NoMemory> {
    let mut text = String::new(alloc);
    put_forest(&mut text, forest)?;
    Ok(text)
}

/// A line for each node of the row's forest: operator, count of kids, places of the kids, attribute.
pub fn nodes(alloc: Global, row: &Row<'_>) -> Result<String, Stop> {
    let subject = subject_of(alloc, row)?;
    Ok(shown(alloc, &subject.forest)?)
}

// The forest in print is this text.
fn is_printed(
    alloc: Global,
    grammar: &Grammar,
    forest: &Forest,
    text: &[u8],
) -> Result<bool, NoMemory>
    requires lawful { IsLawful grammar.now }
    requires valid { IsValidForest grammar.now forest.now }
{
    let printed = print_forest(alloc, grammar, forest)?;
    Ok(printed.as_slice() == text)
}

fn reprinted(alloc: Global, subject: &Subject, text: &[u8]) -> Result<Vec<u8>, Stop>
    requires form { IsAcceptedForm subject.now.accepted.grammar subject.now.accepted.normal }
    requires valid { IsValidForest subject.now.accepted.grammar subject.now.forest }
{
    if text.len() >= TOO_LONG {
        return Err(Stop::Unfit("the forest is too long"));
    }
    let again = reprint_forest(alloc, &subject.accepted.grammar, text)?;
    if is_printed(
        alloc,
        &subject.accepted.grammar,
        &subject.forest,
        again.as_slice(),
    )? {
        Ok(again.into_vec())
    } else {
        Err(Stop::Unfit("of the forest another text is made"))
    }
}

/// The row's forest in print, made of the text. Of the forest the same is made.
pub fn reprint(alloc: Global, row: &Row<'_>) -> Result<Vec<u8>, Stop> {
    let text = text_of(row, "f")?;
    let subject = subject_of(alloc, row)?;
    reprinted(alloc, &subject, text)
}
