use sel_base::{List, Pair};
use sel_grammar::Attribute;

/// A node of a tree: its operator's number, and its number of kids. `left` and `right` are the places
/// of the kids in the tree's nodes, and 0 where there is no such kid.
#[derive(Debug, Drop)]
pub struct Node {
    pub operator: u8,
    pub kids: u8,
    pub left: u32,
    pub right: u32,
    pub attribute: Attribute,
}

/// A tree as its nodes in postorder: the kids before their node, from left to right, and the root last.
#[derive(Debug, Drop)]
pub struct Tree {
    pub nodes: List<Node>,
}

#[derive(Debug, Drop)]
pub struct Forest {
    pub trees: List<Tree>,
}

/// A derivation's cost, and the numbers of its rules in preorder.
#[derive(Debug, Drop)]
pub struct Cover {
    pub cost: Pair,
    pub rules: List<u16>,
}
