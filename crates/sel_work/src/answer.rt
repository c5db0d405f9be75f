// What is asked of a tree, and what is answered.

use sel_base::{List, Pair};
use sel_forest::Cover;

/// What is asked of a tree.
#[derive(Clone, Copy, Debug, PartialEq, Eq)]
pub enum Goal {
    /// The rules of the best cover.
    Cover,
    /// The text that the best cover expands to.
    Text,
}

/// The answer of a tree, and how many of its nodes have plain labels.
#[derive(Debug, Drop)]
pub struct Answered {
    pub answer: Answer,
    pub plain_nodes: usize,
}

/// What is answered of a tree. A cost is that of the best derivation from the start symbol.
#[derive(Debug, Drop)]
pub enum Answer {
    /// Nothing derives the tree from the start symbol.
    NoCover,
    Cover(Cover),
    Text { cost: Pair, text: List<u8> },
    /// The best cover expands to more than 1,048,576 bytes.
    TooLong { cost: Pair },
}
