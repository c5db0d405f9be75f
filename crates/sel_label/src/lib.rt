//! The labels of a tree's nodes, by any automaton.
#![tactic(auto)]

mod kids;
mod labels;
pub mod laws;

pub use labels::{Labels, label_tree};
