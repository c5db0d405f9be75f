//! The answer of a tree, by any automaton: its best cover, or the text that this expands to.
#![tactic(auto)]

mod answer;
pub mod laws;
mod tree;

pub use answer::{Answer, Answered, Goal};
pub use tree::answer_tree;
