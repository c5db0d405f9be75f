//! Answers of trees by a complete table.
#![tactic(auto)]

mod answers;

pub use answers::{answer_by_table, answer_counted};
