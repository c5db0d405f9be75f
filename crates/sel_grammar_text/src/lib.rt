//! The text of a grammar: its tokens, its form, its faults, and what it says.
#![tactic(auto)]

mod arity;
mod checks;
mod cost;
mod decision;
mod fault;
mod finish;
mod form;
mod item;
pub mod laws;
mod mark;
mod meaning;
mod names;
mod numbers;
mod pattern;
mod place;
mod read;
mod rule_checks;
mod scan;
mod signs;
pub mod spelled_laws;
mod strings;
mod tables;
mod template;
mod tokens;
mod values;
mod words;

pub use read::read_grammar;
