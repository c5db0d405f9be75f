//! The normal form of a grammar: each rule has one operator over nonterminals, or is a chain rule.
#![tactic(auto)]

mod check;
mod cut;
mod form;
pub mod laws;
mod normal;
mod reach;

pub use normal::{Body, Normal, NormalRule};
pub use sel_range::Classes;
