//! A grammar as text, which is read as the same grammar.
#![tactic(auto)]

mod print;
pub mod print_laws;

pub use print::print_grammar;
