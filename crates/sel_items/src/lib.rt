//! Item sets: the least cost of each normal nonterminal and the first rule that attains it.
#![tactic(auto)]

mod automaton;
mod chains;
mod evaluation;
mod fitting;
mod items;
mod label;
pub mod laws;
mod offers;
mod packing;
mod reduction;
mod same;

pub use automaton::Automaton;
pub use chains::close_chains;
pub use evaluation::evaluate;
pub use fitting::fits;
pub use items::{Item, Items};
pub use label::Label;
pub use packing::{pack, unpack};
pub use reduction::relative;
pub use same::equal_are_same;
