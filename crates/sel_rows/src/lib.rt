//! A worker's pass over the shared table.
#![tactic(auto)]

mod automaton;
mod closing;
mod evaluation;
mod finding;
mod found;
mod hand;
mod item;
mod kids;
mod label;
mod making;
mod part;
mod parts;
mod pass;
mod publish;
mod publishing;
mod reading;
mod row;
mod rows;
mod snapshot;
mod states;
mod telling;
mod words;

pub use found::{Draw, Found, Placed, Seen, Won};
pub use part::PassPart;
pub use pass::Pass;
pub use rows::Rows;
pub use snapshot::{Key, Snapshot, State, Transition};
