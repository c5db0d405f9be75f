//! Complete tables of states.
#![tactic(auto)]

mod automaton;
mod building;
mod judging;
mod keeping;
pub mod laws;
mod numbering;
mod places;
mod print;
mod refusal;
mod states;
mod stop;
mod table;
mod taking;

pub use automaton::FullAutomaton;
pub use building::build;
pub use judging::judge;
pub use keeping::key_count;
pub use print::print_table;
pub use refusal::{TableFault, TableRefusal};
pub use table::{Build, Table};
