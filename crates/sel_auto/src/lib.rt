//! An automaton over tables of one owner.
#![tactic(auto)]

mod automaton;
mod key;
mod labelling;
mod parked;
mod private;
mod states;
mod transitions;

pub use parked::ParkedAutomaton;
pub use private::PrivateAutomaton;
