//! Covers of labelled trees, by any automaton.
#![tactic(auto)]

mod reducer;
mod walk;

pub use reducer::reduce;
