//! Registers for temporaries, by the lines on which they are live.
#![tactic(auto)]

mod assignment;
mod begun;
mod free;
pub mod laws;
mod lives;
mod scan;

pub use assignment::{Assignment, assign};
