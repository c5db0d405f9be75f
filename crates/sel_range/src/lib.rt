//! Classes of numbers, by which tests of ranges are told apart.
#![tactic(auto)]

mod classes;
mod cuts;
pub mod laws;
pub mod limits;
mod span;

pub use classes::Classes;

#[cfg(test)]
mod tests;
