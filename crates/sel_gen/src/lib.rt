//! Forests made from a number.
#![tactic(auto)]

mod choices;
mod draw;
mod forest;
mod grow;
pub mod laws;
mod maker;
mod sizes;
mod tasks;

pub use forest::make_forest;
pub use maker::TreeMaker;
