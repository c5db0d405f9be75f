//! What a closed table and its marks tell of the trees that were answered over it.
#![tactic(auto)]

mod ending;
pub mod laws;

pub use ending::{Closed, Marks, close, marks_of};
