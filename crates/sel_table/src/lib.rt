//! The texts of complete tables, loaded.
#![tactic(auto)]

mod entries;
pub mod kinds;
pub mod laws;
mod lines;
mod loading;
mod numbers;
mod parts;
mod refusal;

pub use loading::load;
pub use refusal::{LoadFault, LoadRefusal};
