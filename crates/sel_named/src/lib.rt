//! The text of a cover with the names of registers in place of its temporaries.
#![tactic(auto)]

pub mod laws;
mod lines;
mod names;
mod texts;

pub use texts::{NamedText, best_named, named_text};
