//! The text of a cover, by the templates of its rules.
#![tactic(auto)]

mod cutting;
mod expansion;
mod places;
mod printing;
mod reductions;
mod sheet;
mod templates;

pub use cutting::Piece;
pub use expansion::{Expander, Expansion, LONGEST_TEXT, expand, pieces};
