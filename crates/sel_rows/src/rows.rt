//! A shared table of states and transitions.
use sel_law::SharedWords;

/// A table that passes share. Its words change by single atomic steps, and only by those of its passes.
#[derive(Drop)]
pub struct Rows {
    pub(crate) words: SharedWords,
}
