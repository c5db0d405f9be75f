//! What is told of all trees together.
use sel_rows::Snapshot;

/// What is told of all trees that a crew answered: how many item sets were evaluated for them, how many of their nodes
/// have plain labels, the marks of their table, and its states and transitions.
#[derive(Drop)]
pub struct Report {
    pub evaluated: u64,
    pub plain_nodes: u64,
    pub row_full: bool,
    pub used_up: bool,
    pub snapshot: Option<Snapshot>,
}
