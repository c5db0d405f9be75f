//! What a worker has in hand while it answers trees.
use crate::place::Made;
use sel_rows::PassPart;
use sel_tickets::Drawer;

/// A worker's part and its right to draw, what it has made, the nodes with plain labels that it has counted, and whether
/// it was refused memory.
#[derive(Drop)]
pub struct Turn {
    pub part: PassPart,
    pub drawer: Drawer,
    pub made: Vec<Made>,
    pub plain_nodes: u64,
    pub refused: bool,
}
