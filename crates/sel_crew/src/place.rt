//! What one worker works with.
use sel_expand::Expander;
use sel_rows::PassPart;
use sel_tickets::Drawer;
use sel_work::Answer;

/// The answer of the tree with this number.
#[derive(Drop)]
pub struct Made {
    pub number: u32,
    pub answer: Answer,
}

/// A worker's number, its part of the table, its right to draw, the room that it expands in, what it has made, whether
/// it was refused memory, and how many nodes with plain labels it has counted.
#[derive(Drop)]
pub struct Place {
    pub worker: u32,
    pub part: Option<PassPart>,
    pub drawer: Option<Drawer>,
    pub expander: Expander,
    pub made: Vec<Made>,
    pub refused: bool,
    pub plain_nodes: u64,
}
