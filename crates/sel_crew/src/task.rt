//! What the workers of one batch share.
use sel_forest::Tree;
use sel_grammar::Grammar;
use sel_normal::Normal;
use sel_rows::Rows;
use sel_tickets::Tickets;
use sel_work::Goal;
use std::alloc::Global;

/// The trees of a batch, the numbers that are drawn for them, what is asked of each, the number of the first one, and
/// the table over which they are answered.
#[derive(Clone, Copy)]
pub struct Task<'b> {
    pub alloc: Global,
    pub grammar: &'b Grammar,
    pub normal: &'b Normal,
    pub rows: &'b Rows,
    pub trees: &'b [Tree],
    pub tickets: &'b Tickets,
    pub goal: Goal,
    pub first: u32,
}

/// A task but for its grammar.
#[derive(Clone, Copy)]
pub struct Bare<'b> {
    pub alloc: Global,
    pub normal: &'b Normal,
    pub rows: &'b Rows,
    pub trees: &'b [Tree],
    pub tickets: &'b Tickets,
    pub goal: Goal,
    pub first: u32,
}
