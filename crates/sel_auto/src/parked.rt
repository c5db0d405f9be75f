// An automaton between two uses, without its normal form.
use crate::states::States;
use crate::transitions::Transitions;
use sel_items::Items;

/// The tables of an automaton that has let its normal form go: nothing is borrowed, so that it may be kept
/// beside the normal form that it is of.
#[derive(Drop)]
pub struct ParkedAutomaton {
    pub(crate) most_states: u32,
    pub(crate) most_keys: u32,
    pub(crate) states: States,
    pub(crate) transitions: Transitions,
    pub(crate) plain: Vec<Items>,
    pub(crate) used_up: bool,
    pub(crate) row_full: bool,
    pub(crate) evaluated: u64,
}
