//! What a closed table says.
use sel_base::List;
use sel_items::Items;

/// A published number and its item set.
#[derive(Drop)]
pub struct State {
    pub number: u16,
    pub items: Items,
}

/// What a transition is for: an operator, how many kids there are, and the class, which stands as `left` where
/// there are none, or the kids' numbers. A kid that there is not has 0.
#[derive(Clone, Copy)]
pub struct Key {
    pub operator: u8,
    pub kids: u8,
    pub left: u16,
    pub right: u16,
}

/// A key and its number.
#[derive(Clone, Copy)]
pub struct Transition {
    pub key: Key,
    pub number: u16,
}

/// The states and transitions of a closed table. Only closing a table makes one.
#[derive(Drop)]
pub struct Snapshot {
    pub(crate) states: List<State>,
    pub(crate) transitions: List<Transition>,
}
