// Item sets.
use sel_base::{List, Pair};

/// What an item set says of a nonterminal: how much more its best derivation costs than the cheapest of
/// the set, and the number of the normal rule, from 1, that the best derivation begins with.
#[derive(Clone, Copy, Debug, PartialEq, Eq)]
pub struct Item {
    pub cost: Pair,
    pub rule: u16,
}

/// The item set of a node (BURS state, after Proebsting): an entry for each normal nonterminal, None
/// where nothing derives the node's tree from it.
#[derive(Debug, Drop)]
pub struct Items {
    pub entries: List<Option<Item>>,
}
