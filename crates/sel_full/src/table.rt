// Complete tables.
use sel_base::List;
use sel_items::Items;

/// The states, the empty one first, and for each key, in the order of keys, the number of the state that
/// follows from it.
#[derive(Debug, Drop)]
pub struct Table {
    pub states: List<Items>,
    pub numbers: List<u16>,
}

/// What a build answers.
#[derive(Debug, Drop)]
pub enum Build {
    Complete(Table),
    TooLarge,
}
