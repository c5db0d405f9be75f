//! How many workers there are, and how much room.

/// How many workers answer, and how many states and keys their table has room for.
#[derive(Clone, Copy, Debug, PartialEq, Eq)]
pub struct Options {
    pub workers: u32,
    pub states: u32,
    pub rows: u32,
}
