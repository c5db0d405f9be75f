//! The limits of classes.

/// How many tests there may be: as many as a grammar has rules.
pub const MOST_TESTS: usize = 1_023;

/// The greatest class that any tests give, which have two cuts each.
pub const GREATEST_CLASS: u16 = 2_047;
