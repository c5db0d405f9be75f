//! The limits of a forest, and the kinds of its faults.

/// How many trees a forest may have.
pub const MOST_TREES: usize = 1_000_000;

/// How many nodes a tree may have.
pub const MOST_NODES: usize = 65_535;

/// How deep a tree may be, the root being at depth 1.
pub const GREATEST_DEPTH: usize = 65_535;

/// No line of the form goes on with this token.
pub const TOKEN: u8 = 1;

/// The name is no operator of the grammar.
pub const UNKNOWN_OPERATOR: u8 = 2;

/// The operator has another number of kids.
pub const ARITY: u8 = 3;

/// The number is no signed 64-bit number.
pub const NUMBER_LARGE: u8 = 4;

/// The node is deeper than the greatest depth.
pub const TOO_DEEP: u8 = 5;

/// The tree has more nodes than it may have.
pub const TOO_MANY_NODES: u8 = 6;

/// The forest has more trees than it may have.
pub const TOO_MANY_TREES: u8 = 7;
