//! The kinds of faults of a text of certificates.

/// The text isn't of the form. The line is the first with which no text of the form goes on.
pub const TEXT: u8 = 1;

/// A rule breaks its bound. The line is that of the first node at which one does.
pub const BOUND: u8 = 2;

/// The rules are no list of a derivation from the start symbol. The line is the tree's last.
pub const COVER: u8 = 3;

/// The derivation doesn't cost what is claimed of the root and the start symbol, or just one of rules
/// and claim is there. The line is the tree's last.
pub const COST: u8 = 4;
