//! The kinds of faults of a table's text.

/// The text isn't of the form. The line is the first with which no text of the form goes on.
pub const FORM: u8 = 1;

/// State 0 isn't empty, or a state equals an earlier one. The line is that of the first such state.
pub const STATES: u8 = 2;

/// A key's number isn't that of the state that follows. The line is that of the first such key.
pub const NUMBER: u8 = 3;
