//! Faults by their places.

/// A fault of a text: its kind, and the byte at which it is told, from 0.
#[derive(Clone, Copy)]
pub struct Fault {
    pub kind: u8,
    pub at: usize,
}
