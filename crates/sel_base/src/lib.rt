//! The outside as traits, lists, costs, ranges, and writing to the end.
#![tactic(auto)]

pub mod digits;
mod fault;
mod files;
mod gate;
mod list;
mod memory;
mod pair;
mod range;
mod shelf;
mod sink;
mod steps;
pub mod text;

pub use fault::{NoMemory, ShelfFault, SinkFault};
pub use files::{FileShelf, StreamSink};
pub use gate::{Gate, OpenGate};
pub use list::{List, Name};
pub use memory::{HeldText, MemoryShelf, MemorySink};
pub use pair::Pair;
pub use range::Range;
pub use shelf::Shelf;
pub use sink::{Sink, WriteStop, write_all_of};
pub use steps::Steps;

#[cfg(test)]
mod tests;
