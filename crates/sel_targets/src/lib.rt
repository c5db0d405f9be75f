//! The grammars of three instruction sets, which the program ships.
#![tactic(auto)]

mod aarch64;
mod rv64i;
mod shipped;
mod x86_64;

pub use shipped::target;
