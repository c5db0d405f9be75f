//! Numbers that workers draw from one shared word, so that each number below a bound is drawn once.
#![tactic(auto)]

mod rule;
mod tickets;

pub use tickets::{Drawer, Tickets};
