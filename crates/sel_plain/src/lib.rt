//! The best cover of one tree, by dynamic programming over its nodes.
#![tactic(auto)]

mod best;
mod cost;
mod cover;
mod entry;
mod fill;
mod kind;
mod node_costs;
mod offer;
mod row;
mod rows;

pub use best::least;
pub use node_costs::table;
