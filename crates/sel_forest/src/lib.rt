//! Forests of trees in postorder, and covers.
#![tactic(auto)]

mod around;
mod build;
mod check;
mod classes;
mod faults;
mod forest;
mod guess;
pub mod laws;
pub mod limits;
mod line;
mod number;
mod print;
mod read;
mod refusal;
mod reprint;
mod taker;
mod tokens;
mod walk;

pub use check::check_cover;
pub use forest::{Cover, Forest, Node, Tree};
pub use print::print_forest;
pub use read::read_forest;
pub use refusal::{ForestFault, ForestRefusal};
pub use reprint::reprint_forest;
pub use sel_grammar::Attribute;
pub use walk::{Goal, fits_at, in_range, met, node_at, push_goals, rule_of};
