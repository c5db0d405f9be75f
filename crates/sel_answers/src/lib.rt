//! The text of a forest's answers: each by itself, with or without the names of registers, or their sums; and what
//! a job writes.
#![tactic(auto)]

mod answers;
pub mod laws;
mod least;
mod named;
mod output;
mod report;
mod summing;
mod sums;

pub use answers::{are_covered, has_second_costs, put_answers};
pub use least::least_output;
pub use named::{NamedAnswer, named_output};
pub use output::{Output, grammar_output};
pub use summing::Summing;
