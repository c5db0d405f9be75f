//! Answers of trees by several workers over one shared table, by batches, and what is told of them all.
#![tactic(auto)]

mod answering;
mod batch;
mod crew;
mod finishing;
mod gathering;
mod making;
mod options;
mod passing;
mod place;
mod report;
mod seats;
mod serving;
mod tally;
mod task;
mod tree;
mod turn;
mod worker;

pub use answering::answer_forest;
pub use crew::Crew;
pub use options::Options;
pub use report::Report;
