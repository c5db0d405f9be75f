//! The top call: reads a grammar and a forest by name, or makes a forest, and writes the cheapest cover of each
//! tree, the text that it expands to, a summary of the covers, or the grammar or the forest in print.
#![tactic(auto)]

mod jobs;
mod lines;
mod program;
pub mod run;
mod status;
mod texts;

pub use program::run_program;
pub use sel_crew::Report;
pub use status::Status;
