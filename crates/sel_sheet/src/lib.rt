//! Rows as text: what is called, with which words and files, and what is wanted of it. `docs/CONTRIBUTING.md`
//! says how they are written. No contract speaks of what a row means: rows that are wrong on purpose show that
//! a difference is told.
#![tactic(auto)]

mod answer;
mod escapes;
mod fault;
mod row;
mod run;
mod sheet;
mod words;

pub use answer::Answer;
pub use fault::SheetFault;
pub use row::{File, Row};
pub use run::{Calls, run_sheets};
pub use sheet::read_rows;
pub use words::words_of;
