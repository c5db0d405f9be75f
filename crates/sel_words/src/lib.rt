//! The words of a command line, and what they ask for.
#![tactic(auto)]

mod command_line;
mod registers;
mod settings;
mod words;

pub use registers::register_names;
pub use settings::Settings;
pub use words::{Command, GrammarSource, Job, Mode, read_words};
