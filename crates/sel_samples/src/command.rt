// A command as text.
use sel_base::NoMemory;
use sel_sheet::{Answer, words_of};
use sel_words::{Command, GrammarSource, Job, Mode, Settings, read_words};
use std::alloc::Global;
use std::fmt::Write;

fn put_mode(text: &mut String, mode: Mode) -> Result<(), NoMemory> {
    text.push_str(match mode {
        Mode::Cover => "cover",
        Mode::Select => "select",
        Mode::Print => "print",
        Mode::Summary => "summary",
        Mode::Certify => "certify",
    })?;
    Ok(())
}

// What is done, the grammar's word, how long its shipped text is, the forest's name, and the names of registers
// or of the certificates' text. Each name stands between quotes.
fn put_job(text: &mut String, command: &Command<'_>) -> Result<(), NoMemory> {
    match command.job {
        Job::PrintGrammar => text.push_str("print")?,
        Job::Make => text.push_str("make")?,
        Job::OverForest(mode, _) => put_mode(text, mode)?,
        Job::Regs(_, _) => text.push_str("regs")?,
        Job::Check(_, _) => text.push_str("check")?,
    }
    write!(text, " '{}'", command.grammar)?;
    if let GrammarSource::Shipped(shipped) = command.source {
        write!(text, " of {} bytes", shipped.len())?;
    }
    match command.job {
        Job::PrintGrammar | Job::Make => {}
        Job::OverForest(_, forest) => write!(text, " '{forest}'")?,
        Job::Regs(forest, registers) => write!(text, " '{forest}' registers '{registers}'")?,
        Job::Check(forest, certificate) => write!(text, " '{forest}' '{certificate}'")?,
    }
    Ok(())
}

fn put_settings(text: &mut String, settings: Settings) -> Result<(), NoMemory> {
    write!(text, " workers {}", settings.workers)?;
    write!(text, " states {}", settings.states)?;
    write!(text, " rows {}", settings.rows)?;
    write!(text, " seed {}", settings.seed)?;
    write!(text, " trees {}", settings.trees)?;
    write!(text, " size {}", settings.size)?;
    Ok(())
}

/// What the words ask for: `JOB 'GRAMMAR' ['FOREST'] workers N states N rows N seed N trees N size N`, with
/// `registers 'NAMES'` or `'CERTIFICATE'` behind the forest where these are, or `no command`.
pub fn command_told(alloc: Global, words: &str) -> Result<Answer, NoMemory> {
    let words = words_of(alloc, words)?;
    let mut text = String::new(alloc);
    match read_words(alloc, &words)? {
        Some(command) => {
            put_job(&mut text, &command)?;
            put_settings(&mut text, command.settings)?;
        }
        None => text.push_str("no command")?,
    }
    text.push_str("\n")?;
    Answer::of_text(alloc, text.as_str())
}
