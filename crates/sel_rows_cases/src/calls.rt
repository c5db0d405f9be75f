// The calls of the rows.
use crate::meetings::Game;
use crate::playing::passes;
use crate::stop::Stop;
use sel_base::NoMemory;
use sel_sheet::{Answer, Calls, Row};
use std::alloc::Global;
use std::thread::Threads;

/// The calls `passes`, two passes label trees in turns, and `meeting`, they meet at a leaf.
pub struct Cases;

fn called(alloc: Global, row: &Row<'_>) -> Result<String, Stop> {
    match row.call {
        "passes" => passes(alloc, row, Game::Turns),
        "meeting" => passes(alloc, row, Game::Meeting),
        _ => Err(Stop::Unfit("there is no such call")),
    }
}

impl Calls for Cases {
    fn answer<Rt: Threads + Sync>(
        &self,
        _threads: &Rt,
        alloc: Global,
        row: &Row<'_>,
        _words: &str,
    ) -> Result<Answer, NoMemory> {
        match called(alloc, row) {
            Ok(text) => Answer::of_text(alloc, text.as_str()),
            Err(Stop::Fault(kind, line, column)) => {
                let text = format!(in alloc; "{kind} at {line}:{column}\n")?;
                Answer::of_text(alloc, text.as_str())
            }
            Err(Stop::Unfit(why)) => {
                let text = format!(in alloc; "unfit: {why}\n")?;
                Answer::of_text(alloc, text.as_str())
            }
            Err(Stop::NoMemory) => Err(NoMemory),
        }
    }
}
