// The calls of the rows.
use crate::checked::check;
use crate::compared::compare;
use crate::expanded::expand_all;
use crate::forests::{forest, nodes, reprint};
use crate::grammars::{again, grammar};
use crate::labels::{Told, labels};
use crate::made::{back, make, shipped};
use crate::normal_forms::{class, normal};
use crate::stop::Stop;
use crate::words::{fit, packed};
use sel_base::NoMemory;
use sel_sheet::{Answer, Calls, Row};
use std::alloc::Global;
use std::thread::Threads;

/// The calls of the crates below the top call.
#[derive(Clone, Copy)]
pub struct Trials;

fn other_called(alloc: Global, row: &Row<'_>) -> Result<String, Stop> {
    match row.call {
        "pack" => packed(alloc, row),
        "fits" => fit(alloc, row),
        "back" => back(alloc, row),
        "shipped" => shipped(alloc, row),
        "compare" => compare(alloc, row),
        _ => Err(Stop::Unfit("there is no such call")),
    }
}

fn labels_called(alloc: Global, row: &Row<'_>) -> Result<String, Stop> {
    match row.call {
        "normal" => normal(alloc, row),
        "class" => class(alloc, row),
        "items" => labels(alloc, row, Told::Items),
        "states" => labels(alloc, row, Told::States),
        "labels" => labels(alloc, row, Told::All),
        _ => other_called(alloc, row),
    }
}

fn text_called(alloc: Global, row: &Row<'_>) -> Result<String, Stop> {
    match row.call {
        "grammar" => grammar(alloc, row),
        "forest" => forest(alloc, row),
        "nodes" => nodes(alloc, row),
        "check" => check(alloc, row),
        _ => labels_called(alloc, row),
    }
}

fn called(alloc: Global, row: &Row<'_>) -> Result<Vec<u8>, Stop> {
    match row.call {
        "again" => again(alloc, row),
        "reprint" => reprint(alloc, row),
        "expand" => expand_all(alloc, row),
        "make" => make(alloc, row),
        _ => Ok(text_called(alloc, row)?.into_bytes()),
    }
}

// What came as an answer: faults are told as `KIND at LINE:COLUMN`.
fn answered(alloc: Global, told: Result<Vec<u8>, Stop>) -> Result<Answer, NoMemory> {
    match told {
        Ok(bytes) => Answer::of_bytes(alloc, bytes.as_slice()),
        Err(Stop::Fault(kind, line, column)) => {
            let text = format!(in alloc; "{kind} at {line}:{column}\n")?;
            Answer::of_text(alloc, text.as_str())
        }
        Err(Stop::Unfit(why)) => {
            let text = format!(in alloc; "unfit: {why}\n")?;
            Answer::of_text(alloc, text.as_str())
        }
        Err(Stop::NoMemory) => Err(NoMemory),
    }
}

impl Calls for Trials {
    fn answer<Rt: Threads + Sync>(
        &self,
        _threads: &Rt,
        alloc: Global,
        row: &Row<'_>,
        _words: &str,
    ) -> Result<Answer, NoMemory> {
        answered(alloc, called(alloc, row))
    }
}
