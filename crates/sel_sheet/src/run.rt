// Runs the rows of sheets, and tells which aren't as wanted.
ghost use Rattle.std.specs.Thread.{IsSync};

use crate::answer::Answer;
use crate::fault::SheetFault;
use crate::row::Row;
use crate::sheet::read_rows;
use sel_base::{FileShelf, NoMemory, Shelf, ShelfFault};
use std::alloc::Global;
use std::env;
use std::process::ExitCode;
use std::thread::Threads;

/// The greatest length of a sheet, in bytes.
const LIMIT: usize = 16_777_216;

/// How many bytes of what isn't as wanted are told, and how many of them stand before the first that differs.
const MOST_TOLD: usize = 300;

const BEFORE: usize = 60;

/// The calls of which rows speak.
pub trait Calls {
    /// What the row's call gives with these words, where threads are begun by `threads`.
    fn answer<Rt: Threads + Sync>(
        &self,
        threads: &Rt,
        alloc: Global,
        row: &Row<'_>,
        words: &str,
    ) -> Result<Answer, NoMemory>
        requires sync { IsSync Rt.row };
}

// What a row or a sheet came to, in words for people.
fn tell(rt: &HostRuntime, name: &str, line: usize, text: &str) {
    let line = line.saturating_add(1);
    let _ = eprintln!(rt; "{name}:{line}: {text}");
}

// How many bytes both begin with.
fn same_bytes(one: &[u8], other: &[u8]) -> usize {
    let mut count: usize = 0;
    for (byte, beside) in one.iter().zip(other.iter()) {
        if byte != beside {
            return count;
        }
        count = count.saturating_add(1);
    }
    count
}

// The bytes round this place.
fn bytes_at(bytes: &[u8], at: usize) -> &[u8] {
    let rest = bytes.get(at.saturating_sub(BEFORE)..).unwrap_or(&[]);
    rest.get(..MOST_TOLD).unwrap_or(rest)
}

fn tell_bytes(rt: &HostRuntime, alloc: Global, what: &str, bytes: &[u8], at: usize) {
    match String::from_utf8_lossy(alloc, bytes_at(bytes, at)) {
        Ok(text) => {
            let _ = eprintln!(rt; "  {what}: {:?}", text.as_str());
        }
        Err(_) => {
            let _ = eprintln!(rt; "  {what}: no memory");
        }
    }
}

// What was wanted and what came, from where they differ.
fn tell_both(rt: &HostRuntime, alloc: Global, what: &str, wanted: &[u8], came: &[u8]) {
    let at = same_bytes(wanted, came);
    let _ = eprintln!(rt; "  {what}, of which {at} bytes are the same");
    tell_bytes(rt, alloc, "wanted", wanted, at);
    tell_bytes(rt, alloc, "came", came, at);
}

// What came, beside what was wanted.
fn tell_answer(rt: &HostRuntime, alloc: Global, row: &Row<'_>, answer: &Answer) {
    let _ = eprintln!(rt; "  wanted status: {}, came: {}", row.status, answer.status);
    tell_both(rt, alloc, "out", row.out.as_slice(), answer.out.as_slice());
    tell_both(rt, alloc, "err", row.err.as_slice(), answer.err.as_slice());
}

fn is_as_wanted<Rt: Threads + Sync, C: Calls>(
    rt: &HostRuntime,
    threads: &Rt,
    alloc: Global,
    name: &str,
    row: &Row<'_>,
    calls: &C,
) -> Result<bool, NoMemory> {
    let answer = calls.answer(threads, alloc, row, row.words)?;
    if !row.is_as_told(&answer) {
        tell(rt, name, row.line, "not as wanted");
        tell_answer(rt, alloc, row, &answer);
        return Ok(false);
    }
    if answer.no_memory {
        tell(rt, name, row.line, "no memory");
        return Ok(false);
    }
    let Some(words) = row.beside else {
        return Ok(true);
    };
    let other = calls.answer(threads, alloc, row, words)?;
    if answer.is_same(&other) {
        return Ok(true);
    }
    tell(rt, name, row.line, "not as beside it");
    Ok(false)
}

fn are_as_wanted<Rt: Threads + Sync, C: Calls>(
    rt: &HostRuntime,
    threads: &Rt,
    alloc: Global,
    name: &str,
    text: &str,
    calls: &C,
) -> Result<bool, SheetFault> {
    let mut shelf = FileShelf::new(rt, alloc);
    let rows = read_rows(alloc, &mut shelf, text)?;
    let mut are_wanted = !rows.is_empty();
    for row in rows.as_slice() {
        are_wanted &= is_as_wanted(rt, threads, alloc, name, row, calls)?;
    }
    Ok(are_wanted)
}

fn is_text_as_wanted<Rt: Threads + Sync, C: Calls>(
    rt: &HostRuntime,
    threads: &Rt,
    alloc: Global,
    name: &str,
    bytes: &[u8],
    calls: &C,
) -> bool {
    let Ok(text) = std::str::from_utf8(bytes) else {
        tell(rt, name, 0, "no text");
        return false;
    };
    match are_as_wanted(rt, threads, alloc, name, text, calls) {
        Ok(are_wanted) => are_wanted,
        Err(SheetFault::Line(line)) => {
            tell(rt, name, line, "no line of a row");
            false
        }
        Err(SheetFault::NoMemory) => {
            tell(rt, name, 0, "no memory");
            false
        }
    }
}

fn is_sheet_as_wanted<Rt: Threads + Sync, C: Calls>(
    rt: &HostRuntime,
    threads: &Rt,
    alloc: Global,
    name: &str,
    calls: &C,
) -> bool {
    let mut shelf = FileShelf::new(rt, alloc);
    match shelf.read(alloc, name, LIMIT) {
        Ok(bytes) => is_text_as_wanted(rt, threads, alloc, name, bytes.as_slice(), calls),
        Err(ShelfFault::Failed | ShelfFault::TooBig | ShelfFault::NoMemory) => {
            tell(rt, name, 0, "not read");
            false
        }
    }
}

/// Runs the rows of the sheets that the words of this process name, writes a line for each sheet, and ends with
/// 0 where each row of each is as wanted. The calls begin their threads by `threads`, which is the process's own
/// runtime too.
pub fn run_sheets<Rt: Threads + Sync, C: Calls>(
    rt: &HostRuntime,
    threads: &Rt,
    calls: &C,
) -> ExitCode {
    let alloc = rt.alloc();
    let Ok(names) = env::args(rt) else {
        return ExitCode::FAILURE;
    };
    let mut are_wanted = true;
    for name in names.skip(1) {
        let is_wanted = is_sheet_as_wanted(rt, threads, alloc, name.as_str(), calls);
        let told = if is_wanted {
            "as wanted"
        } else {
            "not as wanted"
        };
        let _ = println!(rt; "{}: {told}", name.as_str());
        are_wanted &= is_wanted;
    }
    if are_wanted {
        ExitCode::SUCCESS
    } else {
        ExitCode::FAILURE
    }
}
