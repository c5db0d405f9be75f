// The calls of the rows: the top call over texts in memory, the trees that pass its gate, the program's exit
// status, and the words alone.
use crate::command::command_told;
use crate::counting_gate::CountingGate;
use crate::holding_gate::HoldingGate;
use sel_base::{Gate, MemoryShelf, MemorySink, NoMemory, OpenGate};
use sel_cli::run::run;
use sel_cli::{Status, run_program};
use sel_sheet::{Answer, Calls, Row, words_of};
use std::alloc::Global;
use std::thread::Threads;

/// The most bytes that the error stream takes at once.
const ERR_PIECE: usize = 100;

/// A status whose fault isn't that of the line on the error stream.
const NOT_TOLD: u64 = 999;

/// The status of `run_program` where there was no memory.
const NO_MEMORY: u8 = 7;

/// `run`, in a row without a line `call`; `read_words`, in one with `call words`; the trees that pass the gate of
/// `run`, in one with `call gate`; `run` whose gate holds the first tree until N others have left, in one with
/// `call held N`; `run` whose line on the error stream can't be put, in one with `call mute`; and `run_program`, in one with `call program`, or with `call unread` where there is no memory for
/// the words.
pub struct TopCall;

// The line speaks of this fault where the status does.
fn is_told(status: &Status, alloc: Global, err: &[u8]) -> Result<bool, NoMemory> {
    let told = match status {
        Status::BadGrammar(fault) => {
            format!(in alloc;
                ":{}:{}: grammar fault {} ",
                fault.line, fault.column, fault.kind
            )?
        }
        Status::BadForest(fault) => {
            format!(in alloc;
                ":{}:{}: forest fault {} ",
                fault.line, fault.column, fault.kind
            )?
        }
        Status::BadCertificate(fault) => {
            format!(in alloc; ":{}: certificate fault {} ", fault.line, fault.kind)?
        }
        _ => return Ok(true),
    };
    let told = told.as_bytes();
    Ok(err.windows(told.len()).any(|window| window == told))
}

// The texts and the streams of a row.
#[derive(Drop)]
struct Outside {
    shelf: MemoryShelf,
    out: MemorySink,
    err: MemorySink,
}

// The puts on the error stream that fail.
fn failing_lines(call: &str) -> &'static [u64] {
    match call {
        "mute" => &[1],
        _ => &[],
    }
}

fn outside_of(alloc: Global, row: &Row<'_>) -> Result<Outside, NoMemory> {
    let mut shelf = MemoryShelf::new(alloc, row.reads.as_slice())?;
    for file in row.files.as_slice() {
        shelf.add(file.name, file.text.as_slice())?;
    }
    let piece = row.piece.max(1);
    Ok(Outside {
        shelf,
        out: MemorySink::new(alloc, piece, row.puts.as_slice())?,
        err: MemorySink::new(alloc, ERR_PIECE, failing_lines(row.call))?,
    })
}

// How the top call with this gate ended.
fn ended<Rt: Threads + Sync, G: Gate + Sync>(
    rt: &Rt,
    alloc: Global,
    row: &Row<'_>,
    words: &str,
    gate: &G,
) -> Result<Answer, NoMemory> {
    let words = words_of(alloc, words)?;
    let Outside {
        mut shelf,
        mut out,
        mut err,
    } = outside_of(alloc, row)?;
    let (status, _) = run(rt, alloc, &words, &mut shelf, &mut out, &mut err, gate);
    let is_told = is_told(&status, alloc, err.bytes())?;
    Ok(Answer {
        out: Vec::from_slice(alloc, out.bytes())?,
        err: Vec::from_slice(alloc, err.bytes())?,
        status: if is_told {
            status.code() as u64
        } else {
            NOT_TOLD
        },
        no_memory: status == Status::NoMemory,
    })
}

// How the top call ended whose gate holds the first tree until so many others have left. Where the gate was given up,
// a line on the error stream says so.
fn held<Rt: Threads + Sync>(
    rt: &Rt,
    alloc: Global,
    row: &Row<'_>,
    words: &str,
    until: u64,
) -> Result<Answer, NoMemory> {
    let gate = HoldingGate::new(until);
    let mut answer = ended(rt, alloc, row, words, &gate)?;
    if gate.was_given_up() {
        answer.err.extend_from_slice(b"given up\n")?;
    }
    Ok(answer)
}

// Which trees passed the gate of the top call.
fn passed<Rt: Threads + Sync>(
    rt: &Rt,
    alloc: Global,
    row: &Row<'_>,
    words: &str,
) -> Result<Answer, NoMemory> {
    let words = words_of(alloc, words)?;
    let Outside {
        mut shelf,
        mut out,
        mut err,
    } = outside_of(alloc, row)?;
    let gate = CountingGate::new();
    let (status, _) = run(rt, alloc, &words, &mut shelf, &mut out, &mut err, &gate);
    let told = gate.told(alloc)?;
    Ok(Answer {
        out: Vec::from_slice(alloc, told.as_bytes())?,
        err: Vec::from_slice(alloc, err.bytes())?,
        status: status.code() as u64,
        no_memory: status == Status::NoMemory,
    })
}

// How many trees have to leave before the first one enters, in a call that says so.
fn until_of(call: &str) -> Option<u64> {
    call.strip_prefix("held ")?.parse::<u64>().ok()
}

// How the program exits with these words, or with none, since there was no memory for them.
fn exited<Rt: Threads + Sync>(
    rt: &Rt,
    alloc: Global,
    row: &Row<'_>,
    words: Result<Vec<String>, NoMemory>,
) -> Result<Answer, NoMemory> {
    let are_read = words.is_ok();
    let Outside {
        mut shelf,
        mut out,
        mut err,
    } = outside_of(alloc, row)?;
    let code = run_program(rt, alloc, words, &mut shelf, &mut out, &mut err, &OpenGate);
    Ok(Answer {
        out: Vec::from_slice(alloc, out.bytes())?,
        err: Vec::from_slice(alloc, err.bytes())?,
        status: code as u64,
        no_memory: are_read && code == NO_MEMORY,
    })
}

impl Calls for TopCall {
    fn answer<Rt: Threads + Sync>(
        &self,
        threads: &Rt,
        alloc: Global,
        row: &Row<'_>,
        words: &str,
    ) -> Result<Answer, NoMemory> {
        match row.call {
            "words" => command_told(alloc, words),
            "gate" => passed(threads, alloc, row, words),
            "program" => exited(threads, alloc, row, Ok(words_of(alloc, words)?)),
            "unread" => exited(threads, alloc, row, Err(NoMemory)),
            call => match until_of(call) {
                Some(until) => held(threads, alloc, row, words, until),
                None => ended(threads, alloc, row, words, &OpenGate),
            },
        }
    }
}
