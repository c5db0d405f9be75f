// The top call.
ghost use Rattle.std.specs.Prelude.{◌≡◌, ◌≤◌, map, string_bytes};
ghost use Rattle.sel_words.specs.Words.{command};
ghost use Rattle.sel_answers.specs.Reported.{marks_of};
ghost use Rattle.sel_cli.specs.Texts.{request_of};
ghost use Rattle.sel_cli.specs.Ends.{Ending, ComesAsDecided, IsComplete, NeedsNoText};
ghost use Rattle.sel_cli.specs.Runs.{KeepsShelf, KeepsOutput};
ghost use Rattle.sel_cli.specs.Parts.{Serves};

use crate::jobs::{Ended, serve};
use crate::lines::tell;
use crate::status::Status;
use sel_base::{Gate, NoMemory, Shelf, Sink};
use sel_crew::Report;
use sel_words::read_words;
use std::alloc::Global;
use std::thread::Threads;

// Does what the words ask for.
fn obey<'a, Rt: Threads + Sync, S: Shelf, K: Sink, G: Gate>(
    rt: &Rt,
    alloc: Global,
    words: &'a [String],
    shelf: &mut S,
    out: &mut K,
    gate: &G,
) -> Ended<'a>
    ensures served { Serves (command (map string_bytes words.now)) (S.told shelf.old) (S.told shelf.new) (K.told out.old) (K.told out.new) result.name.now result.status result.report }
    ensures untouched { NeedsNoText (command (map string_bytes words.now)) → shelf.new ≡ shelf.old }
{
    match read_words(alloc, words) {
        Ok(Some(command)) => serve(rt, alloc, command, shelf, out, gate),
        Ok(None) => Ended::without(Status::Usage, ""),
        Err(NoMemory) => Ended::without(Status::NoMemory, ""),
    }
}

/// Does what the words ask for (`cover`, `select`, `regs`, `print`, `summary` or `certify` with GRAMMAR and FOREST,
/// `check` with GRAMMAR, FOREST and CERTIFICATE, `print GRAMMAR` or `make GRAMMAR`, and options in any place, without
/// the program's name): reads the texts from the shelf, but for a shipped grammar's, or makes the forest, writes the
/// cheapest cover of each tree, the text that it expands to, with or without registers, a summary of the covers, the
/// certificate of each, what certificates prove, or the grammar or the forest in print, to `out`, and says how it
/// ended. The status's line goes to `err`. So many workers answer the trees as the options say, batch by batch, over one table of
/// states and transitions; the gate is passed round each tree. The report is of that table.
pub fn run<S: Shelf, K: Sink, E: Sink, G: Gate, Rt: Threads + Sync>(
    rt: &Rt,
    alloc: Global,
    words: &[String],
    shelf: &mut S,
    out: &mut K,
    err: &mut E,
    gate: &G,
) -> (Status, Report)
    // Each status comes for its cause, with the bytes that it wrote, what is reported, and a front of its line.
    ensures ends { Ending (request_of (command (map string_bytes words.now)) (S.told shelf.old)) result.1
        (S.told shelf.old) (S.told shelf.new) (K.told out.old) (K.told out.new) (E.told err.old) (E.told err.new) result.0 }
    // What the words and told texts decide comes, but for want of memory and faults of the outside.
    ensures exactly { ComesAsDecided (request_of (command (map string_bytes words.now)) (S.told shelf.old)) result.0 }
    // Where the outside has no fault, a task with accepted texts is done to the end.
    ensures complete { IsComplete (request_of (command (map string_bytes words.now)) (S.told shelf.old)) (marks_of result.1)
        (S.told shelf.old) (S.told shelf.new) (K.told out.old) (K.told out.new) result.0 }
    // The shelf holds the same, tells a fault at a failed read alone, and was read last where the status says.
    ensures reads { KeepsShelf (command (map string_bytes words.now)) (S.told shelf.old) (S.told shelf.new) result.0 }
    // Nothing is read where the words are no command, or a shipped grammar is printed or a forest made of it.
    ensures untouched { NeedsNoText (command (map string_bytes words.now)) → shelf.new ≡ shelf.old }
    // The output tells a fault at a failed write alone.
    ensures writes { KeepsOutput (K.told out.old) (K.told out.new) result.0 }
    ensures tells { (E.told err.old).faults ≤ (E.told err.new).faults }
{
    let Ended {
        status,
        name,
        report,
    } = obey(rt, alloc, words, shelf, out, gate);
    tell(alloc, name, status, err);
    (status, report)
}
