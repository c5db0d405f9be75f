// What a command asks for, job by job: each is done by a file of its own.
ghost use Rattle.std.specs.Prelude.{◌≡◌, Some};
ghost use Rattle.sel_words.specs.Settings.{AreWithinBounds};
ghost use Rattle.sel_words.specs.Names.{task_for, source_for, IsShort};
ghost use Rattle.sel_words.specs.Words.{HasRegisters};
ghost use Rattle.sel_cli.specs.Ends.{NeedsNoText};
ghost use Rattle.sel_cli.specs.Parts.{Serves};
ghost use Rattle.sel_cli.specs.Reporting.{nothing_reported};

mod certify;
mod check;
mod crew;
mod each_tree;
mod make;
mod over_forest;
mod print_forest;
mod print_grammar;
mod registers;
mod reported;
mod summary;
mod writing;

use crate::jobs::check::serve_check;
use crate::jobs::make::make;
use crate::jobs::over_forest::serve_forest;
use crate::jobs::print_grammar::print_grammar;
use crate::jobs::registers::serve_registers;
use crate::jobs::reported::Reported;
use crate::status::Status;
use crate::texts::accept_grammar;
use sel_base::{Gate, Shelf, Sink};
use sel_crew::Report;
use sel_words::{Command, Job};
use std::alloc::Global;
use std::thread::Threads;

/// How a run ended, the name of the text of which its status speaks, and what is reported of its trees.
#[derive(Drop)]
pub struct Ended<'a> {
    pub status: Status,
    pub name: &'a str,
    pub report: Report,
}

impl<'a> Ended<'a> {
    /// A run that ended before any tree was answered.
    pub fn without(status: Status, name: &'a str) -> Ended<'a>
        ensures status { result.status ≡ status }
        ensures name { result.name.now ≡ name.now }
        ensures report { result.report ≡ nothing_reported }
    {
        Reported::without(status).of(name)
    }
}

impl Reported {
    /// The end of a run with this job. Its status speaks of the text of this name.
    fn of(self, name: &str) -> Ended<'_>
        ensures status { result.status ≡ self.status }
        ensures name { result.name.now ≡ name.now }
        ensures report { result.report ≡ self.report }
    {
        let Reported { status, report } = self;
        Ended {
            status,
            name,
            report,
        }
    }
}

/// Judges the grammar, and does the job with it.
pub fn serve<'a, Rt: Threads + Sync, S: Shelf, K: Sink, G: Gate>(
    rt: &Rt,
    alloc: Global,
    command: Command<'a>,
    shelf: &mut S,
    out: &mut K,
    gate: &G,
) -> Ended<'a>
    requires settings { AreWithinBounds command.settings }
    requires short { IsShort (source_for command.source) }
    requires registers { HasRegisters (task_for command).job }
    ensures served { Serves (Some (task_for command.entry)) (S.told shelf.old) (S.told shelf.new) (K.told out.old) (K.told out.new) result.name.now result.status result.report }
    ensures untouched { NeedsNoText (Some (task_for command.entry)) → shelf.new ≡ shelf.old }
{
    let name = command.grammar;
    let accepted = match accept_grammar(alloc, shelf, command) {
        Ok(accepted) => accepted,
        Err(status) => return Ended::without(status, name),
    };
    match command.job {
        Job::PrintGrammar => Ended::without(print_grammar(alloc, &accepted.grammar, out), name),
        Job::Make => make(rt, alloc, &accepted, command.settings, out, gate).of(name),
        Job::OverForest(mode, name) => {
            serve_forest(rt, alloc, command, mode, name, &accepted, shelf, out, gate)
        }
        Job::Regs(name, registers) => serve_registers(
            rt, alloc, command, name, registers, &accepted, shelf, out, gate,
        ),
        Job::Check(name, certificate) => {
            serve_check(alloc, command, name, certificate, &accepted, shelf, out)
        }
    }
}
