// The texts of a forest's covers with registers in place of temporaries.
ghost use Rattle.std.specs.Prelude.{◌≡◌, ◌≤◌, Some, List, ℕ, length};
ghost use Rattle.sel_items.specs.Laws.{IsAcceptedForm};
ghost use Rattle.sel_words.specs.Settings.{AreWithinBounds};
ghost use Rattle.sel_words.specs.Names.{task_for};
ghost use Rattle.sel_words.specs.Registers.{register_names, AreRegisters};
ghost use Rattle.sel_words.specs.Words.{Regs};
ghost use Rattle.sel_cli.specs.Texts.{MayBe, AcceptsGrammar, forest_limit, request_of};
ghost use Rattle.sel_cli.specs.Parts.{DoesJobOver, Serves};

use crate::jobs::Ended;
use crate::jobs::each_tree::Telling;
use crate::jobs::over_forest::{FOREST_LIMIT, forest_in, tell_in};
use crate::jobs::reported::Reported;
use crate::status::Status;
use crate::texts::{Accepted, fetch};
use sel_base::{Gate, NoMemory, Shelf, Sink};
use sel_words::{Command, Settings, register_names};
use std::alloc::Global;
use std::thread::Threads;

// Writes the texts of the forest that the text spells, with registers of these names.
fn name_in<Rt: Threads + Sync, K: Sink, G: Gate>(
    rt: &Rt,
    alloc: Global,
    accepted: &Accepted,
    settings: Settings,
    registers: &str,
    text: Vec<u8>,
    out: &mut K,
    gate: &G,
) -> Reported
    requires form { IsAcceptedForm accepted.now.grammar accepted.now.normal }
    requires settings { AreWithinBounds settings }
    requires registers { AreRegisters (register_names registers.now) }
    requires short { length text.items ≤ forest_limit }
    ensures { (name : List ℕ) → DoesJobOver settings (Regs (register_names registers.now) name) accepted.now.grammar text.items (K.told out.old) (K.told out.new) result.status result.report }
{
    match register_names(alloc, registers) {
        Ok(names) => {
            let telling = Telling::Named(names.as_slice());
            tell_in(rt, alloc, accepted, settings, text, telling, out, gate)
        }
        Err(NoMemory) => Reported::without(Status::NoMemory),
    }
}

/// Reads the forest of this name under the accepted grammar, and writes the texts of its covers with these
/// registers, whose names stand with a comma between two.
pub fn serve_registers<'a, Rt: Threads + Sync, S: Shelf, K: Sink, G: Gate>(
    rt: &Rt,
    alloc: Global,
    command: Command<'a>,
    name: &'a str,
    registers: &'a str,
    accepted: &Accepted,
    shelf: &mut S,
    out: &mut K,
    gate: &G,
) -> Ended<'a>
    requires grammar { AcceptsGrammar MayBe (request_of (Some (task_for command)) (S.told shelf.old)) (task_for command) accepted.now.grammar }
    requires form { IsAcceptedForm accepted.now.grammar accepted.now.normal }
    requires settings { AreWithinBounds command.settings }
    requires registers { AreRegisters (register_names registers.now) }
    requires job { (task_for command).job ≡ Regs (register_names registers.now) name.now }
    ensures served { Serves (Some (task_for command.entry)) (S.told shelf.old) (S.told shelf.new) (K.told out.old) (K.told out.new) result.name.now result.status result.report }
{
    match fetch(alloc, shelf, name, FOREST_LIMIT) {
        Ok(text) => {
            let settings = command.settings;
            name_in(rt, alloc, accepted, settings, registers, text, out, gate).of(name)
        }
        Err(status) => Ended::without(status, name),
    }
}
