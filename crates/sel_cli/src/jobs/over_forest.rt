// A job over a forest: its text is read, and the job is done with what it spells.
ghost use Rattle.std.specs.Prelude.{◌≡◌, ◌≤◌, Some, List, ℕ, length, IfOk, IfErr};
ghost use Rattle.sel_forest.specs.ForestText.{SpellsForest};
ghost use Rattle.sel_forest.specs.Valid.{IsValidForest};
ghost use Rattle.sel_items.specs.Laws.{IsAcceptedForm};
ghost use Rattle.sel_words.specs.Settings.{AreWithinBounds};
ghost use Rattle.sel_words.specs.Names.{task_for};
ghost use Rattle.sel_words.specs.Words.{OverForest};
ghost use Rattle.sel_words.specs.declared.words.Mode.TheVariants.{Summary as summary};
ghost use Rattle.sel_cli.specs.Texts.{MayBe, AcceptsGrammar, forest_limit, request_of};
ghost use Rattle.sel_cli.specs.Parts.{StopsOver, TellsOver, WritesOver, IsCertifiedForest, HasNames, DoesJobOver, Serves};

use crate::jobs::Ended;
use crate::jobs::certify::certify_forest;
use crate::jobs::each_tree::{Telling, answer_each};
use crate::jobs::print_forest::print_forest;
use crate::jobs::reported::Reported;
use crate::jobs::summary::sum_forest;
use crate::status::Status;
use crate::texts::{Accepted, fetch};
use sel_base::{Gate, Shelf, Sink};
use sel_forest::{Forest, ForestRefusal, read_forest};
use sel_words::{Command, Mode, Settings};
use sel_work::Goal;
use std::alloc::Global;
use std::thread::Threads;

/// The greatest length of a forest's text, in bytes.
pub const FOREST_LIMIT: usize = 67_108_864;

/// The forest that the text spells. The text isn't kept.
pub fn forest_in(alloc: Global, accepted: &Accepted, text: Vec<u8>) -> Result<Forest, Status>
    requires form { IsAcceptedForm accepted.now.grammar accepted.now.normal }
    requires short { length text.items ≤ forest_limit }
    ensures spelled { IfOk result (λ forest. SpellsForest accepted.now.grammar text.items forest) }
    ensures valid { IfOk result (λ forest. IsValidForest accepted.now.grammar forest) }
    ensures refused { IfErr result (StopsOver accepted.now.grammar text.items) }
{
    match read_forest(alloc, &accepted.grammar, &text) {
        Ok(forest) => Ok(forest),
        Err(ForestRefusal::Fault(fault)) => Err(Status::BadForest(fault)),
        Err(ForestRefusal::NoMemory) => Err(Status::NoMemory),
    }
}

/// Writes what is told of each tree of the forest that the text spells.
pub fn tell_in<Rt: Threads + Sync, K: Sink, G: Gate>(
    rt: &Rt,
    alloc: Global,
    accepted: &Accepted,
    settings: Settings,
    text: Vec<u8>,
    telling: Telling<'_>,
    out: &mut K,
    gate: &G,
) -> Reported
    requires form { IsAcceptedForm accepted.now.grammar accepted.now.normal }
    requires settings { AreWithinBounds settings }
    requires short { length text.items ≤ forest_limit }
    requires names { HasNames telling }
    ensures { TellsOver settings accepted.now.grammar telling.entry text.items (K.told out.old) (K.told out.new) result.status result.report }
{
    match forest_in(alloc, accepted, text) {
        Ok(forest) => answer_each(rt, alloc, accepted, settings, &forest, telling, out, gate),
        Err(status) => Reported::without(status),
    }
}

// Certifies the trees of the forest that the text spells.
fn certify_in<K: Sink>(alloc: Global, accepted: &Accepted, text: Vec<u8>, out: &mut K) -> Status
    requires form { IsAcceptedForm accepted.now.grammar accepted.now.normal }
    requires short { length text.items ≤ forest_limit }
    ensures { WritesOver (IsCertifiedForest accepted.now.grammar) accepted.now.grammar text.items (K.told out.old) (K.told out.new) result }
{
    match forest_in(alloc, accepted, text) {
        Ok(forest) => certify_forest(alloc, &accepted.grammar, &forest, out),
        Err(status) => status,
    }
}

// Sums up the trees of the forest that the text spells.
fn sum_in<Rt: Threads + Sync, K: Sink, G: Gate>(
    rt: &Rt,
    alloc: Global,
    accepted: &Accepted,
    settings: Settings,
    text: Vec<u8>,
    out: &mut K,
    gate: &G,
) -> Reported
    requires form { IsAcceptedForm accepted.now.grammar accepted.now.normal }
    requires settings { AreWithinBounds settings }
    requires short { length text.items ≤ forest_limit }
    ensures { (name : List ℕ) → DoesJobOver settings (OverForest summary name) accepted.now.grammar text.items (K.told out.old) (K.told out.new) result.status result.report }
{
    match forest_in(alloc, accepted, text) {
        Ok(forest) => sum_forest(rt, alloc, accepted, settings, &forest, out, gate),
        Err(status) => Reported::without(status),
    }
}

// Does the job with what the text spells.
fn serve_text<Rt: Threads + Sync, K: Sink, G: Gate>(
    rt: &Rt,
    alloc: Global,
    mode: Mode,
    accepted: &Accepted,
    settings: Settings,
    text: Vec<u8>,
    out: &mut K,
    gate: &G,
) -> Reported
    requires form { IsAcceptedForm accepted.now.grammar accepted.now.normal }
    requires settings { AreWithinBounds settings }
    requires short { length text.items ≤ forest_limit }
    ensures { (name : List ℕ) → DoesJobOver settings (OverForest mode name) accepted.now.grammar text.items (K.told out.old) (K.told out.new) result.status result.report }
{
    match mode {
        Mode::Cover => {
            let telling = Telling::Answer(Goal::Cover);
            tell_in(rt, alloc, accepted, settings, text, telling, out, gate)
        }
        Mode::Select => {
            let telling = Telling::Answer(Goal::Text);
            tell_in(rt, alloc, accepted, settings, text, telling, out, gate)
        }
        Mode::Summary => sum_in(rt, alloc, accepted, settings, text, out, gate),
        Mode::Print => Reported::without(print_forest(alloc, accepted, text, out)),
        Mode::Certify => Reported::without(certify_in(alloc, accepted, text, out)),
    }
}

/// Reads the forest of this name under the accepted grammar, and does the job with it.
pub fn serve_forest<'a, Rt: Threads + Sync, S: Shelf, K: Sink, G: Gate>(
    rt: &Rt,
    alloc: Global,
    command: Command<'a>,
    mode: Mode,
    name: &'a str,
    accepted: &Accepted,
    shelf: &mut S,
    out: &mut K,
    gate: &G,
) -> Ended<'a>
    requires grammar { AcceptsGrammar MayBe (request_of (Some (task_for command)) (S.told shelf.old)) (task_for command) accepted.now.grammar }
    requires form { IsAcceptedForm accepted.now.grammar accepted.now.normal }
    requires settings { AreWithinBounds command.settings }
    requires job { (task_for command).job ≡ OverForest mode name.now }
    ensures served { Serves (Some (task_for command.entry)) (S.told shelf.old) (S.told shelf.new) (K.told out.old) (K.told out.new) result.name.now result.status result.report }
{
    match fetch(alloc, shelf, name, FOREST_LIMIT) {
        Ok(text) => {
            let settings = command.settings;
            serve_text(rt, alloc, mode, accepted, settings, text, out, gate).of(name)
        }
        Err(status) => Ended::without(status, name),
    }
}
