//! The answers of a whole forest.
ghost use Rattle.std.specs.Prelude.{IfOk};
ghost use Rattle.sel_forest.specs.Valid.{IsValidForest};
ghost use Rattle.sel_items.specs.Laws.{IsAcceptedForm};
ghost use Rattle.sel_crew.specs.Answers.{AreAnswersOf};
ghost use Rattle.sel_crew.specs.Options.{AreLawful, room_by};
ghost use Rattle.sel_crew.specs.Reports.{TellsCounted, TellsWhole, TellsPlainNodes};

use crate::crew::Crew;
use crate::options::Options;
use crate::report::Report;
use sel_base::{Gate, List, NoMemory};
use sel_forest::Forest;
use sel_grammar::Grammar;
use sel_normal::Normal;
use sel_work::{Answer, Goal};
use std::alloc::Global;
use std::thread::Threads;

/// The answers of the forest's trees, in their order, and what is told of them all. The gate is passed round each tree,
/// with the worker's number and the tree's, which is 0 for the first one.
pub fn answer_forest<Rt: Threads + Sync, G: Gate + Sync>(
    rt: &Rt,
    alloc: Global,
    grammar: &Grammar,
    normal: &Normal,
    forest: &Forest,
    options: Options,
    goal: Goal,
    gate: &G,
) -> Result<(List<Answer>, Report), NoMemory>
    requires form { IsAcceptedForm grammar.now normal.now }
    requires valid { IsValidForest grammar.now forest.now }
    requires options { AreLawful options }
    ensures answers { IfOk result (λ r. AreAnswersOf grammar.now goal forest.now.trees r.0) }
    ensures counted { IfOk result (λ r. TellsCounted grammar.now normal.now (room_by options) forest.now.trees r.1) }
    ensures whole { IfOk result (λ r. TellsWhole grammar.now (room_by options) forest.now.trees r.1) }
    ensures plain { IfOk result (λ r. TellsPlainNodes grammar.now forest.now.trees r.1) }
{
    let mut crew = Crew::begin(alloc, grammar, normal, options)?;
    let answers = crew.answer(rt, alloc, forest.trees.as_slice(), 0, goal, gate)?;
    let report = crew.finish(alloc)?;
    Ok((answers, report))
}
