// The trees of a forest are answered batch by batch, and summed up.
ghost use Rattle.std.specs.Prelude.{◌≡◌, ◌<◌, ◌≤◌, ◌+◌, ◌^◌, ◌++◌, [], List, length, IfOk, OnOk, ◌⊎◌};
ghost use Rattle.sel_forest.specs.declared.forest.Tree.{Tree as AnyTree};
ghost use Rattle.sel_forest.specs.Limits.{most_trees};
ghost use Rattle.sel_forest.specs.Valid.{IsValidForest};
ghost use Rattle.sel_grammar.specs.declared.grammar.Grammar.{Grammar as AnyGrammar};
ghost use Rattle.sel_items.specs.Laws.{IsAcceptedForm};
ghost use Rattle.sel_count.specs.Things.{AreValid};
ghost use Rattle.sel_words.specs.Settings.{AreWithinBounds};
ghost use Rattle.sel_words.specs.declared.settings.Settings.{Settings as AnySettings};
ghost use Rattle.sel_crew.specs.Crews.{IsCrew, grammar_of};
ghost use Rattle.sel_answers.specs.Output.{AreSummedUp};
ghost use Rattle.sel_answers.specs.Reported.{marks_of};
ghost use Rattle.sel_cli.specs.Crews.{AnswersMore, HasAnswered, SumsUpTrees};
ghost use Rattle.sel_cli.specs.Parts.{SumsUpJob};

use crate::jobs::crew::{BATCH, begin_crew, report_of};
use crate::jobs::reported::Reported;
use crate::jobs::writing::write_output;
use crate::status::Status;
use crate::texts::Accepted;
use sel_answers::laws::tables_are_told;
use sel_answers::{Summing, has_second_costs};
use sel_base::{Gate, NoMemory, Sink};
use sel_closing::laws::forests_are_valid;
use sel_crew::Crew;
use sel_forest::{Forest, Tree};
use sel_words::Settings;
use sel_work::Goal;
use std::alloc::Global;
use std::thread::Threads;

/// Answers a batch of trees behind those of the sums, and adds their answers.
pub fn sum_batch<Rt: Threads + Sync, G: Gate>(
    rt: &Rt,
    alloc: Global,
    crew: &mut Crew<'_>,
    batch: &[Tree],
    sums: Summing,
    gate: &G,
) -> Result<Summing, NoMemory>
    requires crew { IsCrew crew.old }
    requires trees { AreValid (grammar_of crew.old) batch.now }
    requires so_far { (given : List AnyTree) × SumsUpTrees (grammar_of crew.old) given sums }
    requires few { sums.count + length batch.now ≤ most_trees }
    ensures summed { (given : List AnyTree) → SumsUpTrees (grammar_of crew.old) given sums → IfOk result (SumsUpTrees (grammar_of crew.old) (given ++ batch.now)) }
    ensures crew { IsCrew crew.new }
    ensures same { grammar_of crew.new ≡ grammar_of crew.old }
    ensures answered { OnOk result (AnswersMore batch.now crew.old crew.new) }
{
    let answers = crew.answer(rt, alloc, batch, sums.count, Goal::Cover, gate)?;
    Ok(sums.with_all(answers.as_slice()))
}

// The sums of the answers of the trees, which are answered batch by batch.
fn sum_batches<Rt: Threads + Sync, G: Gate>(
    rt: &Rt,
    alloc: Global,
    crew: &mut Crew<'_>,
    trees: &[Tree],
    gate: &G,
) -> Result<Summing, NoMemory>
    requires crew { IsCrew crew.old }
    requires trees { AreValid (grammar_of crew.old) trees.now }
    requires few { length trees.now ≤ most_trees }
    ensures summed { IfOk result (SumsUpTrees (grammar_of crew.old) trees.now) }
    ensures crew { IsCrew crew.new }
    ensures answered { OnOk result (AnswersMore trees.now crew.old crew.new) }
{
    let mut sums = Summing::NONE;
    let mut rest = trees;
    'batches: while !rest.is_empty() {
        let (batch, more) = rest.split_at(rest.len().min(BATCH));
        sums = sum_batch(rt, alloc, crew, batch, sums, gate)?;
        rest = more;
    }
    Ok(sums)
}

/// Writes the sums, and behind them what the crew's table tells.
pub fn write_summary<K: Sink>(
    alloc: Global,
    accepted: &Accepted,
    crew: Crew<'_>,
    sums: Summing,
    out: &mut K,
) -> Reported
    requires crew { IsCrew crew }
    ensures { (settings : AnySettings) (trees : List AnyTree) → AreValid accepted.now.grammar trees → SumsUpTrees accepted.now.grammar trees sums
        → HasAnswered accepted.now.grammar settings trees crew.entry
        → SumsUpJob settings accepted.now.grammar trees (K.told out.old) (K.told out.new) result.status result.report }
{
    tables_are_told();
    let report = match report_of(alloc, crew) {
        Ok(report) => report,
        Err(NoMemory) => return Reported::without(Status::NoMemory),
    };
    let second = has_second_costs(&accepted.grammar);
    match sums.into_output(alloc, second, &report) {
        Ok(output) => Reported {
            status: write_output(out, &output),
            report,
        },
        Err(NoMemory) => Reported::without(Status::NoMemory),
    }
}

/// Answers the trees of the forest, and writes their sums.
pub fn sum_forest<Rt: Threads + Sync, K: Sink, G: Gate>(
    rt: &Rt,
    alloc: Global,
    accepted: &Accepted,
    settings: Settings,
    forest: &Forest,
    out: &mut K,
    gate: &G,
) -> Reported
    requires form { IsAcceptedForm accepted.now.grammar accepted.now.normal }
    requires settings { AreWithinBounds settings }
    requires valid { IsValidForest accepted.now.grammar forest.now }
    ensures { SumsUpJob settings accepted.now.grammar forest.now.trees (K.told out.old) (K.told out.new) result.status result.report }
{
    forests_are_valid();
    let mut crew = match begin_crew(alloc, accepted, settings) {
        Ok(crew) => crew,
        Err(NoMemory) => return Reported::without(Status::NoMemory),
    };
    match sum_batches(rt, alloc, &mut crew, forest.trees.as_slice(), gate) {
        Ok(sums) => write_summary(alloc, accepted, crew, sums, out),
        Err(NoMemory) => Reported::without(Status::NoMemory),
    }
}
