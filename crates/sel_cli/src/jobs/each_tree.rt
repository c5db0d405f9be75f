// What is told of a forest's trees, written batch by batch.
ghost use Rattle.std.specs.Prelude.{◌≡◌, ◌<◌, ◌≤◌, ◌+◌, ◌^◌, ◌++◌, [], List, length, IfOk, OnOk, ◌⊎◌};
ghost use Rattle.std.specs.List.{list_all};
ghost use Rattle.sel_forest.specs.declared.forest.Tree.{Tree as AnyTree};
ghost use Rattle.sel_forest.specs.Limits.{most_trees};
ghost use Rattle.sel_forest.specs.Valid.{IsValidForest};
ghost use Rattle.sel_grammar.specs.declared.grammar.Grammar.{Grammar as AnyGrammar};
ghost use Rattle.sel_grammar.specs.Lawful.{IsLawful};
ghost use Rattle.sel_normal.specs.NormalFaults.{IsAccepted};
ghost use Rattle.sel_items.specs.Laws.{IsAcceptedForm};
ghost use Rattle.sel_count.specs.Things.{AreValid};
ghost use Rattle.sel_words.specs.Settings.{AreWithinBounds};
ghost use Rattle.sel_words.specs.declared.settings.Settings.{Settings as AnySettings};
ghost use Rattle.sel_crew.specs.Answers.{AreAnswersOf};
ghost use Rattle.sel_crew.specs.Crews.{IsCrew, grammar_of};
ghost use Rattle.sel_answers.specs.Output.{answers_text, is_covered};
ghost use Rattle.sel_cli.specs.Crews.{AnswersMore, HasAnswered};
ghost use Rattle.sel_cli.specs.Ends.{finished};
ghost use Rattle.sel_cli.specs.Parts.{TellsJob, EndsBatch, AreTold, HasNames, goal_of};
ghost use Rattle.sel_cli.specs.Reporting.{TellsOf, IsUnfinished, nothing_reported};
ghost use Rattle.sel_cli.specs.declared.status.Status.TheVariants.{NoMemory as no_memory};

use crate::jobs::crew::{BATCH, begin_crew, report_of};
use crate::jobs::reported::Reported;
use crate::jobs::writing::write_piece;
use crate::status::{Status, finished};
use crate::texts::Accepted;
use sel_answers::{Output, are_covered, has_second_costs, named_output, put_answers};
use sel_base::{Gate, NoMemory, Sink};
use sel_closing::laws::forests_are_valid;
use sel_crew::Crew;
use sel_forest::{Forest, Tree};
use sel_grammar::Grammar;
use sel_named::laws::named_is_one;
use sel_words::Settings;
use sel_work::laws::answer_exists;
use sel_work::{Answer, Goal};
use std::alloc::Global;
use std::thread::Threads;

/// What is told of each tree.
#[derive(Clone, Copy)]
pub enum Telling<'n> {
    /// The best cover, or the text that it expands to.
    Answer(Goal),
    /// The text that the best cover expands to, with registers of these names in place of temporaries.
    Named(&'n [&'n str]),
}

// What is asked of each tree for what is told of it.
fn goal_of(telling: Telling<'_>) -> Goal
    ensures { result ≡ goal_of telling.entry }
{
    match telling {
        Telling::Answer(goal) => goal,
        Telling::Named(_) => Goal::Cover,
    }
}

// The text of a batch's answers, which are numbered behind so many others.
fn answers_output(
    alloc: Global,
    second: bool,
    before: u32,
    answers: &[Answer],
) -> Result<Output, NoMemory>
    requires few { before + length answers.now < 2 ^ 32 }
    ensures text { IfOk result (λ output. output.text.items ≡ answers_text second (before + 1) answers.now) }
    ensures covered { IfOk result (λ output. output.covered ≡ list_all is_covered answers.now) }
{
    let mut text = Vec::new(alloc);
    put_answers(&mut text, second, before, answers)?;
    let covered = are_covered(answers);
    Ok(Output { text, covered })
}

// What is told of a batch of trees, which are numbered behind so many others, by what they answered.
fn batch_output(
    alloc: Global,
    grammar: &Grammar,
    telling: Telling<'_>,
    batch: &[Tree],
    before: u32,
    answers: &[Answer],
) -> Result<Output, NoMemory>
    requires names { HasNames telling }
    requires trees { AreValid grammar.now batch.now }
    requires few { before + length batch.now < 2 ^ 32 }
    requires answers { AreAnswersOf grammar.now (goal_of telling) batch.now answers.now }
    ensures { IfOk result (λ output. AreTold grammar.now telling.entry before batch.now output.covered output.text.items) }
{
    let second = has_second_costs(grammar);
    match telling {
        Telling::Answer(_) => answers_output(alloc, second, before, answers),
        Telling::Named(names) => {
            named_output(alloc, grammar, second, before, batch, answers, names)
        }
    }
}

// Writes what is told of a batch. Ok tells whether each tree has a cover or a text.
fn write_told<K: Sink>(
    alloc: Global,
    grammar: &Grammar,
    telling: Telling<'_>,
    batch: &[Tree],
    before: u32,
    answers: &[Answer],
    out: &mut K,
) -> Result<bool, Status>
    requires names { HasNames telling }
    requires trees { AreValid grammar.now batch.now }
    requires few { before + length batch.now < 2 ^ 32 }
    requires answers { AreAnswersOf grammar.now (goal_of telling) batch.now answers.now }
    ensures done { EndsBatch (AreTold grammar.now telling.entry before batch.now) (K.told out.old) (K.told out.new) result }
{
    match batch_output(alloc, grammar, telling, batch, before, answers) {
        Ok(output) => write_piece(out, &output),
        Err(NoMemory) => Err(Status::NoMemory),
    }
}

// Answers a batch of trees, which are numbered behind so many others, and writes what is told of them.
fn write_batch<Rt: Threads + Sync, K: Sink, G: Gate>(
    rt: &Rt,
    alloc: Global,
    crew: &mut Crew<'_>,
    grammar: &Grammar,
    telling: Telling<'_>,
    batch: &[Tree],
    before: u32,
    out: &mut K,
    gate: &G,
) -> Result<bool, Status>
    requires crew { IsCrew crew.old }
    requires grammar { grammar_of crew.old ≡ grammar.now }
    requires names { HasNames telling }
    requires trees { AreValid grammar.now batch.now }
    requires few { before + length batch.now < 2 ^ 32 }
    ensures done { EndsBatch (AreTold grammar.now telling.entry before batch.now) (K.told out.old) (K.told out.new) result }
    ensures crew { IsCrew crew.new }
    ensures same { grammar_of crew.new ≡ grammar.now }
    ensures answered { OnOk result (AnswersMore batch.now crew.old crew.new) }
{
    match crew.answer(rt, alloc, batch, before, goal_of(telling), gate) {
        Ok(answers) => write_told(
            alloc,
            grammar,
            telling,
            batch,
            before,
            answers.as_slice(),
            out,
        ),
        Err(NoMemory) => Err(Status::NoMemory),
    }
}

// Answers the trees, and writes what is told of each batch before the next one is begun.
fn write_batches<Rt: Threads + Sync, K: Sink, G: Gate>(
    rt: &Rt,
    alloc: Global,
    crew: &mut Crew<'_>,
    grammar: &Grammar,
    telling: Telling<'_>,
    trees: &[Tree],
    out: &mut K,
    gate: &G,
) -> Result<bool, Status>
    requires crew { IsCrew crew.old }
    requires grammar { grammar_of crew.old ≡ grammar.now }
    requires accepted { IsAccepted grammar.now }
    requires lawful { IsLawful grammar.now }
    requires names { HasNames telling }
    requires trees { AreValid grammar.now trees.now }
    requires few { length trees.now ≤ most_trees }
    ensures done { EndsBatch (AreTold grammar.now telling.entry 0 trees.now) (K.told out.old) (K.told out.new) result }
    ensures crew { IsCrew crew.new }
    ensures answered { OnOk result (AnswersMore trees.now crew.old crew.new) }
{
    answer_exists();
    named_is_one();
    let mut covered = true;
    let mut before = 0;
    let mut rest = trees;
    'batches: while !rest.is_empty() {
        let (batch, more) = rest.split_at(rest.len().min(BATCH));
        match write_batch(rt, alloc, crew, grammar, telling, batch, before, out, gate) {
            Ok(all) => covered &= all,
            Err(status) => return Err(status),
        }
        before += batch.len() as u32;
        rest = more;
    }
    Ok(covered)
}

// The end of a job whose answers are all written: what the crew reports, where there is memory for it.
fn close_behind(alloc: Global, crew: Crew<'_>, covered: bool) -> Reported
    requires crew { IsCrew crew }
    ensures status { (result.status ≡ finished covered) ⊎ ((result.status ≡ no_memory) × (result.report ≡ nothing_reported)) }
    ensures report { (g : AnyGrammar) (settings : AnySettings) (trees : List AnyTree) → AreValid g trees → HasAnswered g settings trees crew.entry
        → ((result.report ≡ nothing_reported) × IsUnfinished result.status) ⊎ TellsOf settings g trees result.report }
{
    match report_of(alloc, crew) {
        Ok(report) => Reported {
            status: finished(covered),
            report,
        },
        Err(NoMemory) => Reported::without(Status::NoMemory),
    }
}

/// Answers the trees of the forest, and writes what is told of each under its number.
pub fn answer_each<Rt: Threads + Sync, K: Sink, G: Gate>(
    rt: &Rt,
    alloc: Global,
    accepted: &Accepted,
    settings: Settings,
    forest: &Forest,
    telling: Telling<'_>,
    out: &mut K,
    gate: &G,
) -> Reported
    requires form { IsAcceptedForm accepted.now.grammar accepted.now.normal }
    requires settings { AreWithinBounds settings }
    requires valid { IsValidForest accepted.now.grammar forest.now }
    requires names { HasNames telling }
    ensures { TellsJob settings accepted.now.grammar telling.entry forest.now.trees (K.told out.old) (K.told out.new) result.status result.report }
{
    forests_are_valid();
    let mut crew = match begin_crew(alloc, accepted, settings) {
        Ok(crew) => crew,
        Err(NoMemory) => return Reported::without(Status::NoMemory),
    };
    let grammar = &accepted.grammar;
    let trees = forest.trees.as_slice();
    match write_batches(rt, alloc, &mut crew, grammar, telling, trees, out, gate) {
        Ok(covered) => close_behind(alloc, crew, covered),
        Err(status) => Reported::without(status),
    }
}
