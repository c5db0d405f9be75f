// The answers of trees by a complete table.
ghost use Rattle.std.specs.Prelude.{◌≡◌, ◌<◌, IfOk};
ghost use Rattle.sel_items.specs.Laws.{IsAcceptedForm};
ghost use Rattle.sel_count.specs.Things.{AreValid};
ghost use Rattle.sel_crew.specs.Answers.{AreAnswersOf};
ghost use Rattle.sel_full.specs.Tables.{IsLawfulTable};

use sel_base::{List, NoMemory, Steps};
use sel_expand::Expander;
use sel_forest::Tree;
use sel_full::laws::trees_are_ready;
use sel_full::{FullAutomaton, Table};
use sel_grammar::Grammar;
use sel_normal::Normal;
use sel_work::{Answer, Goal, answer_tree};
use std::alloc::Global;
use std::marker::Brand;
use std::sync::ledger::{Blank, Ledger};

/// The answers of the trees, in their order, by a lawful table of the grammar. No item set is evaluated:
/// no step is taken, also where there is no memory.
pub fn answer_counted<L: Ledger>(
    alloc: Global,
    grammar: &Grammar,
    normal: &Normal,
    table: &Table,
    trees: &[Tree],
    goal: Goal,
    steps: &mut Steps<L>,
) -> Result<List<Answer>, NoMemory>
    requires form { IsAcceptedForm grammar.now normal.now }
    requires lawful { IsLawfulTable normal.now table.now.states table.now.numbers }
    requires trees { AreValid grammar.now trees.now }
    ensures answers { IfOk result (AreAnswersOf grammar.now goal trees.now) }
    ensures no_step { steps.new ≡ steps.old }
{
    trees_are_ready();
    let mut automaton = FullAutomaton::new(normal, table);
    let mut expander = Expander::new(alloc);
    let mut answers = List::new(alloc);
    for tree in trees {
        let answered = answer_tree(
            &mut automaton,
            &mut expander,
            alloc,
            grammar,
            normal,
            tree,
            goal,
            steps,
        )?;
        answers.push(answered.answer)?;
    }
    Ok(answers)
}

fn answer_over<L: Ledger>(
    alloc: Global,
    grammar: &Grammar,
    normal: &Normal,
    table: &Table,
    trees: &[Tree],
    goal: Goal,
    blank: Blank,
) -> Result<List<Answer>, NoMemory>
    requires form { IsAcceptedForm grammar.now normal.now }
    requires lawful { IsLawfulTable normal.now table.now.states table.now.numbers }
    requires trees { AreValid grammar.now trees.now }
    requires name { blank.name ≡ L.name }
    requires parts { blank.parts ≡ L.parts }
    requires one { 0 < blank.parts }
    ensures { IfOk result (AreAnswersOf grammar.now goal trees.now) }
{
    let mut steps = Steps::<L>::new(blank);
    answer_counted(alloc, grammar, normal, table, trees, goal, &mut steps)
}

/// The answers of the trees, in their order, by a lawful table of the grammar: those that a crew of workers
/// gives.
pub fn answer_by_table(
    alloc: Global,
    grammar: &Grammar,
    normal: &Normal,
    table: &Table,
    trees: &[Tree],
    goal: Goal,
) -> Result<List<Answer>, NoMemory>
    requires form { IsAcceptedForm grammar.now normal.now }
    requires lawful { IsLawfulTable normal.now table.now.states table.now.numbers }
    requires trees { AreValid grammar.now trees.now }
    ensures { IfOk result (AreAnswersOf grammar.now goal trees.now) }
{
    answer_over::<Brand>(alloc, grammar, normal, table, trees, goal, Blank::new(1))
}
