// A tree is answered by what the handle holds.
ghost use Rattle.std.specs.Prelude.{◌≡◌, ◌<◌, ◌≤◌, IfOk, IfSome};
ghost use Rattle.sel_auto.specs.Tables.{limits_of};
ghost use Rattle.sel_forest.specs.Valid.{IsValidTree};
ghost use Rattle.sel_work.specs.declared.answer.Goal.TheVariants as goals;
ghost use Rattle.sel_c.specs.Usable.{IsUsable, IsKeptOver, settled};
ghost use Rattle.sel_c.specs.Answers.{IsAnswerOf, IsOfGoal, Writes, TellsText, TellsRules, TellsOfTree};

use crate::accepted::Accepted;
use crate::told::{DONE, NO_COVER, NO_MEMORY, SHORT, TOO_LONG, Told};
use sel_auto::{ParkedAutomaton, PrivateAutomaton};
use sel_base::{NoMemory, Pair, Steps};
use sel_forest::Tree;
use sel_normal::Normal;
use sel_work::{Answer, Goal, answer_tree};
use std::alloc::Global;
use std::marker::Brand;
use std::sync::ledger::{Blank, Ledger};

/// The automaton that was parked, or a new one.
fn taken_up<'n>(
    alloc: Global,
    normal: &'n Normal,
    parked: Option<ParkedAutomaton>,
    states: u32,
    rows: u32,
) -> Result<PrivateAutomaton<'n>, NoMemory>
    requires states { states ≤ 32768 }
    requires rows { rows ≤ 1048576 }
    requires kept { IfSome parked (IsKeptOver normal.now states rows) }
    ensures normal { IfOk result (λ automaton. automaton.normal ≡ normal.now) }
    ensures limits { IfOk result (λ automaton. limits_of automaton ≡ (states, rows)) }
{
    match parked {
        Some(parked) => Ok(PrivateAutomaton::resume(normal, parked)),
        None => PrivateAutomaton::new(alloc, normal, states, rows),
    }
}

/// The automaton without its normal form.
fn laid_down(automaton: PrivateAutomaton<'_>) -> ParkedAutomaton
    ensures { IsKeptOver automaton.entry.normal (limits_of automaton.entry).0 (limits_of automaton.entry).1 result }
{
    automaton.park()
}

fn answer_by<L: Ledger>(
    alloc: Global,
    table: &mut Accepted,
    tree: &Tree,
    goal: Goal,
    blank: Blank,
) -> Result<Answer, NoMemory>
    requires usable { IsUsable table.old }
    requires tree { IsValidTree table.old.grammar tree.now }
    requires name { blank.name ≡ L.name }
    requires parts { blank.parts ≡ L.parts }
    requires one { 0 < blank.parts }
    ensures answer { IfOk result (IsAnswerOf table.old.grammar goal tree.now) }
    ensures settled { settled table.new ≡ settled table.old }
    ensures usable { IsUsable table.new }
{
    let parked = table.parked.take();
    let mut automaton = taken_up(alloc, &table.normal, parked, table.states, table.rows)?;
    let mut steps = Steps::<L>::new(blank);
    let answered = answer_tree(
        &mut automaton,
        &mut table.expander,
        alloc,
        &table.grammar,
        &table.normal,
        tree,
        goal,
        &mut steps,
    );
    table.parked = Some(laid_down(automaton));
    match answered {
        Ok(answered) => Ok(answered.answer),
        Err(NoMemory) => Err(NoMemory),
    }
}

/// The answer of the tree. What the automaton has learned stays.
fn answer(alloc: Global, table: &mut Accepted, tree: &Tree, goal: Goal) -> Result<Answer, NoMemory>
    requires usable { IsUsable table.old }
    requires tree { IsValidTree table.old.grammar tree.now }
    ensures answer { IfOk result (IsAnswerOf table.old.grammar goal tree.now) }
    ensures goal { IfOk result (IsOfGoal goal) }
    ensures settled { settled table.new ≡ settled table.old }
    ensures usable { IsUsable table.new }
{
    answer_by::<Brand>(alloc, table, tree, goal, Blank::new(1))
}

/// Writes the items at the front of `out`, where they fit.
fn write<T: Copy>(cost: Pair, items: &[T], out: &mut [T]) -> Told
    ensures { Writes cost items.now out.old out.new result }
{
    let needs = items.len();
    if out.len() < needs {
        return Told::of_cost(SHORT, cost, needs);
    }
    let (front, _) = out.split_at_mut(needs);
    front.copy_from_slice(items);
    Told::of_cost(DONE, cost, needs)
}

fn write_text(answer: &Answer, out: &mut [u8]) -> Told
    requires text { IsOfGoal goals.Text answer.now }
    ensures { TellsText out.old out.new result answer.now }
{
    match answer {
        Answer::Text { cost, text } => write(*cost, text.as_slice(), out),
        Answer::TooLong { cost } => Told::of_cost(TOO_LONG, *cost, 0),
        _ => Told::of_code(NO_COVER),
    }
}

fn write_rules(answer: &Answer, out: &mut [u16]) -> Told
    requires cover { IsOfGoal goals.Cover answer.now }
    ensures { TellsRules out.old out.new result answer.now }
{
    match answer {
        Answer::Cover(cover) => write(cover.cost, cover.rules.as_slice(), out),
        _ => Told::of_code(NO_COVER),
    }
}

/// Writes the text of the tree's cheapest cover.
pub fn tell_text(alloc: Global, table: &mut Accepted, tree: &Tree, out: &mut [u8]) -> Told
    requires usable { IsUsable table.old }
    requires tree { IsValidTree table.old.grammar tree.now }
    ensures told { TellsOfTree table.old.grammar goals.Text tree.now out.old out.new result (TellsText out.old out.new result) }
    ensures settled { settled table.new ≡ settled table.old }
    ensures usable { IsUsable table.new }
{
    match answer(alloc, table, tree, Goal::Text) {
        Ok(answer) => write_text(&answer, out),
        Err(NoMemory) => Told::of_code(NO_MEMORY),
    }
}

/// Writes the rules of the tree's cheapest cover.
pub fn tell_rules(alloc: Global, table: &mut Accepted, tree: &Tree, out: &mut [u16]) -> Told
    requires usable { IsUsable table.old }
    requires tree { IsValidTree table.old.grammar tree.now }
    ensures told { TellsOfTree table.old.grammar goals.Cover tree.now out.old out.new result (TellsRules out.old out.new result) }
    ensures settled { settled table.new ≡ settled table.old }
    ensures usable { IsUsable table.new }
{
    match answer(alloc, table, tree, Goal::Cover) {
        Ok(answer) => write_rules(&answer, out),
        Err(NoMemory) => Told::of_code(NO_MEMORY),
    }
}
