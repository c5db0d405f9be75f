ghost use Rattle.std.specs.Prelude.{◌≡◌, ◌∷◌, [], ℕ, length, IfOk};
ghost use Rattle.sel_grammar.specs.declared.grammar.Rule.{Rule};
ghost use Rattle.sel_plain.specs.BestRows.{AreBestRows};
ghost use Rattle.sel_plain.specs.Writing.{IsHalfWritten, HasRule, WritesRule};
ghost use Rattle.sel_plain.specs.Rows.{entry_at, row_at};

use crate::entry::Entry;
use crate::rows::Table;
use sel_base::NoMemory;
use sel_forest::{Goal, Node, push_goals, rule_of};
use sel_grammar::Grammar;
use std::alloc::Global;

pub fn entry_for(table: &Table, goal: Goal) -> Option<Entry>
    ensures { result ≡ entry_at (row_at table.now.rows goal.at) goal.nonterminal }
{
    table.entry(goal.at, goal.nonterminal as usize)
}

/// Writes the goal's rule, and puts the goals of the rule's kids on the stack.
fn step(
    grammar: &Grammar,
    nodes: &[Node],
    table: &Table,
    goal: Goal,
    rules: &mut Vec<u16>,
    stack: &mut Vec<Goal>,
) -> Result<(), NoMemory>
    requires { (number : ℕ) × ((rule : Rule) × HasRule grammar.now table.now.rows goal number rule) }
    ensures { IfOk result
        (λ _. WritesRule grammar.now nodes.now table.now.rows goal rules.old.items rules.new.items stack.old.items stack.new.items) }
{
    match entry_for(table, goal) {
        Some(entry) => match rule_of(grammar, entry.rule) {
            Some(rule) => {
                rules.push(entry.rule)?;
                push_goals(&rule.pattern, nodes, goal.at, stack)?;
                Ok(())
            }
            None => unreachable!(),
        },
        None => unreachable!(),
    }
}

/// The list of the best derivation for the goal.
pub fn written(
    alloc: Global,
    grammar: &Grammar,
    nodes: &[Node],
    table: &Table,
    goal: Goal,
) -> Result<Vec<u16>, NoMemory>
    requires rows { AreBestRows grammar.now nodes.now table.now.rows (length nodes.now) }
    requires best { IsHalfWritten grammar.now nodes.now goal [] (goal ∷ []) }
    ensures { IfOk result (λ rules. IsHalfWritten grammar.now nodes.now goal rules.items []) }
{
    let mut rules = Vec::new(alloc);
    let mut stack = Vec::new(alloc);
    stack.push(goal)?;
    while let Some(next) = stack.pop() {
        step(grammar, nodes, table, next, &mut rules, &mut stack)?;
    }
    Ok(rules)
}
