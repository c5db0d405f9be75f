//! The rules of a cover, placed on the nodes of its tree.
ghost use Rattle.std.specs.Prelude.{◌≡◌, ◌++◌, ◌∷◌, ◌+◌, ◌-◌, ◌≤◌, [], map, reverse, length, drop, slice_get, IfOk};
ghost use Rattle.sel_grammar.specs.Fits.{rule_at};
ghost use Rattle.sel_forest.specs.Places.{goals as goals_under, of_node};
ghost use Rattle.sel_expand.specs.Steps.{goals_at, step_at, leaf_of, IsUnder, HasCover};
ghost use Rattle.sel_expand.specs.Values.{IsAdded, AreListed};

use crate::reductions::{Reduction, Reductions};
use crate::templates::{kind_of, next_by, parts_of};
use sel_base::NoMemory;
use sel_forest::{Goal, Node, node_at, push_goals, rule_of};
use sel_grammar::{Grammar, Pattern};

/// A rule at a node, whose kids were emitted before.
#[derive(Clone, Copy, Debug, Drop)]
pub struct Step {
    pub rule: u16,
    pub at: usize,
    pub kids: usize,
}

/// What is to be done: a goal's derivation, or its rule when its kids are done.
#[derive(Clone, Copy, Debug, Drop)]
pub enum Task {
    Derive(Goal),
    Emit(Step),
}

fn push_kids(goals: &[Goal], tasks: &mut Vec<Task>) -> Result<(), NoMemory>
    ensures { IfOk result (λ _. tasks.new.items ≡ tasks.old.items ++ map Task.Derive goals.now) }
{
    'goals: for goal in goals {
        tasks.push(Task::Derive(*goal))?;
    }
    Ok(())
}

/// The goals under a pattern, where none of its operators stands below another.
#[derive(Clone, Copy, Debug, Drop)]
pub enum Under {
    Nothing,
    One(Goal),
    Two(Goal, Goal),
    Deeper,
}

fn leaf_of(pattern: &Pattern) -> Option<u16>
    ensures { result ≡ leaf_of pattern.now }
{
    match pattern {
        Pattern::Leaf(nonterminal) => Some(*nonterminal),
        _ => None,
    }
}

/// The goal under an operator's only kid.
fn under_one(below: &Pattern, nodes: &[Node], at: usize) -> Under
    ensures { IsUnder result (of_node (slice_get nodes.now at) (λ node. goals_under below.now nodes.now node.left)) }
{
    let Some(nonterminal) = leaf_of(below) else {
        return Under::Deeper;
    };
    match node_at(nodes, at) {
        Some(node) => Under::One(Goal {
            at: node.left as usize,
            nonterminal,
        }),
        None => Under::Nothing,
    }
}

/// The goals under an operator's two kids.
fn under_both(left: &Pattern, right: &Pattern, nodes: &[Node], at: usize) -> Under
    ensures { IsUnder result (of_node (slice_get nodes.now at) (λ node. goals_under left.now nodes.now node.left ++ goals_under right.now nodes.now node.right)) }
{
    let Some(first) = leaf_of(left) else {
        return Under::Deeper;
    };
    let Some(second) = leaf_of(right) else {
        return Under::Deeper;
    };
    match node_at(nodes, at) {
        Some(node) => Under::Two(
            Goal {
                at: node.left as usize,
                nonterminal: first,
            },
            Goal {
                at: node.right as usize,
                nonterminal: second,
            },
        ),
        None => Under::Nothing,
    }
}

fn under_pattern(pattern: &Pattern, nodes: &[Node], at: usize) -> Under
    ensures { IsUnder result (goals_under pattern.now nodes.now at) }
{
    match pattern {
        Pattern::Leaf(nonterminal) => Under::One(Goal {
            at,
            nonterminal: *nonterminal,
        }),
        Pattern::Nullary(_) => Under::Nothing,
        Pattern::Unary(_, below) => under_one(below.get(), nodes, at),
        Pattern::Binary(_, left, right) => under_both(left.get(), right.get(), nodes, at),
    }
}

/// Puts a rule with so many kids on the stack.
fn push_step(number: u16, at: usize, kids: usize, tasks: &mut Vec<Task>) -> Result<(), NoMemory>
    ensures { IfOk result (λ _. tasks.new.items ≡ tasks.old.items ++ Task.Emit (record { rule = number; at = at; kids = kids }) ∷ []) }
{
    tasks.push(Task::Emit(Step {
        rule: number,
        at,
        kids,
    }))?;
    Ok(())
}

/// Puts the rule on the stack, and above it the goals under its pattern, the first on top.
fn spread_pattern(
    pattern: &Pattern,
    nodes: &[Node],
    at: usize,
    number: u16,
    goals: &mut Vec<Goal>,
    tasks: &mut Vec<Task>,
) -> Result<(), NoMemory>
    ensures { IfOk result (λ _. tasks.new.items
        ≡ (tasks.old.items ++ Task.Emit (record { rule = number; at = at; kids = length (goals_under pattern.now nodes.now at) }) ∷ []) ++ map Task.Derive (reverse (goals_under pattern.now nodes.now at))) }
{
    match under_pattern(pattern, nodes, at) {
        Under::Nothing => push_step(number, at, 0, tasks),
        Under::One(goal) => {
            push_step(number, at, 1, tasks)?;
            tasks.push(Task::Derive(goal))?;
            Ok(())
        }
        Under::Two(first, second) => {
            push_step(number, at, 2, tasks)?;
            tasks.push(Task::Derive(second))?;
            tasks.push(Task::Derive(first))?;
            Ok(())
        }
        Under::Deeper => {
            goals.clear();
            push_goals(pattern, nodes, at, goals)?;
            push_step(number, at, goals.len(), tasks)?;
            push_kids(goals.as_slice(), tasks)
        }
    }
}

/// Puts the goal's rule on the stack, and above it the goals of the rule's kids, the first on top.
fn spread(
    grammar: &Grammar,
    nodes: &[Node],
    goal: Goal,
    number: u16,
    goals: &mut Vec<Goal>,
    tasks: &mut Vec<Task>,
) -> Result<(), NoMemory>
    ensures { IfOk result (λ _. tasks.new.items
        ≡ (tasks.old.items ++ Task.Emit (step_at grammar.now nodes.now number goal.at) ∷ []) ++ map Task.Derive (reverse (goals_at (rule_at grammar.now number) nodes.now goal.at))) }
{
    match rule_of(grammar, number) {
        Some(rule) => spread_pattern(&rule.pattern, nodes, goal.at, number, goals, tasks),
        None => push_step(number, goal.at, 0, tasks),
    }
}

/// Adds the step's reduction, and gives the number of the next temporary. Its kids are the last ones of
/// `left`, and give way to it.
fn add(
    grammar: &Grammar,
    step: Step,
    next: u64,
    reductions: &mut Reductions,
    left: &mut Vec<usize>,
) -> Result<u64, NoMemory>
    requires { next ≤ length reductions.old + 1 }
    ensures { IfOk result (λ after. IsAdded grammar.now step next after reductions.old reductions.new left.old.items left.new.items) }
{
    let kind = kind_of(parts_of(grammar, step.rule));
    let from = left.len().saturating_sub(step.kids);
    let place = reductions.len();
    let own = Reduction {
        rule: step.rule,
        kind,
        at: step.at,
        next,
    };
    reductions.push(own, &left[from..])?;
    left.truncate(from);
    left.push(place)?;
    Ok(next_by(kind, next))
}

/// Lists the reductions of the rules' derivation, each behind its kids'. `left` has those whose values
/// no other has taken. `goals` and `tasks` are room to work in.
pub fn list_all(
    grammar: &Grammar,
    nodes: &[Node],
    root: Goal,
    rules: &[u16],
    goals: &mut Vec<Goal>,
    tasks: &mut Vec<Task>,
    reductions: &mut Reductions,
    left: &mut Vec<usize>,
) -> Result<(), NoMemory>
    requires { HasCover grammar.now nodes.now root rules.now }
    ensures { IfOk result (λ _. AreListed grammar.now nodes.now root rules.now reductions.new left.new.items) }
{
    reductions.clear();
    left.clear();
    tasks.clear();
    tasks.push(Task::Derive(root))?;
    let mut next = 1u64;
    let mut rest = rules;
    'tasks: while let Some(task) = tasks.pop() {
        match task {
            Task::Emit(step) => next = add(grammar, step, next, reductions, left)?,
            Task::Derive(goal) => match rest.split_first() {
                Some((number, others)) => {
                    spread(grammar, nodes, goal, *number, goals, tasks)?;
                    rest = others;
                }
                None => unreachable!(),
            },
        }
    }
    Ok(())
}
