// A walk over a tree from its root down, by a stack of goals.
ghost use Rattle.std.specs.Prelude.{◌≡◌, ◌≤◌, ◌<◌, ◌++◌, ◌∷◌, [], Some, ℕ, length, reverse, IfOk};
ghost use Rattle.sel_grammar.specs.Costs.{◌⊕◌, no_cost, paid};
ghost use Rattle.sel_grammar.specs.SmallCosts.{IsSmall};
ghost use Rattle.sel_normal.specs.declared.normal.NormalRule.{NormalRule};
ghost use Rattle.sel_normal.specs.NormalForms.{normal_at};
ghost use Rattle.sel_items.specs.declared.items.Items.{Items};
ghost use Rattle.sel_items.specs.Automata.{IsRead};
ghost use Rattle.sel_items.specs.Entries.{item_at};
ghost use Rattle.sel_reduce.specs.CostLimits.{most_cost};
ghost use Rattle.sel_reduce.specs.Goals.{IsItemsAt, kid_goal, kid_goals, some_number, TakesRule};

use sel_base::{NoMemory, Pair};
use sel_forest::{Goal, Node, node_at};
use sel_grammar::RuleCost;
use sel_items::{Automaton, Item};
use sel_label::Labels;
use sel_normal::{Body, Normal};
use std::alloc::Global;

/// How many rules more than nodes, and how many goals, there is room for at first.
const FEW: usize = 8;

/// What is reduced of a tree: the rules so far, their cost, and the goals that are left, the next one last.
#[derive(Debug, Drop)]
pub struct Walk {
    pub rules: Vec<u16>,
    pub cost: Pair,
    pub goals: Vec<Goal>,
}

/// The entry that the item set of the goal's node has for its nonterminal.
pub fn entry_for<A: Automaton>(automaton: &mut A, labels: &Labels, goal: Goal) -> Option<Item>
    requires items { (i : Items) × IsItemsAt (A.told automaton.old).means labels.now.of goal.at i }
    requires nonterminal { goal.nonterminal < (A.told automaton.old).normal.nonterminals }
    ensures fixed { A.fixed automaton.new ≡ A.fixed automaton.old }
    ensures entry { (i : Items) → IsItemsAt (A.told automaton.old).means labels.now.of goal.at i → result ≡ item_at i.entries goal.nonterminal }
    ensures read { IsRead (A.told automaton.old) (A.told automaton.new) }
{
    match labels.of.get(goal.at) {
        Some(label) => automaton.item(*label, goal.nonterminal),
        None => unreachable!(),
    }
}

/// The sum of a cost and a rule's.
fn plus(total: Pair, cost: RuleCost) -> Pair
    requires { IsSmall most_cost (total ⊕ paid cost) }
    ensures { result ≡ total ⊕ paid cost }
{
    Pair {
        first: total.first + cost.first as u64,
        second: total.second + cost.second as i64,
    }
}

/// Puts the number behind the others, where there is one.
fn push_number(number: Option<u16>, numbers: &mut Vec<u16>) -> Result<(), NoMemory>
    ensures { IfOk result (λ _. numbers.new.items ≡ numbers.old.items ++ some_number number) }
{
    if let Some(number) = number {
        numbers.push(number)?;
    }
    Ok(())
}

/// Puts the goal of a kid on the stack, where there is such a kid.
fn push_kid(at: u32, nonterminal: Option<u16>, goals: &mut Vec<Goal>) -> Result<(), NoMemory>
    ensures { IfOk result (λ _. goals.new.items ≡ goals.old.items ++ kid_goal at nonterminal) }
{
    if let Some(nonterminal) = nonterminal {
        goals.push(Goal {
            at: at as usize,
            nonterminal,
        })?;
    }
    Ok(())
}

/// Puts the goals that a normal rule's right side leads to at the node on the stack, the last first.
fn push_kids(body: Body, nodes: &[Node], at: usize, goals: &mut Vec<Goal>) -> Result<(), NoMemory>
    ensures { IfOk result (λ _. goals.new.items ≡ goals.old.items ++ reverse (kid_goals body nodes.now at)) }
{
    match body {
        Body::Chain(nonterminal) => {
            goals.push(Goal { at, nonterminal })?;
            Ok(())
        }
        Body::Operator { first, second, .. } => match node_at(nodes, at) {
            Some(node) => {
                push_kid(node.right, second, goals)?;
                push_kid(node.left, first, goals)?;
                Ok(())
            }
            None => Ok(()),
        },
    }
}

impl Walk {
    /// A walk that begins with the goal, over so many nodes. It takes room for a rule at each, and for
    /// the few goals that are mostly left at once.
    pub fn new(alloc: Global, goal: Goal, nodes: usize) -> Result<Walk, NoMemory>
        ensures rules { IfOk result (λ walk. walk.rules.items ≡ []) }
        ensures cost { IfOk result (λ walk. walk.cost ≡ no_cost) }
        ensures goals { IfOk result (λ walk. walk.goals.items ≡ goal ∷ []) }
    {
        let rules = Vec::with_capacity(alloc, nodes.saturating_add(FEW))?;
        let mut goals = Vec::with_capacity(alloc, FEW)?;
        goals.push(goal)?;
        Ok(Walk {
            rules,
            cost: Pair {
                first: 0,
                second: 0,
            },
            goals,
        })
    }

    /// Takes the normal rule for the goal: writes it if it is the user's, and puts the goals that it leads
    /// to on the stack. A helper's rule costs nothing.
    pub fn take(
        &mut self,
        normal: &Normal,
        nodes: &[Node],
        goal: Goal,
        number: u16,
    ) -> Result<(), NoMemory>
        requires from { 1 ≤ number }
        requires to { number ≤ length normal.now.rules }
        requires small { (rule : NormalRule) → normal_at normal.now number ≡ Some rule → IsSmall most_cost (self.old.cost ⊕ paid rule.cost) }
        ensures { IfOk result (λ _. TakesRule normal.now nodes.now goal number self.old.rules.items self.new.rules.items self.old.cost self.new.cost self.old.goals.items self.new.goals.items) }
    {
        let rule = normal.rule(number);
        push_number(normal.user_rule(number), &mut self.rules)?;
        push_kids(rule.body, nodes, goal.at, &mut self.goals)?;
        self.cost = plus(self.cost, rule.cost);
        Ok(())
    }
}
