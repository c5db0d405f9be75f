//! Whether a list of rule numbers is the list of a derivation.

ghost use Rattle.std.specs.Prelude.{◌≡◌, ◌<◌, ◌^◌, ◌<ℤ◌, pos, length, IfOk};
ghost use Rattle.sel_grammar.specs.PlainTrees.{PlainTree};
ghost use Rattle.sel_grammar.specs.Costs.{◌⊕◌, paid};
ghost use Rattle.sel_forest.specs.Postorder.{IsPostorderOf, IsTree};
ghost use Rattle.sel_forest.specs.Covers.{IsChecked};
ghost use Rattle.sel_forest.specs.Goals.{IsApplied};

use crate::forest::{Node, Tree};
use crate::walk::{Goal, fits_at, push_goals, rule_of};
use sel_base::{NoMemory, Pair};
use sel_grammar::{Grammar, RuleCost};
use std::alloc::Global;

fn plus(total: Pair, cost: RuleCost) -> Pair
    requires first { total.first < 2 ^ 63 }
    requires second { total.second <ℤ pos (2 ^ 62) }
    ensures { result ≡ total ⊕ paid cost }
{
    Pair {
        first: total.first + cost.first as u64,
        second: total.second + cost.second as i64,
    }
}

/// Puts the goals of the rule's kids on the stack, and gives the rule's cost, where the rule fits the goal.
fn apply(
    grammar: &Grammar,
    nodes: &[Node],
    goal: Goal,
    number: u16,
    stack: &mut Vec<Goal>,
) -> Result<Option<RuleCost>, NoMemory>
    ensures { IfOk result (λ cost. IsApplied grammar.now nodes.now goal number stack.old.items stack.new.items cost) }
{
    let Some(rule) = rule_of(grammar, number) else {
        return Ok(None);
    };
    if rule.left == goal.nonterminal && fits_at(rule, nodes, goal.at) {
        push_goals(&rule.pattern, nodes, goal.at, stack)?;
        Ok(Some(rule.cost))
    } else {
        Ok(None)
    }
}

/// The cost of the derivation of the tree from the start symbol whose rule numbers in preorder are
/// `rules`, or None where no derivation has this list. A list may go round chain rules any number of
/// times. It takes time for each number of the list and each name of its rule's pattern, and memory
/// for the goals that are left.
pub fn check_cover(
    alloc: Global,
    grammar: &Grammar,
    tree: &Tree,
    rules: &[u16],
) -> Result<Option<Pair>, NoMemory>
    requires tree { IsTree tree.now }
    requires short { length rules.now < 2 ^ 32 }
    ensures { IfOk result (λ answer. (t : PlainTree) → IsPostorderOf tree.now t → IsChecked grammar.now t rules.now answer) }
{
    let nodes = tree.nodes.as_slice();
    let mut stack = Vec::new(alloc);
    stack.push(Goal {
        at: nodes.len() - 1,
        nonterminal: grammar.start,
    })?;
    let mut total = Pair {
        first: 0,
        second: 0,
    };
    'numbers: for number in rules {
        let Some(goal) = stack.pop() else {
            return Ok(None);
        };
        match apply(grammar, nodes, goal, *number, &mut stack)? {
            Some(cost) => total = plus(total, cost),
            None => return Ok(None),
        }
    }
    if stack.is_empty() {
        Ok(Some(total))
    } else {
        Ok(None)
    }
}
