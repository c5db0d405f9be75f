ghost use Rattle.std.specs.Prelude.{◌≡◌};
ghost use Rattle.sel_plain.specs.Rows.{entry_at, row_at, entry_cost};
ghost use Rattle.sel_plain.specs.Offers.{kids_cost, both_costs, offered, offered_by};

use crate::cost::{capped_sum, no_cost};
use crate::entry::Entry;
use crate::rows::{Table, entry_of};
use sel_base::Pair;
use sel_forest::{Node, in_range, met};
use sel_grammar::{Pattern, Rule};

pub fn cost_at(table: &Table, at: usize, nonterminal: usize) -> Option<Pair>
    ensures { result ≡ entry_cost (entry_at (row_at table.now.rows at) nonterminal) }
{
    match table.entry(at, nonterminal) {
        Some(entry) => Some(entry.cost),
        None => None,
    }
}

fn both_costs(first: Option<Pair>, second: Option<Pair>) -> Option<Pair>
    ensures { result ≡ both_costs first second }
{
    match (first, second) {
        (Some(first), Some(second)) => Some(capped_sum(first, second)),
        _ => None,
    }
}

/// What the best derivations for the pattern's nonterminals cost, where it lies over the node.
#[tactic(auto, using(crate::proofs::Patterns::kids_cost_cases))]
pub fn kids_cost(pattern: &Pattern, nodes: &[Node], table: &Table, at: usize) -> Option<Pair>
    ensures { result ≡ kids_cost pattern.now nodes.now table.now.rows at }
{
    match pattern {
        Pattern::Leaf(nonterminal) => cost_at(table, at, *nonterminal as usize),
        Pattern::Nullary(operator) => match met(nodes, at, *operator, 0) {
            Some(_) => Some(no_cost()),
            None => None,
        },
        Pattern::Unary(operator, below) => match met(nodes, at, *operator, 1) {
            Some(node) => kids_cost(below.get(), nodes, table, node.left as usize),
            None => None,
        },
        Pattern::Binary(operator, left, right) => match met(nodes, at, *operator, 2) {
            Some(node) => {
                let first = kids_cost(left.get(), nodes, table, node.left as usize);
                let second = kids_cost(right.get(), nodes, table, node.right as usize);
                both_costs(first, second)
            }
            None => None,
        },
    }
}

/// What the kids of the rule cost at the node, where it fits. A chain rule asks the node's own row.
#[tactic(auto, using(crate::proofs::Patterns::offer_cases))]
pub fn offered(
    rule: &Rule,
    nodes: &[Node],
    table: &Table,
    row: &[Option<Entry>],
    at: usize,
) -> Option<Pair>
    ensures { result ≡ offered rule.now nodes.now table.now.rows row.now at }
{
    match nodes.get(at) {
        Some(node) => {
            if in_range(&rule.range, &node.attribute) {
                offered_by(&rule.pattern, nodes, table, row, at)
            } else {
                None
            }
        }
        None => None,
    }
}

#[tactic(auto, using(crate::proofs::Patterns::offer_cases))]
fn offered_by(
    pattern: &Pattern,
    nodes: &[Node],
    table: &Table,
    row: &[Option<Entry>],
    at: usize,
) -> Option<Pair>
    ensures { result ≡ offered_by pattern.now nodes.now table.now.rows row.now at }
{
    match pattern {
        Pattern::Leaf(nonterminal) => match entry_of(row, *nonterminal as usize) {
            Some(entry) => Some(entry.cost),
            None => None,
        },
        _ => kids_cost(pattern, nodes, table, at),
    }
}
