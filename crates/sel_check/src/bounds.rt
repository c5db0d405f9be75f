//! Whether claims bound the rules.

ghost use Rattle.std.specs.Prelude.{◌≡◌, ◌↔◌, ◌≤◌, ◌<◌, ◌*◌, ◌^◌, ◌<ℤ◌, pos, neg_ℤ, IsTrue, IfSome, MatchOption, ℕ, length, slice_get};
ghost use Rattle.sel_grammar.specs.Costs.{no_cost, ◌⊕◌, paid};
ghost use Rattle.sel_grammar.specs.Lawful.{IsLawful, names_of};
ghost use Rattle.sel_grammar.specs.Limits.{most_names, greatest_cost};
ghost use Rattle.sel_grammar.specs.SmallCosts.{IsSmall};
ghost use Rattle.sel_forest.specs.Places.{goals};
ghost use Rattle.sel_plain.specs.NodeCosts.{cost_at};
ghost use Rattle.sel_check.specs.Bounding.{KeepsRule, KeepsRules, IsFirstBroken};
ghost use Rattle.sel_check.specs.Certificates.{claim, both, claimed, IsAtMost};
ghost use Rattle.sel_check.specs.CertificateTexts.{greatest_claim, HasSmallClaims};

use sel_base::{List, Pair};
use sel_forest::{Goal, Node, fits_at, node_at};
use sel_grammar::{Grammar, Pattern, Rule, RuleCost};

/// What is claimed of the goal.
pub fn claim(costs: &[List<Option<Pair>>], goal: Goal) -> Option<Pair>
    ensures { result ≡ claim costs.now goal }
{
    match costs.get(goal.at) {
        Some(row) => match row.get(goal.nonterminal as usize) {
            Some(entry) => *entry,
            None => None,
        },
        None => None,
    }
}

fn no_cost() -> Pair
    ensures { result ≡ no_cost }
{
    Pair {
        first: 0,
        second: 0,
    }
}

fn plus(first: Pair, second: Pair) -> Pair
    requires first { IsSmall (2 ^ 61) first }
    requires second { IsSmall (2 ^ 61) second }
    ensures { result ≡ first ⊕ second }
{
    Pair {
        first: first.first + second.first,
        second: first.second + second.second,
    }
}

fn paid(cost: RuleCost) -> Pair
    ensures pair { result ≡ paid cost }
    ensures small { IsSmall (2 ^ 61) result }
{
    Pair {
        first: cost.first as u64,
        second: cost.second as i64,
    }
}

fn both(first: Option<Pair>, second: Option<Pair>) -> Option<Pair>
    requires first { IfSome first (IsSmall (2 ^ 61)) }
    requires second { IfSome second (IsSmall (2 ^ 61)) }
    ensures { result ≡ both first second }
{
    match (first, second) {
        (Some(first), Some(second)) => Some(plus(first, second)),
        _ => None,
    }
}

/// What is claimed together of the goals under the pattern at the node.
fn claimed(
    pattern: &Pattern,
    nodes: &[Node],
    costs: &[List<Option<Pair>>],
    at: usize,
) -> Option<Pair>
    requires small { HasSmallClaims costs.now }
    requires names { names_of pattern.now ≤ most_names }
    ensures sum { result ≡ claimed costs.now (goals pattern.now nodes.now at) }
    ensures few { IfSome result (IsSmall (greatest_claim * names_of pattern.now)) }
{
    match pattern {
        Pattern::Leaf(nonterminal) => claim(
            costs,
            Goal {
                at,
                nonterminal: *nonterminal,
            },
        ),
        Pattern::Nullary(_) => Some(no_cost()),
        Pattern::Unary(_, below) => match node_at(nodes, at) {
            Some(node) => claimed(below.get(), nodes, costs, node.left as usize),
            None => Some(no_cost()),
        },
        Pattern::Binary(_, left, right) => match node_at(nodes, at) {
            Some(node) => {
                let first = claimed(left.get(), nodes, costs, node.left as usize);
                let second = claimed(right.get(), nodes, costs, node.right as usize);
                both(first, second)
            }
            None => Some(no_cost()),
        },
    }
}

/// Whether something is claimed, and it is at most the cost.
fn is_at_most(claim: Option<Pair>, cost: Pair) -> bool
    ensures { IsTrue result ↔ IsAtMost claim cost }
{
    match claim {
        Some(claim) => {
            claim.first < cost.first || (claim.first == cost.first && claim.second <= cost.second)
        }
        None => false,
    }
}

/// Whether what is claimed at the node bounds the rule.
fn keeps_rule(rule: &Rule, nodes: &[Node], costs: &[List<Option<Pair>>], at: usize) -> bool
    requires small { HasSmallClaims costs.now }
    requires names { names_of rule.now.pattern ≤ most_names }
    ensures { IsTrue result ↔ KeepsRule nodes.now costs.now at rule.now }
{
    if !fits_at(rule, nodes, at) {
        return true;
    }
    match claimed(&rule.pattern, nodes, costs, at) {
        Some(kids) => {
            let goal = Goal {
                at,
                nonterminal: rule.left,
            };
            is_at_most(claim(costs, goal), plus(paid(rule.cost), kids))
        }
        None => true,
    }
}

/// Whether what is claimed at the node bounds each rule.
fn keeps_rules(grammar: &Grammar, nodes: &[Node], costs: &[List<Option<Pair>>], at: usize) -> bool
    requires small { HasSmallClaims costs.now }
    requires lawful { IsLawful grammar.now }
    ensures { IsTrue result ↔ KeepsRules grammar.now nodes.now costs.now at }
{
    for rule in grammar.rules.as_slice() {
        if !keeps_rule(rule, nodes, costs, at) {
            return false;
        }
    }
    true
}

/// The first node at which a rule breaks its bound.
pub fn first_broken(
    grammar: &Grammar,
    nodes: &[Node],
    costs: &[List<Option<Pair>>],
) -> Option<usize>
    requires small { HasSmallClaims costs.now }
    requires lawful { IsLawful grammar.now }
    ensures { MatchOption result ((i : ℕ) → i < length nodes.now → KeepsRules grammar.now nodes.now costs.now i) (IsFirstBroken grammar.now nodes.now costs.now) }
{
    for at in 0..nodes.len() {
        if !keeps_rules(grammar, nodes, costs, at) {
            return Some(at);
        }
    }
    None
}
