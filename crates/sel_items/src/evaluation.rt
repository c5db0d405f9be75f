// The item set that follows from the kids' item sets.
ghost use Rattle.std.specs.Prelude.{◌≡◌, ◌<◌, ◌≤◌, ◌+◌, Some, None, IfOk, OnErr, length, replicate};
ghost use Rattle.std.specs.Option.{option_copied};
ghost use Rattle.sel_grammar.specs.Costs.{◌⊕◌};
ghost use Rattle.sel_range.specs.Classes.{Occurs};
ghost use Rattle.sel_normal.specs.Standing.{IsWithin, IsRuleWithin};
ghost use Rattle.sel_items.specs.declared.items.Item.{Item};
ghost use Rattle.sel_items.specs.CostBounds.{AreBelow, IsBelow};
ghost use Rattle.sel_items.specs.Entries.{item_at};
ghost use Rattle.sel_items.specs.Evaluating.{IsBelowIn, IsSmallKid, IsStart, IsStartTo};
ghost use Rattle.sel_items.specs.Follows.{key_of, item_cost, sum_of_both, cost_of_kids, test_holds, Follows};
ghost use Rattle.sel_items.specs.KidSets.{kid_sets, IsKid, AreKidsInOrder};
ghost use Rattle.sel_items.specs.Labels.{IsClassOver};
ghost use Rattle.sel_items.specs.Offers.{operator_offer};

use crate::chains::{close_chains, cost_at};
use crate::items::{Item, Items};
use crate::offers::{improve, offer_of};
use crate::reduction::relative;
use sel_base::{List, NoMemory, Pair, Steps};
use sel_normal::{Body, Normal, NormalRule};
use std::alloc::Global;
use std::sync::ledger::Ledger;

/// Whether the test, where there is one, holds of the class.
fn is_test_met(normal: &Normal, class: u16, test: Option<u16>) -> bool
    requires class { Occurs normal.now.tests class }
    requires test { IsWithin (length normal.now.tests) test }
    ensures { result ≡ test_holds normal.now.tests class test }
{
    match test {
        None => true,
        Some(test) => normal.classes().holds(class, test),
    }
}

/// What the kid's entry costs.
fn kid_cost(items: &Items, nonterminal: u16) -> Option<Pair>
    requires small { AreBelow 46 items.now.entries }
    ensures cost { result ≡ item_cost (item_at items.now.entries nonterminal) }
    ensures low { IsBelowIn 46 result }
{
    cost_at(items.entries.as_slice(), nonterminal)
}

fn sum(a: Pair, b: Pair) -> Pair
    requires a { IsBelow 46 a }
    requires b { IsBelow 46 b }
    ensures sum { result ≡ a ⊕ b }
    ensures low { IsBelow 47 result }
{
    Pair {
        first: a.first + b.first,
        second: a.second + b.second,
    }
}

/// The sum of two costs, where there are both.
fn sum_of(a: Option<Pair>, b: Option<Pair>) -> Option<Pair>
    requires a { IsBelowIn 46 a }
    requires b { IsBelowIn 46 b }
    ensures sum { result ≡ sum_of_both a b }
    ensures low { IsBelowIn 47 result }
{
    match a {
        None => None,
        Some(a) => match b {
            None => None,
            Some(b) => Some(sum(a, b)),
        },
    }
}

/// What the kids of an operator rule cost by their item sets, where there are as many.
fn cost_of(
    a: Option<u16>,
    b: Option<u16>,
    first: Option<&Items>,
    second: Option<&Items>,
) -> Option<Pair>
    requires first { IsSmallKid (option_copied first) }
    requires second { IsSmallKid (option_copied second) }
    ensures cost { result ≡ cost_of_kids a b (kid_sets (option_copied first.entry) (option_copied second.entry)) }
    ensures low { IsBelowIn 47 result }
{
    match first {
        None => match a {
            None => Some(Pair {
                first: 0,
                second: 0,
            }),
            Some(_) => None,
        },
        Some(first) => match a {
            None => None,
            Some(a) => match b {
                None => match second {
                    None => kid_cost(first, a),
                    Some(_) => None,
                },
                Some(b) => match second {
                    None => None,
                    Some(second) => sum_of(kid_cost(first, a), kid_cost(second, b)),
                },
            },
        },
    }
}

/// What the rule offers for the key, where it is an operator rule for it.
fn rule_offer(
    normal: &Normal,
    number: u16,
    rule: NormalRule,
    operator: u8,
    class: u16,
    first: Option<&Items>,
    second: Option<&Items>,
) -> Option<Item>
    requires rule { IsRuleWithin normal.now rule }
    requires class { Occurs normal.now.tests class }
    requires first { IsSmallKid (option_copied first) }
    requires second { IsSmallKid (option_copied second) }
    ensures offer { result ≡ operator_offer normal.now (key_of operator class (kid_sets (option_copied first.entry) (option_copied second.entry))) rule number }
    ensures low { (item : Item) → result ≡ Some item → IsBelow 48 item.cost }
{
    match rule.body {
        Body::Chain(_) => None,
        Body::Operator {
            operator: own,
            first: a,
            second: b,
            test,
        } => {
            if own == operator && is_test_met(normal, class, test) {
                offer_of(rule.cost, number, cost_of(a, b, first, second))
            } else {
                None
            }
        }
    }
}

fn empty_row(alloc: Global, count: u16) -> Result<List<Option<Item>>, NoMemory>
    ensures { IfOk result (λ row. row ≡ replicate count None) }
{
    let items = vec![in alloc; None; count as usize]?;
    Ok(List::from_vec(items))
}

/// Offers each operator rule to the row.
fn offer_operators<L: Ledger>(
    normal: &Normal,
    operator: u8,
    class: u16,
    first: Option<&Items>,
    second: Option<&Items>,
    row: &mut List<Option<Item>>,
    steps: &mut Steps<L>,
)
    requires class { Occurs normal.now.tests class }
    requires first { IsSmallKid (option_copied first) }
    requires second { IsSmallKid (option_copied second) }
    requires empty { IsStartTo normal.now (key_of operator class (kid_sets (option_copied first) (option_copied second))) 0 row.old }
    ensures start { IsStart normal.now (key_of operator class (kid_sets (option_copied first.entry) (option_copied second.entry))) row.new }
    ensures steps { steps.new ≡ steps.old + length normal.now.rules }
{
    for k in 0..normal.rules() {
        steps.tick();
        let rule = normal.rule(k + 1);
        let offer = rule_offer(normal, k + 1, rule, operator, class, first, second);
        let _taken = improve(row, rule.left, offer);
    }
}

/// The item set of a node with this operator, the class of its attribute (0 with kids) and the item
/// sets of its kids, of which one is the first: for each normal nonterminal the least cost, relative
/// to the least of all, and the first rule that attains it. It begins with one step, and takes one more
/// for each normal rule that it looks at.
pub fn evaluate<L: Ledger>(
    alloc: Global,
    normal: &Normal,
    operator: u8,
    class: u16,
    first: Option<&Items>,
    second: Option<&Items>,
    steps: &mut Steps<L>,
) -> Result<Items, NoMemory>
    requires first { IsKid normal.now (option_copied first) }
    requires second { IsKid normal.now (option_copied second) }
    requires order { AreKidsInOrder (option_copied first) (option_copied second) }
    requires class { IsClassOver normal.now class (option_copied first) }
    ensures follows { IfOk result (λ items. Follows normal.now (key_of operator class (kid_sets (option_copied first.entry) (option_copied second.entry))) items) }
    ensures counted { steps.old < steps.new }
    ensures begun { OnErr result (steps.new ≡ steps.old + 1) }
{
    steps.tick();
    let mut row = empty_row(alloc, normal.nonterminals())?;
    offer_operators(normal, operator, class, first, second, &mut row, steps);
    let mut items = Items { entries: row };
    close_chains(normal, &mut items, steps);
    let _least = relative(&mut items);
    Ok(items)
}
