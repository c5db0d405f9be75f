// The closing of item sets under the chain rules.
ghost use Rattle.std.specs.Prelude.{◌≡◌, ◌<◌, ◌≤◌, ◌+◌, ◌^◌, true, false, ℕ, length, Some};
ghost use Rattle.sel_normal.specs.Standing.{IsRuleWithin};
ghost use Rattle.sel_items.specs.declared.items.Item.{Item};
ghost use Rattle.sel_items.specs.CostBounds.{AreBelow};
ghost use Rattle.sel_items.specs.Entries.{item_at};
ghost use Rattle.sel_items.specs.Evaluating.{IsBelowIn};
ghost use Rattle.sel_items.specs.Follows.{item_cost};
ghost use Rattle.sel_items.specs.ChainClosing.{IsClosedFrom};
ghost use Rattle.sel_items.specs.ChainPasses.{IsTurned, ChainStands, AllStand, KeepsRow, HasStart, total_distance};

use crate::items::{Item, Items};
use crate::offers::{entry_of, improve, offer_of};
use sel_base::{List, Pair, Steps};
use sel_normal::{Body, Normal, NormalRule};
use std::sync::ledger::Ledger;

/// What the entry costs, where there is one.
pub fn cost_at(row: &[Option<Item>], nonterminal: u16) -> Option<Pair>
    ensures { result ≡ item_cost (item_at row.now nonterminal) }
{
    match entry_of(row, nonterminal as usize) {
        None => None,
        Some(item) => Some(item.cost),
    }
}

/// Whether the row takes what the rule offers, if it is a chain rule.
fn turn(rule: NormalRule, number: u16, row: &mut List<Option<Item>>) -> bool
    requires left { rule.left < length row.old }
    requires below { AreBelow 49 row.old }
    ensures stays { result ≡ false → row.new ≡ row.old }
    ensures stands { result ≡ false → ChainStands rule number row.old }
    ensures turned { result ≡ true → IsTurned rule number row.old row.new }
    ensures falls { result ≡ true → total_distance row.new < total_distance row.old }
{
    match rule.body {
        Body::Chain(to) => {
            let offer = offer_of(rule.cost, number, cost_at(row.as_slice(), to));
            improve(row, rule.left, offer)
        }
        Body::Operator { .. } => false,
    }
}

/// Offers each chain rule to the row once. Whether the row took an offer.
fn pass<L: Ledger>(normal: &Normal, row: &mut List<Option<Item>>, steps: &mut Steps<L>) -> bool
    requires long { length row.old ≡ normal.now.nonterminals }
    requires start { HasStart normal.now row.old }
    ensures stays { result ≡ false → row.new ≡ row.old }
    ensures stands { result ≡ false → AllStand normal.now row.old }
    ensures falls { result ≡ true → total_distance row.new < total_distance row.old }
    ensures keeps { KeepsRow normal.now row.old row.new }
    ensures long { length row.new ≡ length row.old }
    ensures steps { steps.new ≡ steps.old + length normal.now.rules }
{
    let mut changed = false;
    for k in 0..normal.rules() {
        steps.tick();
        let rule = normal.rule(k + 1);
        if turn(rule, k + 1, row) {
            changed = true;
        }
    }
    changed
}

/// Closes the entries, whose costs are absolute, under the chain rules: each becomes the least that
/// chain rules give from a given entry, and of candidates of that cost the one with the least first
/// rule, where a given entry counts with its own first rule. It goes over the rules until nothing
/// changes, and takes a step for each rule that it looks at.
pub fn close_chains<L: Ledger>(normal: &Normal, items: &mut Items, steps: &mut Steps<L>)
    requires long { length items.old.entries ≡ normal.now.nonterminals }
    requires low { AreBelow 48 items.old.entries }
    ensures closed { IsClosedFrom normal.now items.old.entries items.new.entries }
    ensures low { AreBelow 49 items.new.entries }
    ensures steps { steps.old ≤ steps.new }
{
    // that there are few nonterminals bounds how many chain rules a least candidate has
    let _few = normal.nonterminals();
    'passes: loop {
        if !pass(normal, &mut items.entries, steps) {
            return;
        }
    }
}
