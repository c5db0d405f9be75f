ghost use Rattle.std.specs.Prelude.{◌≡◌, ◌<◌, ◌+◌, ℕ, length, true, false};
ghost use Rattle.sel_forest.specs.Limits.{most_nodes};
ghost use Rattle.sel_grammar.specs.PlainTrees.{PlainTree};
ghost use Rattle.sel_grammar.specs.Chains.{HasNoFreeCycle};
ghost use Rattle.sel_grammar.specs.Limits.{IsWithinLimits};
ghost use Rattle.sel_forest.specs.Places.{IsRootAt, SizesBelow};
ghost use Rattle.sel_plain.specs.BestRows.{IsBestRow, AreBestRows};
ghost use Rattle.sel_plain.specs.Kinds.{rule_kind};
ghost use Rattle.sel_plain.specs.Rows.{entry_at};
ghost use Rattle.sel_plain.specs.Offers.{offered};
ghost use Rattle.sel_plain.specs.Bettering.{Withstands, IsBettered, KindWithstood, Keeps, KeepsBacked, total_distance};

use crate::cost::{capped_sum, paid};
use crate::entry::{Entry, is_kept_out};
use crate::kind::{RuleKind, rule_kind};
use crate::offer::offered;
use crate::rows::{Table, entry_of};
use sel_forest::Node;
use sel_grammar::{Grammar, Rule};

/// Offers the rule with the number to the row. Whether the row took the offer.
fn offer(
    rule: &Rule,
    number: u16,
    nodes: &[Node],
    table: &Table,
    row: &mut [Option<Entry>],
    at: usize,
) -> bool
    requires { rule.now.left < length row.old }
    ensures stays { result ≡ false → row.new ≡ row.old }
    ensures withstands { result ≡ false
        → Withstands (entry_at row.old rule.now.left) (offered rule.now nodes.now table.now.rows row.old at) rule.now number }
    ensures bettered { result ≡ true
        → IsBettered rule.now number (offered rule.now nodes.now table.now.rows row.old at) row.old row.new }
{
    let left = rule.left as usize;
    match offered(rule, nodes, table, row, at) {
        Some(kids) => {
            let entry = Entry {
                cost: capped_sum(paid(rule.cost), kids),
                rule: number,
            };
            if is_kept_out(entry_of(row, left), entry) {
                false
            } else {
                row[left] = Some(entry);
                true
            }
        }
        None => false,
    }
}

/// Offers the rule to the row, if it is of the kind.
fn offer_if(
    kind: RuleKind,
    rule: &Rule,
    number: u16,
    nodes: &[Node],
    table: &Table,
    row: &mut [Option<Entry>],
    at: usize,
) -> bool
    requires { rule.now.left < length row.old }
    ensures stays { result ≡ false → row.new ≡ row.old }
    ensures withstands { result ≡ false → rule_kind rule.now.pattern ≡ kind
        → Withstands (entry_at row.old rule.now.left) (offered rule.now nodes.now table.now.rows row.old at) rule.now number }
    ensures bettered { result ≡ true
        → IsBettered rule.now number (offered rule.now nodes.now table.now.rows row.old at) row.old row.new }
{
    if rule_kind(&rule.pattern) == kind {
        offer(rule, number, nodes, table, row, at)
    } else {
        false
    }
}

/// Offers each rule of the kind to the row once. Whether the row took an offer.
pub fn offer_all(
    kind: RuleKind,
    grammar: &Grammar,
    nodes: &[Node],
    table: &Table,
    row: &mut [Option<Entry>],
    at: usize,
) -> bool
    requires limits { IsWithinLimits grammar.now }
    requires long { length row.old ≡ length grammar.now.nonterminals }
    ensures stays { result ≡ false → row.new ≡ row.old }
    ensures withstood { result ≡ false → KindWithstood kind grammar.now nodes.now table.now.rows row.new at }
    ensures operators { kind ≡ RuleKind.Operator → KindWithstood RuleKind.Operator grammar.now nodes.now table.now.rows row.new at }
    ensures falls { result ≡ true → total_distance row.new < total_distance row.old }
    ensures keeps { Keeps row.old row.new }
    ensures backed { KeepsBacked grammar.now nodes.now table.now.rows at row.old row.new }
{
    let mut changed = false;
    for (k, rule) in grammar.rules.as_slice().iter().enumerate() {
        if offer_if(kind, rule, (k + 1) as u16, nodes, table, row, at) {
            changed = true;
        }
    }
    changed
}

/// Empties each place.
fn clear(row: &mut [Option<Entry>])
    ensures { (n : ℕ) → entry_at row.new n ≡ None }
{
    for n in 0..row.len() {
        row[n] = None;
    }
}

/// Makes the row that of the node, which no rule betters: what a rule with an operator offers depends on
/// lower nodes alone, so these rules are offered once, and then chain rules until none betters the row.
pub fn close_row(
    grammar: &Grammar,
    nodes: &[Node],
    table: &Table,
    row: &mut [Option<Entry>],
    at: usize,
)
    requires limits { IsWithinLimits grammar.now }
    requires free { HasNoFreeCycle grammar.now }
    requires sizes { SizesBelow nodes.now (most_nodes + 1) }
    requires lower { AreBestRows grammar.now nodes.now table.now.rows at }
    requires long { length row.old ≡ length grammar.now.nonterminals }
    ensures { (t : PlainTree) → IsRootAt nodes.now at t → IsBestRow grammar.now t row.new }
{
    clear(row);
    offer_all(RuleKind::Operator, grammar, nodes, table, row, at);
    'passes: loop {
        if !offer_all(RuleKind::Chain, grammar, nodes, table, row, at) {
            return;
        }
    }
}
