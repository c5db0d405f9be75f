// Covers of trees, by labels and by plain dynamic programming.
ghost use Rattle.std.specs.Prelude.{◌≡◌, IfOk};
ghost use Rattle.sel_grammar.specs.PlainTrees.{PlainTree};
ghost use Rattle.sel_forest.specs.Covers.{IsAnswer};
ghost use Rattle.sel_forest.specs.Postorder.{IsPostorderOf};
ghost use Rattle.sel_forest.specs.Valid.{IsValidTree};
ghost use Rattle.sel_items.specs.Laws.{IsAcceptedForm};

use crate::accepted::Accepted;
use sel_base::{NoMemory, Steps};
use sel_forest::{Cover, Tree};
use sel_items::Automaton;
use sel_label::label_tree;
use sel_plain::least;
use sel_reduce::reduce;
use std::alloc::Global;
use std::sync::ledger::Ledger;

/// The best cover of a tree, whose nodes the automaton labels.
pub fn by_labels<A: Automaton, L: Ledger>(
    automaton: &mut A,
    alloc: Global,
    accepted: &Accepted,
    tree: &Tree,
    steps: &mut Steps<L>,
) -> Result<Option<Cover>, NoMemory>
    requires normal { (A.told automaton.old).normal ≡ accepted.now.normal }
    requires form { IsAcceptedForm accepted.now.grammar accepted.now.normal }
    requires tree { IsValidTree accepted.now.grammar tree.now }
    ensures answer { IfOk result (λ answer. (t : PlainTree) → IsPostorderOf tree.now t → IsAnswer accepted.now.grammar t answer) }
    ensures normal { (A.told automaton.new).normal ≡ (A.told automaton.old).normal }
{
    let Accepted { grammar, normal } = accepted;
    let labels = label_tree(automaton, alloc, normal, tree, steps)?;
    reduce(automaton, alloc, grammar, normal, tree, &labels)
}

// The best cover of a tree, without an automaton.
fn by_costs(alloc: Global, accepted: &Accepted, tree: &Tree) -> Result<Option<Cover>, NoMemory>
    requires form { IsAcceptedForm accepted.now.grammar accepted.now.normal }
    requires tree { IsValidTree accepted.now.grammar tree.now }
    ensures answer { IfOk result (λ answer. (t : PlainTree) → IsPostorderOf tree.now t → IsAnswer accepted.now.grammar t answer) }
{
    least(alloc, &accepted.grammar, tree)
}

// Whether both are none, or have the same cost and the same list.
fn are_same(one: &Option<Cover>, other: &Option<Cover>) -> bool {
    match (one, other) {
        (None, None) => true,
        (Some(one), Some(other)) => {
            one.cost == other.cost && one.rules.as_slice() == other.rules.as_slice()
        }
        _ => false,
    }
}

/// Whether the cover is the best one without an automaton.
pub fn is_by_costs(
    alloc: Global,
    accepted: &Accepted,
    tree: &Tree,
    cover: &Option<Cover>,
) -> Result<bool, NoMemory>
    requires form { IsAcceptedForm accepted.now.grammar accepted.now.normal }
    requires tree { IsValidTree accepted.now.grammar tree.now }
{
    let wanted = by_costs(alloc, accepted, tree)?;
    Ok(are_same(cover, &wanted))
}
