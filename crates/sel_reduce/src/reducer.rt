// The best cover of a labelled tree.
ghost use Rattle.std.specs.Prelude.{◌≡◌, IfOk};
ghost use Rattle.sel_grammar.specs.PlainTrees.{PlainTree};
ghost use Rattle.sel_forest.specs.Covers.{IsAnswer};
ghost use Rattle.sel_forest.specs.Postorder.{IsPostorderOf};
ghost use Rattle.sel_forest.specs.Valid.{IsValidTree};
ghost use Rattle.sel_items.specs.Automata.{IsRead};
ghost use Rattle.sel_items.specs.Laws.{IsAcceptedForm};
ghost use Rattle.sel_reduce.specs.Labelled.{IsLabelling};

use crate::walk::{Walk, entry_for};
use sel_base::{List, NoMemory};
use sel_forest::{Cover, Goal, Tree};
use sel_grammar::Grammar;
use sel_items::Automaton;
use sel_label::Labels;
use sel_normal::Normal;
use std::alloc::Global;

/// The cost and the rule list of the tree's best derivation from the start symbol, or None where
/// nothing derives it. `normal` is the normal form of the grammar and of the automaton. The labels are
/// those of the tree's nodes, and no tree was begun since they were given.
///
/// It goes from the root down by a stack of goals (a node and a normal nonterminal), as a BURG reducer
/// does (BURG manual, lburg): the first rule of a goal's entry is the next of the list, and a helper's
/// rule only leads on. The cost is the sum of the rules', since item sets tell relative costs alone. It
/// takes time for each rule of the list and each operator of its pattern, and memory for the list and
/// the goals that are left.
pub fn reduce<A: Automaton>(
    automaton: &mut A,
    alloc: Global,
    grammar: &Grammar,
    normal: &Normal,
    tree: &Tree,
    labels: &Labels,
) -> Result<Option<Cover>, NoMemory>
    requires normal { (A.told automaton.old).normal ≡ normal.now }
    requires form { IsAcceptedForm grammar.now normal.now }
    requires tree { IsValidTree grammar.now tree.now }
    requires labelled { IsLabelling grammar.now (A.told automaton.old).means tree.now labels.now.of }
    ensures answer { IfOk result (λ answer. (t : PlainTree) → IsPostorderOf tree.now t → IsAnswer grammar.now t answer) }
    ensures fixed { A.fixed automaton.new ≡ A.fixed automaton.old }
    ensures read { IsRead (A.told automaton.old) (A.told automaton.new) }
{
    let nodes = tree.nodes.as_slice();
    let root = Goal {
        at: nodes.len() - 1,
        nonterminal: grammar.start,
    };
    let first = entry_for(automaton, labels, root);
    if first.is_none() {
        return Ok(None);
    }
    let mut walk = Walk::new(alloc, root, nodes.len())?;
    while let Some(goal) = walk.goals.pop() {
        match entry_for(automaton, labels, goal) {
            Some(item) => walk.take(normal, nodes, goal, item.rule)?,
            None => unreachable!(),
        }
    }
    Ok(Some(Cover {
        cost: walk.cost,
        rules: List::from_vec(walk.rules),
    }))
}
