ghost use Rattle.std.specs.Prelude.{IfOk};
ghost use Rattle.sel_grammar.specs.PlainTrees.{PlainTree};
ghost use Rattle.sel_grammar.specs.Chains.{HasNoFreeCycle};
ghost use Rattle.sel_forest.specs.Postorder.{IsPostorderOf};
ghost use Rattle.sel_forest.specs.Covers.{IsAnswer};
ghost use Rattle.sel_grammar.specs.Lawful.{IsLawful};
ghost use Rattle.sel_forest.specs.Postorder.{IsTree};

use crate::cover::{entry_for, written};
use crate::fill::filled;
use sel_base::{List, NoMemory};
use sel_forest::{Cover, Goal, Tree};
use sel_grammar::Grammar;
use std::alloc::Global;

/// The cost of the tree's best derivation from the start symbol, and the numbers of its rules in preorder,
/// or None where nothing derives the tree. The best derivation costs least, and among those that cost as
/// much has the list that is first in the order of words.
///
/// The nodes are labelled from the leaves up, and the list is read from the root down (BURG manual,
/// lburg). It takes time for each node and rule, and memory for each node and nonterminal.
pub fn least(alloc: Global, grammar: &Grammar, tree: &Tree) -> Result<Option<Cover>, NoMemory>
    requires tree { IsTree tree.now }
    requires lawful { IsLawful grammar.now }
    requires free { HasNoFreeCycle grammar.now }
    ensures { IfOk result (λ answer. (t : PlainTree) → IsPostorderOf tree.now t → IsAnswer grammar.now t answer) }
{
    let nodes = tree.nodes.as_slice();
    let table = filled(alloc, grammar, nodes)?;
    let goal = Goal {
        at: nodes.len() - 1,
        nonterminal: grammar.start,
    };
    match entry_for(&table, goal) {
        None => Ok(None),
        Some(entry) => {
            let rules = written(alloc, grammar, nodes, &table, goal)?;
            Ok(Some(Cover {
                cost: entry.cost,
                rules: List::from_vec(rules),
            }))
        }
    }
}
