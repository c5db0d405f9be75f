ghost use Rattle.std.specs.Prelude.{◌≡◌, ◌<◌, ℕ, IfOk, length, slice_get};
ghost use Rattle.std.specs.Option.{option_flatten};
ghost use Rattle.sel_grammar.specs.Chains.{HasNoFreeCycle};
ghost use Rattle.sel_grammar.specs.Lawful.{IsLawful};
ghost use Rattle.sel_forest.specs.Postorder.{IsTree};
ghost use Rattle.sel_plain.specs.NodeCosts.{HasPlaces, AreBestCosts, AreSmallCosts};
ghost use Rattle.sel_plain.specs.Rows.{entry_at, row_at, entry_cost};

use crate::fill::filled;
use crate::offer::cost_at;
use crate::rows::Table;
use sel_base::{List, NoMemory, Pair};
use sel_forest::Tree;
use sel_grammar::Grammar;
use std::alloc::Global;

/// The costs in the row of the node.
fn row_costs(
    alloc: Global,
    table: &Table,
    at: usize,
    width: usize,
) -> Result<List<Option<Pair>>, NoMemory>
    ensures long { IfOk result (λ row. length row ≡ width) }
    ensures costs { IfOk result
        (λ row. (n : ℕ) → n < width → option_flatten (slice_get row n) ≡ entry_cost (entry_at (row_at table.now.rows at) n)) }
{
    let mut row = List::new(alloc);
    for nonterminal in 0..width {
        row.push(cost_at(table, at, nonterminal))?;
    }
    Ok(row)
}

/// For each node in postorder and each nonterminal the cost of the best derivation of the node's tree
/// from it, or None where nothing derives the tree. It takes time and memory as `least` does.
pub fn table(
    alloc: Global,
    grammar: &Grammar,
    tree: &Tree,
) -> Result<List<List<Option<Pair>>>, NoMemory>
    requires tree { IsTree tree.now }
    requires lawful { IsLawful grammar.now }
    requires free { HasNoFreeCycle grammar.now }
    ensures places { IfOk result (λ costs. HasPlaces grammar.now tree.now costs) }
    ensures best { IfOk result (λ costs. AreBestCosts grammar.now tree.now costs) }
    ensures small { IfOk result (λ costs. AreSmallCosts costs) }
{
    let nodes = tree.nodes.as_slice();
    let table = filled(alloc, grammar, nodes)?;
    let width = grammar.nonterminals.len();
    let mut costs = List::new(alloc);
    for at in 0..nodes.len() {
        costs.push(row_costs(alloc, &table, at, width)?)?;
    }
    Ok(costs)
}
