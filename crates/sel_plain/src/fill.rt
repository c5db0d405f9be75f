ghost use Rattle.std.specs.Prelude.{◌+◌, length, IfOk};
ghost use Rattle.sel_forest.specs.Limits.{most_nodes};
ghost use Rattle.sel_grammar.specs.Chains.{HasNoFreeCycle};
ghost use Rattle.sel_grammar.specs.Limits.{IsWithinLimits};
ghost use Rattle.sel_plain.specs.BestRows.{AreBestRows};
ghost use Rattle.sel_forest.specs.Places.{SizesBelow};

use crate::row::close_row;
use crate::rows::Table;
use sel_base::NoMemory;
use sel_forest::Node;
use sel_grammar::Grammar;
use std::alloc::Global;

/// The row of each node, in the nodes' order.
pub fn filled(alloc: Global, grammar: &Grammar, nodes: &[Node]) -> Result<Table, NoMemory>
    requires limits { IsWithinLimits grammar.now }
    requires free { HasNoFreeCycle grammar.now }
    requires sizes { SizesBelow nodes.now (most_nodes + 1) }
    ensures { IfOk result (λ table. AreBestRows grammar.now nodes.now table.rows (length nodes.now)) }
{
    let width = grammar.nonterminals.len();
    let mut table = Table::new(alloc, width);
    let mut scratch = vec![in alloc; None; width]?;
    let row = scratch.as_mut_slice();
    for at in 0..nodes.len() {
        close_row(grammar, nodes, &table, row, at);
        table.push(row)?;
    }
    Ok(table)
}
