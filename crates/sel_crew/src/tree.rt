//! One tree, answered by a part of the table.
ghost use Rattle.std.specs.Prelude.{IfOk};
ghost use Rattle.sel_forest.specs.Valid.{IsValidTree};
ghost use Rattle.sel_crew.specs.Crews.{IsSeated};
ghost use Rattle.sel_crew.specs.Tasks.{IsTask, GrowsBy, IsAnswered};

use crate::task::Task;
use sel_base::{NoMemory, Steps};
use sel_expand::Expander;
use sel_forest::Tree;
use sel_rows::{Pass, PassPart};
use sel_work::{Answered, answer_tree};
use std::sync::ledger::Ledger;

/// The answer of a tree by the part's pass, and the part behind it.
pub fn answer_by_part<L: Ledger>(
    task: &Task<'_>,
    expander: &mut Expander,
    part: PassPart,
    tree: &Tree,
    steps: &mut Steps<L>,
) -> (PassPart, Result<Answered, NoMemory>)
    requires task { IsTask task.now }
    requires part { IsSeated task.now.rows.now part }
    requires tree { IsValidTree task.now.grammar.now tree.now }
    ensures part { IsSeated task.now.rows.now result.0 }
    ensures grows { GrowsBy task.now.grammar.now tree.now part result.0 }
    ensures answered { IfOk result.1 (IsAnswered task.now.grammar.now task.now.goal tree.now result.0) }
{
    let mut pass = Pass::new(task.rows, task.normal, part);
    let answered = answer_tree(
        &mut pass,
        expander,
        task.alloc,
        task.grammar,
        task.normal,
        tree,
        task.goal,
        steps,
    );
    (pass.part(), answered)
}
