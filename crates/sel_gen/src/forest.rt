// The forest that a number makes.
ghost use Rattle.std.specs.Prelude.{◌≤◌, IfOk};
ghost use Rattle.sel_grammar.specs.Lawful.{IsLawful};
ghost use Rattle.sel_forest.specs.Limits.{most_trees};
ghost use Rattle.sel_forest.specs.Valid.{IsValidForest};
ghost use Rattle.sel_gen.specs.Made.{most_size, IsMadeForest};

use crate::maker::TreeMaker;
use sel_base::{List, NoMemory};
use sel_forest::Forest;
use sel_grammar::Grammar;
use std::alloc::Global;

/// The forest that the seed makes of a grammar that a text spells: `trees` trees, at most 1,000,000,
/// each derived by at most `size` rules, at most 1,000. Rules, shares and attributes are drawn by the
/// words of the PCG XSL RR 128/64 generator that `seed_from_u64` begins. The forest is empty where no
/// tree is derived from the start symbol by so few rules.
pub fn make_forest(
    alloc: Global,
    grammar: &Grammar,
    seed: u64,
    trees: u32,
    size: u32,
) -> Result<Forest, NoMemory>
    requires lawful { IsLawful grammar.now }
    requires trees { trees ≤ most_trees }
    requires from { 1 ≤ size }
    requires to { size ≤ most_size }
    ensures made { IfOk result (λ forest. IsMadeForest grammar.now seed trees size forest) }
    ensures valid { IfOk result (λ forest. IsValidForest grammar.now forest) }
{
    let mut maker = TreeMaker::new(alloc, grammar, seed, trees, size)?;
    let mut made = List::new(alloc);
    'trees: while let Some(tree) = maker.next(alloc)? {
        made.push(tree)?;
    }
    Ok(Forest { trees: made })
}
