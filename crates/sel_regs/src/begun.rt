//! Which temporaries begin on each line.
ghost use Rattle.std.specs.Prelude.{◌≡◌, ◌<◌, ◌^◌, ℕ, [], IfOk, Some, length, replicate, slice_get};
ghost use Rattle.sel_regs.specs.Beginning.{BeginWithin, AreBegun};
ghost use Rattle.sel_regs.specs.declared.lives.Life.{Life};

use crate::lives::Life;
use sel_base::{List, NoMemory};
use std::alloc::Global;

fn empty_lists(alloc: Global, count: usize) -> Result<Vec<List<u32>>, NoMemory>
    ensures { IfOk result (λ lists. lists.items ≡ replicate count []) }
{
    let mut lists = Vec::with_capacity(alloc, count)?;
    'lists: for _made in 0..count {
        lists.push(List::new(alloc))?;
    }
    Ok(lists)
}

/// For each line the indices of the temporaries that begin on it, in their order.
pub fn begun(alloc: Global, lives: &[Life], lines: usize) -> Result<Vec<List<u32>>, NoMemory>
    requires few { length lives.now < 2 ^ 32 }
    requires within { BeginWithin lives.now lines }
    ensures { IfOk result (λ begun. AreBegun lives.now (length lives.now) lines begun.items) }
{
    let mut begun = empty_lists(alloc, lines)?;
    'lives: for (index, life) in lives.iter().enumerate() {
        if life.end > 0 {
            begun[life.first].push(index as u32)?;
        }
    }
    Ok(begun)
}
