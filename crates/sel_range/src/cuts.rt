// The places where the answer of some test changes.
ghost use Rattle.std.specs.Prelude.{◌≡◌, ◌*◌, ◌≤◌, ◌<ℤ◌, ◌++◌, length, IfOk, OnOk};
ghost use Rattle.std.specs.List.{All, AllPairs};
ghost use Rattle.sel_range.specs.Classes.{cuts, cuts_of};
ghost use Rattle.sel_range.specs.Limits.{IsAttributeNumber, most_tests};
ghost use Rattle.sel_range.specs.SortedCuts.{AreInOrder, class_among};

use sel_base::{NoMemory, Range};
use std::alloc::Global;

/// The distinct cuts of the tests, from the least up.
pub fn sorted_cuts(alloc: Global, tests: &[Range]) -> Result<Vec<i64>, NoMemory>
    requires { length tests.now ≤ most_tests }
    ensures { IfOk result (λ sorted. AreInOrder (cuts tests.now) sorted.items) }
{
    let mut sorted = all_cuts(alloc, tests)?;
    sorted.sort_unstable();
    sorted.dedup();
    Ok(sorted)
}

/// The cuts of each test, one after the other.
fn all_cuts(alloc: Global, tests: &[Range]) -> Result<Vec<i64>, NoMemory>
    requires { length tests.now ≤ most_tests }
    ensures all { IfOk result (λ all. all.items ≡ cuts tests.now) }
    ensures numbers { IfOk result (λ all. All IsAttributeNumber all.items) }
{
    let mut all = Vec::with_capacity(alloc, 2 * tests.len())?;
    for test in tests {
        push_cuts(&mut all, *test)?;
    }
    Ok(all)
}

fn push_cuts(all: &mut Vec<i64>, test: Range) -> Result<(), NoMemory>
    ensures pushed { OnOk result (all.new.items ≡ all.old.items ++ cuts_of test) }
    ensures numbers { OnOk result (All IsAttributeNumber (cuts_of test)) }
{
    if test.lo > test.hi {
        return Ok(());
    }
    all.push(test.lo)?;
    if test.hi < i64::MAX {
        all.push(test.hi + 1)?;
    }
    Ok(())
}

/// The class of a number: 1 plus how many cuts are at most the number.
pub fn class_among(sorted: &[i64], number: i64) -> u16
    requires few { length sorted.now ≤ 2 * most_tests }
    requires ascend { AllPairs (λ x y. x <ℤ y) sorted.now }
    ensures { result ≡ class_among sorted.now number }
{
    1 + sorted.partition_point(|cut| *cut <= number) as u16
}
