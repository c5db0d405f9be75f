ghost use Rattle.std.specs.Prelude.{◌≡◌, ◌*◌, ◌≤◌, ◌<ℤ◌, length, map, IfOk};
ghost use Rattle.std.specs.List.{AllPairs};
ghost use Rattle.sel_range.specs.Limits.{most_tests};
ghost use Rattle.sel_range.specs.SortedCuts.{span_among, spans_class};

use crate::cuts::class_among;
use sel_base::{NoMemory, Range};
use std::alloc::Global;

/// The classes that a test holds of, from `first` to `last`.
#[derive(Clone, Copy, Debug)]
pub struct Span {
    pub first: u16,
    pub last: u16,
}

impl Span {
    pub fn contains(self, class: u16) -> bool
        ensures { result ≡ spans_class self class }
    {
        self.first <= class && class <= self.last
    }
}

/// The span of a test among the cuts. It has no class where the test never holds.
fn span_of(sorted: &[i64], test: Range) -> Span
    requires few { length sorted.now ≤ 2 * most_tests }
    requires ascend { AllPairs (λ x y. x <ℤ y) sorted.now }
    ensures { result ≡ span_among sorted.now test }
{
    if test.lo > test.hi {
        return Span { first: 1, last: 0 };
    }
    Span {
        first: class_among(sorted, test.lo),
        last: class_among(sorted, test.hi),
    }
}

/// The span of each test.
pub fn spans_of(alloc: Global, tests: &[Range], sorted: &[i64]) -> Result<Vec<Span>, NoMemory>
    requires few { length sorted.now ≤ 2 * most_tests }
    requires ascend { AllPairs (λ x y. x <ℤ y) sorted.now }
    ensures { IfOk result (λ spans. spans.items ≡ map (span_among sorted.now) tests.now) }
{
    let mut spans = Vec::with_capacity(alloc, tests.len())?;
    for test in tests {
        spans.push(span_of(sorted, *test))?;
    }
    Ok(spans)
}
