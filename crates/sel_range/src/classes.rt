ghost use Rattle.std.specs.Prelude.{◌≡◌, ◌<◌, ◌≤◌, ◌↔◌, ℤ, Option, IsTrue, IfOk, IfSome, length, slice_get};
ghost use Rattle.sel_range.specs.Classes.{class_of, last_class, Occurs, OccursByRule, holds, HoldsOfClass};
ghost use Rattle.sel_range.specs.Limits.{most_tests};

use crate::cuts::{class_among, sorted_cuts};
use crate::span::{Span, spans_of};
use sel_base::{NoMemory, Range};
use std::alloc::Global;
use std::marker::Model;

/// The tests of a grammar, by which numbers fall into classes: all numbers of one class pass the
/// same tests. Class 0 is that of an attribute without a number.
#[derive(Debug, Drop)]
pub struct Classes {
    tests: Vec<Range>,
    cuts: Vec<i64>,
    spans: Vec<Span>,
}

impl Model for Classes {
    ghost use Rattle.std.specs.Prelude.{List};
    ghost use Rattle.sel_base.specs.declared.range.Range.{Range};
    ghost use Rattle.sel_range.specs.SortedCuts.{IsKeptOf};

    ghost Value = { List Range };

    ghost view = { λ c. c.tests.items };

    ghost invariant = { λ c. IsKeptOf c.tests.items c.cuts.items c.spans.items };
}

impl Classes {
    /// The classes of these tests, which are numbered from 0. It takes time for sorting two cuts a test.
    pub fn of(alloc: Global, tests: &[Range]) -> Result<Classes, NoMemory>
        requires few { length tests.now ≤ most_tests }
        ensures { IfOk result (λ classes. classes ≡ tests.now) }
    {
        let cuts = sorted_cuts(alloc, tests)?;
        let spans = spans_of(alloc, tests, &cuts)?;
        let tests = tests.to_vec(alloc)?;
        Ok(Classes { tests, cuts, spans })
    }

    /// The tests, in the order of their numbers.
    pub fn tests(&self) -> &[Range]
        ensures { result.now ≡ self.now }
    {
        &self.tests
    }

    /// The class of an attribute by its number, which it may lack. It takes time for the logarithm of
    /// the number of tests.
    pub fn class_of(&self, number: Option<i64>) -> u16
        ensures { result ≡ class_of self.now number }
    {
        match number {
            None => 0,
            Some(number) => class_among(&self.cuts, number),
        }
    }

    /// The greatest class, that of the greatest number.
    pub fn last(&self) -> u16
        ensures count { result ≡ last_class self.now }
        ensures greatest { (number : Option ℤ) → class_of self.now number ≤ result }
        ensures occurs { Occurs self.now result }
    {
        self.cuts.len() as u16 + 1
    }

    /// Whether some attribute, or the absence of one, has the class. All classes up to the last do,
    /// but that class 1 is left out where the least number is a cut.
    pub fn occurs(&self, class: u16) -> bool
        ensures value { IsTrue result ↔ Occurs self.now class }
        ensures rule { IsTrue result ↔ OccursByRule self.now class }
    {
        let numbers = Span {
            first: class_among(&self.cuts, i64::MIN),
            last: self.last(),
        };
        class == 0 || numbers.contains(class)
    }

    /// Whether the test holds of all numbers of the class; no test holds of class 0. It takes constant
    /// time.
    pub fn holds(&self, class: u16, test: u16) -> bool
        requires occurs { Occurs self.now class }
        requires test { test < length self.now }
        ensures every { IfSome (slice_get self.now test) (λ range. IsTrue result ↔ HoldsOfClass self.now class range) }
        ensures rule { IfSome (slice_get self.now test) (λ range. result ≡ holds self.now class range) }
    {
        self.spans[test as usize].contains(class)
    }
}
