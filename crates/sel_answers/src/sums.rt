// The sums of a summary, and its text.
ghost use Rattle.std.specs.Prelude.{◌≡◌, ◌+◌, ◌+ℤ◌, ◌++◌, ◌∷◌, [], ℕ, List, length, decimal, OnOk};
ghost use Rattle.sel_work.specs.declared.answer.Answer.{Answer as AnyAnswer};
ghost use Rattle.sel_forest.specs.Limits.{most_trees};
ghost use Rattle.sel_answers.specs.Output.{told_line, summary_text};
ghost use Rattle.sel_answers.specs.Summing.{AreWithin, AreSums, AreSmall};

use crate::answers::put_cost;
use itoa::Buffer;
use sel_base::text::put;
use sel_base::{NoMemory, Pair};
use sel_work::Answer;

/// How many answers are no cover, and what the covers cost together. The costs of as many trees as a
/// forest may have can't overflow 128 bits.
#[derive(Clone, Copy)]
pub struct Sums {
    pub uncovered: u64,
    pub first: u128,
    pub second: i128,
}

impl Sums {
    pub const NONE: Sums = Sums {
        uncovered: 0,
        first: 0,
        second: 0,
    };

    fn with_uncovered(self) -> Sums
        requires small { AreSmall most_trees self }
        ensures within { (count : ℕ) → AreWithin count self → AreWithin (count + 1) result }
        ensures exact { result ≡ record { uncovered = self.uncovered + 1; first = self.first; second = self.second } }
    {
        Sums {
            uncovered: self.uncovered + 1,
            ..self
        }
    }

    fn with_cost(self, cost: Pair) -> Sums
        requires small { AreSmall most_trees self }
        ensures within { (count : ℕ) → AreWithin count self → AreWithin (count + 1) result }
        ensures exact { result ≡ record { uncovered = self.uncovered; first = self.first + cost.first; second = self.second +ℤ cost.second } }
    {
        Sums {
            first: self.first + cost.first as u128,
            second: self.second + cost.second as i128,
            ..self
        }
    }

    /// The sums of one more answer.
    pub fn with(self, answer: &Answer) -> Sums
        requires small { AreSmall most_trees self }
        ensures { (answers : List AnyAnswer) → AreSums self answers → AreSums result (answers ++ answer.now ∷ []) }
    {
        match answer {
            Answer::NoCover => self.with_uncovered(),
            Answer::Cover(cover) => self.with_cost(cover.cost),
            Answer::Text { cost, .. } => self.with_cost(*cost),
            Answer::TooLong { cost } => self.with_cost(*cost),
        }
    }
}

/// Puts a line of a word and a count.
pub fn put_count(text: &mut Vec<u8>, word: &[u8], count: u64) -> Result<(), NoMemory>
    ensures { OnOk result (text.new.items ≡ text.old.items ++ told_line word.now (decimal count)) }
{
    let mut buffer = Buffer::new();
    put(text, word)?;
    put(text, buffer.format(count).as_bytes())?;
    put(text, b"\n")
}

/// Puts the summary of so many answers.
pub fn put_summary(text: &mut Vec<u8>, second: bool, count: u64, sums: Sums) -> Result<(), NoMemory>
    ensures { (answers : List AnyAnswer) → length answers ≡ count → AreSums sums answers → OnOk result (text.new.items ≡ text.old.items ++ summary_text second answers) }
{
    put_count(text, b"trees ", count)?;
    put_count(text, b"uncovered ", sums.uncovered)?;
    put(text, b"cost ")?;
    put_cost(text, second, sums.first, sums.second)?;
    put(text, b"\n")
}
