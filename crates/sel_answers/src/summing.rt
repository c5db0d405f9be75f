// The sums of answers, as these come.
ghost use Rattle.std.specs.Prelude.{◌≡◌, ◌<◌, ◌≤◌, ◌+◌, ◌++◌, ◌∷◌, [], List, length, IfOk};
ghost use Rattle.std.specs.List.{list_all};
ghost use Rattle.sel_forest.specs.Limits.{most_trees};
ghost use Rattle.sel_work.specs.declared.answer.Answer.{Answer as AnyAnswer};
ghost use Rattle.sel_answers.specs.Output.{is_covered, summary_text};
ghost use Rattle.sel_answers.specs.Reported.{report_text};
ghost use Rattle.sel_answers.specs.Summing.{SumsUp};

use crate::answers::is_covered;
use crate::output::Output;
use crate::report::put_report;
use crate::sums::{Sums, put_summary};
use sel_base::NoMemory;
use sel_crew::Report;
use sel_work::Answer;
use std::alloc::Global;

/// How many answers there were, whether each was a cover or a text, and their sums.
#[derive(Clone, Copy)]
pub struct Summing {
    pub count: u32,
    pub covered: bool,
    pub sums: Sums,
}

impl Summing {
    pub const NONE: Summing = Summing {
        count: 0,
        covered: true,
        sums: Sums::NONE,
    };

    fn with(self, answer: &Answer) -> Summing
        requires few { self.count < most_trees }
        requires so_far { (answers : List AnyAnswer) × SumsUp self answers }
        ensures { (answers : List AnyAnswer) → SumsUp self answers → SumsUp result (answers ++ answer.now ∷ []) }
    {
        let mut covered = is_covered(answer);
        covered &= self.covered;
        Summing {
            count: self.count + 1,
            covered,
            sums: self.sums.with(answer),
        }
    }

    /// With these answers, which come behind those before.
    pub fn with_all(self, more: &[Answer]) -> Summing
        requires few { self.count + length more.now ≤ most_trees }
        requires so_far { (answers : List AnyAnswer) × SumsUp self answers }
        ensures { (answers : List AnyAnswer) → SumsUp self answers → SumsUp result (answers ++ more.now) }
    {
        let mut sums = self;
        'more: for answer in more {
            sums = sums.with(answer);
        }
        sums
    }

    /// The summary of all answers and, behind it, what the report tells of its table.
    pub fn into_output(
        self,
        alloc: Global,
        second: bool,
        report: &Report,
    ) -> Result<Output, NoMemory>
        ensures text { (answers : List AnyAnswer) → SumsUp self answers → IfOk result (λ output. output.text.items ≡ summary_text second answers ++ report_text report.now) }
        ensures covered { (answers : List AnyAnswer) → SumsUp self answers → IfOk result (λ output. list_all is_covered answers ≡ output.covered) }
    {
        let mut text = Vec::new(alloc);
        put_summary(&mut text, second, self.count as u64, self.sums)?;
        put_report(&mut text, report)?;
        Ok(Output {
            text,
            covered: self.covered,
        })
    }
}
