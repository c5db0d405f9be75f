//! What is told of all trees at the end.
ghost use Rattle.std.specs.Prelude.{List, IfOk};
ghost use Rattle.sel_forest.specs.declared.forest.Tree.{Tree};
ghost use Rattle.sel_count.specs.Things.{AreValid};
ghost use Rattle.sel_crew.specs.Crews.{grammar_of, normal_of, room_of, IsCrew, HasAskedOnly, KeepsAll, CountsPlainOf};
ghost use Rattle.sel_crew.specs.Reports.{IsReportOf, TellsCounted, TellsWhole, TellsPlainNodes};

use crate::crew::Crew;
use crate::report::Report;
use crate::tally::{evaluated_in, plain_at, take_parts};
use sel_base::{List, NoMemory};
use sel_closing::{Closed, close};
use std::alloc::Global;

impl<'c> Crew<'c> {
    /// Closes the table, and tells what it has and what was counted. The crew is given up, also where memory is refused.
    pub fn finish(self, alloc: Global) -> Result<Report, NoMemory>
        requires crew { IsCrew self }
        ensures report { IfOk result (IsReportOf self.entry) }
        ensures counted { IfOk result (λ report. (trees : List Tree) → AreValid (grammar_of self.entry) trees → HasAskedOnly trees self.entry → TellsCounted (grammar_of self.entry) (normal_of self.entry) (room_of self.entry) trees report) }
        ensures whole { IfOk result (λ report. (trees : List Tree) → AreValid (grammar_of self.entry) trees → HasAskedOnly trees self.entry → KeepsAll trees self.entry → TellsWhole (grammar_of self.entry) (room_of self.entry) trees report) }
        ensures plain { IfOk result (λ report. (trees : List Tree) → CountsPlainOf trees self.entry → TellsPlainNodes (grammar_of self.entry) trees report) }
    {
        let Crew {
            grammar: _,
            normal: _,
            options: _,
            rows,
            mut places,
        } = self;
        let plain_nodes = plain_at(places.as_slice());
        let mut parts = Vec::new(alloc);
        take_parts(places.as_mut_slice(), &mut parts)?;
        let evaluated = evaluated_in(parts.as_slice());
        let Closed { snapshot, marks } = close(rows, alloc, List::from_vec(parts))?;
        Ok(Report {
            evaluated,
            plain_nodes,
            row_full: marks.row_full,
            used_up: marks.used_up,
            snapshot: Some(snapshot),
        })
    }
}
