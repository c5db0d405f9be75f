//! Workers that answer batches of trees over one table.
ghost use Rattle.std.specs.Prelude.{◌+◌, ◌<◌, ◌^◌, ◌++◌, [], List, length, IfOk, OnOk};
ghost use Rattle.sel_forest.specs.declared.forest.Tree.{Tree as AnyTree};
ghost use Rattle.sel_items.specs.Laws.{IsAcceptedForm};
ghost use Rattle.sel_count.specs.Things.{AreValid};
ghost use Rattle.sel_crew.specs.Answers.{AreAnswersOf};
ghost use Rattle.sel_crew.specs.Crews.{grammar_of, IsCrew, IsBegunWith, IsNewCrew, HasAskedOnly, KeepsAll, CountsPlainOf, IsSameCrew, KeepsMarks, AsksOnlyMore, KeepsMore, CountsMore};
ghost use Rattle.sel_crew.specs.Options.{AreLawful};

use crate::batch::answer_at;
use crate::making::place_all;
use crate::options::Options;
use crate::place::Place;
use sel_base::{Gate, List, NoMemory};
use sel_forest::Tree;
use sel_grammar::Grammar;
use sel_normal::Normal;
use sel_rows::Rows;
use sel_work::{Answer, Goal};
use std::alloc::Global;
use std::thread::Threads;

/// Workers, and the table that they share.
#[derive(Drop)]
pub struct Crew<'c> {
    pub(crate) grammar: &'c Grammar,
    pub(crate) normal: &'c Normal,
    pub(crate) options: Options,
    pub(crate) rows: Rows,
    pub(crate) places: Vec<Place>,
}

impl<'c> Crew<'c> {
    /// A table without states, and so many workers, which have answered nothing yet.
    pub fn begin(
        alloc: Global,
        grammar: &'c Grammar,
        normal: &'c Normal,
        options: Options,
    ) -> Result<Crew<'c>, NoMemory>
        requires form { IsAcceptedForm grammar.now normal.now }
        requires options { AreLawful options }
        ensures crew { IfOk result IsCrew }
        ensures begun { IfOk result (IsBegunWith grammar.now normal.now options) }
        ensures new { IfOk result IsNewCrew }
        ensures asked { IfOk result (HasAskedOnly []) }
        ensures kept { IfOk result (KeepsAll []) }
        ensures counted { IfOk result (CountsPlainOf []) }
    {
        let (rows, parts) = Rows::new(
            alloc,
            normal,
            options.states,
            options.rows,
            options.workers,
        )?;
        let places = place_all(alloc, &rows, parts)?;
        Ok(Crew {
            grammar,
            normal,
            options,
            rows,
            places,
        })
    }

    /// The answers of the trees, in their order. The gate is passed round each tree, with the worker's number and the
    /// tree's, which is `first` for the first one. All workers have ended when this answers. After want of memory the
    /// crew may be asked again.
    pub fn answer<Rt: Threads + Sync, G: Gate + Sync>(
        &mut self,
        rt: &Rt,
        alloc: Global,
        trees: &[Tree],
        first: u32,
        goal: Goal,
        gate: &G,
    ) -> Result<List<Answer>, NoMemory>
        requires crew { IsCrew self.old }
        requires trees { AreValid (grammar_of self.old) trees.now }
        requires last { first + length trees.now < 2 ^ 32 }
        ensures crew { IsCrew self.new }
        ensures begun { IsSameCrew self.old self.new }
        ensures answers { IfOk result (AreAnswersOf (grammar_of self.old) goal trees.now) }
        ensures marks { KeepsMarks self.old self.new }
        ensures asked { AsksOnlyMore trees.now self.old self.new }
        ensures kept { KeepsMore [] self.old self.new }
        ensures answered { OnOk result (KeepsMore trees.now self.old self.new) }
        ensures counted { OnOk result (CountsMore trees.now self.old self.new) }
    {
        answer_at(
            rt,
            alloc,
            self.grammar,
            self.normal,
            &self.rows,
            self.places.as_mut_slice(),
            trees,
            first,
            goal,
            gate,
        )
    }
}
