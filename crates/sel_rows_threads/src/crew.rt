// A crew of passes, each in a thread of its own.
ghost use Rattle.std.specs.Prelude.{◌≡◌, ◌≤◌, ◌<◌, ℕ, length, IfOk};
ghost use Rattle.sel_grammar.specs.declared.grammar.Grammar.{Grammar};
ghost use Rattle.sel_forest.specs.Valid.{IsValidForest};
ghost use Rattle.sel_items.specs.Laws.{IsAcceptedForm};
ghost use Rattle.sel_law.specs.Words.{In};
ghost use Rattle.sel_rows.specs.Parts.{AreFresh, seats_of};
ghost use Rattle.sel_rows.specs.Tables.{IsPartOf, ArePartsOf, setting_of, view_of};
ghost use Rattle.sel_rows.specs.Told.{standing_of, told_of_pass};
ghost use Rattle.sel_rows_threads.specs.Reports.{AreReportsOf, IsReportOf};

use crate::reading::{Entries, read_forest};
use sel_base::{List, NoMemory, Steps};
use sel_forest::Forest;
use sel_normal::Normal;
use sel_rows::{Pass, PassPart, Rows, Snapshot};
use std::alloc::Global;
use std::marker::Brand;
use std::sync::ledger::{Blank, Ledger};
use std::thread;
use std::thread::Threads;

/// What became of a pass over all trees.
#[derive(Clone, Copy, PartialEq, Eq)]
pub enum Outcome {
    /// Each label means the item set that was wanted.
    Alike,
    Differs,
    NoMemory,
}

/// The part of a pass that has labelled the trees.
#[derive(Drop)]
pub struct Report {
    pub part: PassPart,
    pub outcome: Outcome,
}

fn compare<L: Ledger>(
    blank: Blank,
    pass: &mut Pass<'_>,
    alloc: Global,
    normal: &Normal,
    forest: &Forest,
    wanted: &[Entries],
) -> Outcome
    requires name { blank.name ≡ L.name }
    requires parts { blank.parts ≡ L.parts }
    requires one { 0 < blank.parts }
    requires normal { (told_of_pass pass.old).normal ≡ normal.now }
    requires forest { (g : Grammar) × IsAcceptedForm g normal.now × IsValidForest g forest.now }
    ensures { standing_of pass.new ≡ standing_of pass.old }
{
    let mut steps = Steps::<L>::new(blank);
    match read_forest(pass, alloc, normal, forest, &mut steps) {
        Err(_) => Outcome::NoMemory,
        Ok(read) => {
            if read.as_slice() == wanted {
                Outcome::Alike
            } else {
                Outcome::Differs
            }
        }
    }
}

// A pass over the part labels all trees.
fn label_all(
    rows: &Rows,
    alloc: Global,
    normal: &Normal,
    forest: &Forest,
    wanted: &[Entries],
    part: PassPart,
) -> Report
    requires part { IsPartOf rows.now part }
    requires normal { (setting_of rows.now).normal.value ≡ normal.now }
    requires forest { (g : Grammar) × IsAcceptedForm g normal.now × IsValidForest g forest.now }
    requires one_seat { (view_of part).seats ≡ 1 }
    ensures { IsReportOf rows.now result }
{
    let mut pass = Pass::new(rows, normal, part);
    let outcome = compare::<Brand>(Blank::new(1), &mut pass, alloc, normal, forest, wanted);
    Report {
        part: pass.part(),
        outcome,
    }
}

// Each part's pass labels all trees, in a thread of its own where one can be made.
fn label_at_once<R: Threads + Sync>(
    rt: &R,
    alloc: Global,
    rows: &Rows,
    normal: &Normal,
    forest: &Forest,
    wanted: &[Entries],
    parts: Vec<PassPart>,
) -> Result<Vec<Report>, NoMemory>
    requires parts { ArePartsOf rows.now parts.items }
    requires fresh { AreFresh parts.items }
    requires normal { (setting_of rows.now).normal.value ≡ normal.now }
    requires forest { (g : Grammar) × IsAcceptedForm g normal.now × IsValidForest g forest.now }
    ensures reports { IfOk result (λ reports. AreReportsOf rows.now reports.items) }
    ensures count { IfOk result (λ reports. length reports.items ≡ length parts.items) }
{
    let reports = thread::map_vec(
        rt,
        parts,
        &|part: PassPart| -> Report
            requires { IsPartOf rows.now part × ((view_of part).seats ≡ 1) × ((setting_of rows.now).normal.value ≡ normal.now) × ((g : Grammar) × IsAcceptedForm g normal.now × IsValidForest g forest.now) }
            ensures { IsReportOf rows.entry.now result }
        { label_all(rows, alloc, normal, forest, wanted, part) },
    )?;
    Ok(reports)
}

// The one that isn't as wanted, where there is one.
fn worse(a: Outcome, b: Outcome) -> Outcome {
    if a == Outcome::Alike { b } else { a }
}

// The parts of the reports, and whether all labels were as wanted.
fn gather(
    alloc: Global,
    rows: &Rows,
    reports: Vec<Report>,
) -> Result<(List<PassPart>, Outcome), NoMemory>
    requires reports { AreReportsOf rows.now reports.items }
    ensures of { IfOk result (λ t. ArePartsOf rows.now t.0) }
    ensures seats { IfOk result (λ t. seats_of t.0 ≡ length reports.items) }
{
    let mut reports = reports;
    let mut parts = Vec::new(alloc);
    let mut outcome = Outcome::Alike;
    while let Some(report) = reports.pop() {
        let Report {
            part,
            outcome: other,
        } = report;
        outcome = worse(outcome, other);
        parts.push(part)?;
    }
    Ok((List::from_vec(parts), outcome))
}

/// A table with this room is made for as many workers, who label the trees at once, and closed.
pub fn label_and_close<R: Threads + Sync>(
    rt: &R,
    alloc: Global,
    normal: &Normal,
    forest: &Forest,
    wanted: &[Entries],
    workers: u32,
    room: (u32, u32),
) -> Result<(Outcome, Snapshot), NoMemory>
    requires workers { 1 ≤ workers }
    requires states { room.0 ≤ 32768 }
    requires rows { room.1 ≤ 1048576 }
    requires forest { (g : Grammar) × IsAcceptedForm g normal.now × IsValidForest g forest.now }
{
    let (rows, parts) = Rows::new(alloc, normal, room.0, room.1, workers)?;
    let parts = parts.into_vec();
    let reports = label_at_once(rt, alloc, &rows, normal, forest, wanted, parts)?;
    let (parts, outcome) = gather(alloc, &rows, reports)?;
    let snapshot = rows.close(alloc, parts)?;
    Ok((outcome, snapshot))
}
