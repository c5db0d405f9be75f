//! How a table is made, with a part for each worker.
ghost use Rattle.std.specs.Prelude.{◌≡◌, ◌≤◌, [], length, IfOk};
ghost use Rattle.sel_law.specs.Kinds.{first_view};
ghost use Rattle.sel_rows.specs.Parts.{AreFresh, IsSettingOf};
ghost use Rattle.sel_rows.specs.Tables.{id_of, setting_of, IsPartOf, ArePartsOf, IsFirst};

use crate::part::PassPart;
use crate::rows::Rows;
use sel_base::{List, NoMemory};
use sel_law::{Setting, SharedWords, Worker};
use sel_normal::Normal;
use std::alloc::Global;
use std::snapshot::Snapshot;

/// The part of a table's first seat.
fn first_part(alloc: Global, rows: &Rows, seat: Worker) -> PassPart
    requires of { (seat.table_id ≡ id_of rows.now) × (seat.me ≡ (first_view (setting_of rows.now), [])) }
    ensures of { IsPartOf rows.now result }
    ensures first { IsFirst (setting_of rows.now) result }
{
    PassPart {
        alloc,
        seat,
        spare: None,
        used_up: false,
        row_full: false,
        evaluated: 0,
    }
}

/// Parts of the table, one for each worker, of the first one that has all seats to split.
fn split_all(
    alloc: Global,
    rows: &Rows,
    first: PassPart,
    workers: u32,
) -> Result<Vec<PassPart>, NoMemory>
    requires of { IsPartOf rows.now first }
    requires first { IsFirst (setting_of rows.now) first }
    requires workers { (1 ≤ workers) × (workers ≡ (setting_of rows.now).workers) }
    ensures of { IfOk result (λ parts. ArePartsOf rows.now parts.items) }
    ensures fresh { IfOk result (λ parts. AreFresh parts.items) }
    ensures count { IfOk result (λ parts. length parts.items ≡ workers) }
{
    let mut first = first;
    let mut parts = Vec::new(alloc);
    let mut left = workers - 1;
    while left > 0 {
        let (old, new) = first.split(rows);
        first = old;
        parts.push(new)?;
        left -= 1;
    }
    parts.push(first)?;
    Ok(parts)
}

impl Rows {
    /// A table with all words 0, and a part for each worker, none of which has a seat left to split.
    pub fn new(
        alloc: Global,
        normal: &Normal,
        states: u32,
        rows: u32,
        workers: u32,
    ) -> Result<(Rows, List<PassPart>), NoMemory>
        requires states { states ≤ 32768 }
        requires rows { rows ≤ 1048576 }
        requires workers { 1 ≤ workers }
        ensures setting { IfOk result (λ t. IsSettingOf (setting_of t.0) normal.now states rows workers) }
        ensures of { IfOk result (λ t. ArePartsOf t.0 t.1) }
        ensures fresh { IfOk result (λ t. AreFresh t.1) }
        ensures count { IfOk result (λ t. length t.1 ≡ workers) }
    {
        normal.is_standing();
        let setting = Setting {
            normal: Snapshot::of(normal),
            states: states as u64,
            rows: rows as u64,
            workers: workers as u64,
            width: normal.nonterminals() as u64,
        };
        let (words, seat) = SharedWords::new(alloc, setting)?;
        let table = Rows { words };
        let first = first_part(alloc, &table, seat);
        let parts = split_all(alloc, &table, first, workers)?;
        Ok((table, List::from_vec(parts)))
    }
}
