//! The end of a table.
ghost use Rattle.std.specs.Prelude.{◌≡◌, IfOk};
ghost use Rattle.std.specs.List.{list_any};
ghost use Rattle.sel_normal.specs.NormalForms.{NormalForm};
ghost use Rattle.sel_rows.specs.Closing.{IsClosedBy};
ghost use Rattle.sel_rows.specs.Parts.{seats_of, part_used_up, part_row_full, IsSettingOf};
ghost use Rattle.sel_rows.specs.Tables.{setting_of, ArePartsOf};
ghost use Rattle.sel_closing.specs.Asking.{AreMarksOf};
ghost use Rattle.sel_closing.specs.Closings.{TellsOfTrees};
ghost use Rattle.sel_closing.specs.SnapshotTables.{Room};

use sel_base::{List, NoMemory};
use sel_rows::{PassPart, Rows, Snapshot};
use std::alloc::Global;

/// Whether one of a table's parts drew no number where a state asked for one, and whether one found no place for a key.
#[derive(Clone, Copy)]
pub struct Marks {
    pub used_up: bool,
    pub row_full: bool,
}

fn any_used_up(parts: &[PassPart]) -> bool
    ensures { result ≡ list_any part_used_up parts.now }
{
    parts.iter().any(|part| part.used_up())
}

fn any_row_full(parts: &[PassPart]) -> bool
    ensures { result ≡ list_any part_row_full parts.now }
{
    parts.iter().any(|part| part.row_full())
}

/// The marks of the parts together.
pub fn marks_of(parts: &[PassPart]) -> Marks
    ensures { AreMarksOf parts.now result.used_up result.row_full }
{
    Marks {
        used_up: any_used_up(parts),
        row_full: any_row_full(parts),
    }
}

/// The states and transitions of a closed table, and the marks of its parts.
#[derive(Drop)]
pub struct Closed {
    pub snapshot: Snapshot,
    pub marks: Marks,
}

/// Closes the table with all of its parts, which are given up, also where memory is refused.
pub fn close(rows: Rows, alloc: Global, parts: List<PassPart>) -> Result<Closed, NoMemory>
    requires of { ArePartsOf rows parts }
    requires seats { seats_of parts ≡ (setting_of rows).workers }
    ensures closed { IfOk result (λ closed. IsClosedBy (setting_of rows) parts closed.snapshot) }
    ensures marks { IfOk result (λ closed. AreMarksOf parts closed.marks.used_up closed.marks.row_full) }
    ensures tells { IfOk result (λ closed. (normal : NormalForm) (room : Room) → IsSettingOf (setting_of rows) normal room.states room.keys room.workers
        → TellsOfTrees normal room parts closed.snapshot closed.marks.used_up closed.marks.row_full) }
{
    let marks = marks_of(parts.as_slice());
    let snapshot = rows.close(alloc, parts)?;
    Ok(Closed { snapshot, marks })
}
