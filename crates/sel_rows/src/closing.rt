//! How a table is closed.
ghost use Rattle.std.specs.Prelude.{◌≡◌, ◌+◌, ◌≤◌, [], List, IfOk};
ghost use Rattle.sel_law.specs.declared.Setting.{Setting};
ghost use Rattle.sel_law.specs.declared.Ask.{Ask};
ghost use Rattle.sel_law.specs.Words.{In};
ghost use Rattle.sel_rows.specs.Parts.{AllOf, seats_of, Within, AllWithin, AskedIn};
ghost use Rattle.sel_rows.specs.Snapshots.{IsSnapshotOf};
ghost use Rattle.sel_rows.specs.SnapshotLaws.{IsLawfulSnapshot};
ghost use Rattle.sel_rows.specs.Tables.{setting_of, ArePartsOf};
ghost use Rattle.sel_rows.specs.Closing.{AreClosedWords, IsClosedBy};

use crate::part::PassPart;
use crate::reading::{order_by_number, read_states, read_transitions};
use crate::rows::Rows;
use crate::snapshot::Snapshot;
use sel_base::{List, NoMemory};
use sel_law::{SharedWords, Worker};
use std::alloc::Global;

/// Every seat of the parts, in the first one.
fn join_all(rows: &SharedWords, first: Worker, mut parts: Vec<PassPart>) -> Worker
    requires first { (first.table_id ≡ rows.now.table.shared.table_id) × (first.me.1 ≡ []) × (1 ≤ first.me.0.seats) }
    requires parts { AllOf rows.now.table.shared.table_id rows.now.table.shared.key parts.items }
    ensures of { (result.table_id ≡ rows.now.table.shared.table_id) × (result.me.1 ≡ []) }
    ensures seats { result.me.0.seats ≡ first.me.0.seats + seats_of parts.items }
    ensures within { Within first.me.0 result.me.0 × AllWithin parts.items result.me.0 }
    ensures only { (b : Ask) → In b result.me.0.asked → AskedIn first.me.0 parts.items b }
{
    let mut seat = first;
    while let Some(part) = parts.pop() {
        let PassPart {
            alloc: _,
            seat: other,
            spare: _,
            used_up: _,
            row_full: _,
            evaluated: _,
        } = part;
        rows.join(&mut seat, other);
    }
    seat
}

/// What the words of a closed table say.
fn read_snapshot(
    alloc: Global,
    words: &[u64],
    states: usize,
    rows: usize,
    width: usize,
) -> Result<Snapshot, NoMemory>
    requires lawful { (z : Setting) × AreClosedWords z words.now states rows width }
    ensures { IfOk result (λ s. (z : Setting) → AreClosedWords z words.now states rows width → IsSnapshotOf z words.now s) }
{
    let first = 1 + 2 * states;
    let found = order_by_number(alloc, words, states)?;
    let transitions = read_transitions(alloc, words, first, rows)?;
    let states = read_states(alloc, words, found.as_slice(), first + rows, width)?;
    Ok(Snapshot {
        states,
        transitions,
    })
}

impl Rows {
    /// The states and transitions that were published. The table and its parts are given up, also where memory
    /// is refused.
    pub fn close(self, alloc: Global, parts: List<PassPart>) -> Result<Snapshot, NoMemory>
        requires of { ArePartsOf self parts }
        requires seats { seats_of parts ≡ (setting_of self).workers }
        ensures closed { IfOk result (λ s. IsClosedBy (setting_of self) parts s) }
        ensures lawful { IfOk result (λ s. IsLawfulSnapshot (setting_of self) parts s) }
    {
        let Rows { words } = self;
        let states = words.states as usize;
        let rows = words.rows as usize;
        let width = words.width as usize;
        let mut parts = parts.into_vec();
        match parts.pop() {
            None => unreachable!(),
            Some(part) => {
                let PassPart {
                    alloc: _,
                    seat,
                    spare: _,
                    used_up: _,
                    row_full: _,
                    evaluated: _,
                } = part;
                let seat = join_all(&words, seat, parts);
                let closed = words.close(alloc, seat)?;
                read_snapshot(alloc, closed.as_slice(), states, rows, width)
            }
        }
    }
}
