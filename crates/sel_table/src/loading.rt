//! Texts of tables, loaded.

ghost use Rattle.std.specs.Prelude.{◌≡◌, ◌+◌, ◌≤◌, ◌<◌, IfErr, IfOk, length};
ghost use Rattle.sel_full.specs.Builds.{most_states};
ghost use Rattle.sel_table.specs.LineReading.{IsInside};
ghost use Rattle.sel_table.specs.Loading.{Spells, IsLoaded, IsLoadRefusal, IsFormRefusal, placed};

use crate::kinds::{NUMBER, STATES};
use crate::lines::{Lines, wrong};
use crate::refusal::{LoadFault, LoadRefusal};
use sel_full::{Table, TableFault, TableRefusal, judge};
use sel_normal::Normal;
use std::alloc::Global;

/// The table that the text spells.
fn spelled(alloc: Global, normal: &Normal, bytes: &[u8]) -> Result<Table, LoadRefusal>
    requires short { length bytes.now < 4294967295 }
    ensures ok { IfOk result (Spells normal.now bytes.now) }
    ensures fault { IfErr result (IsFormRefusal normal.now bytes.now) }
{
    normal.is_standing();
    let mut lines = Lines {
        rest: bytes,
        taken: 0,
    };
    let head = match lines.head(normal) {
        Ok(head) => head,
        Err(refusal) => return Err(refusal),
    };
    let states = match lines.states(alloc, normal, head.states) {
        Ok(states) => states,
        Err(refusal) => return Err(refusal),
    };
    let numbers = match lines.numbers(alloc, head.keys) {
        Ok(numbers) => numbers,
        Err(refusal) => return Err(refusal),
    };
    if !lines.rest.is_empty() {
        return Err(wrong(lines.taken + 1));
    }
    Ok(Table { states, numbers })
}

/// Where the fault of a table of so many states stands.
fn placed(states: usize, fault: TableFault) -> LoadFault
    requires few { states ≤ most_states }
    requires inside { IsInside fault }
    ensures { result ≡ placed states fault }
{
    match fault {
        TableFault::State(number) => LoadFault {
            kind: STATES,
            line: number as u32 + 2,
        },
        TableFault::Number(place) => LoadFault {
            kind: NUMBER,
            line: (states + place) as u32 + 2,
        },
    }
}

/// The table that the text spells, where it is lawful under the normal form. A table from elsewhere, or one
/// that was edited, is believed only after each number was computed anew. It gives back a complete table
/// that was printed.
///
/// The text has the form that `print_table` gives, with no more states, keys and costs than any table may
/// have. It is judged whole before anything else (`kinds::FORM`); then the states are, in their order, and
/// then the numbers.
pub fn load(alloc: Global, normal: &Normal, bytes: &[u8]) -> Result<Table, LoadRefusal>
    requires short { length bytes.now < 4294967295 }
    ensures loaded { IfOk result (IsLoaded normal.now bytes.now) }
    ensures fault { IfErr result (IsLoadRefusal normal.now bytes.now) }
{
    let table = match spelled(alloc, normal, bytes) {
        Ok(table) => table,
        Err(refusal) => return Err(refusal),
    };
    match judge(alloc, normal, &table) {
        Ok(()) => Ok(table),
        Err(TableRefusal::Fault(fault)) => Err(LoadRefusal::Fault(placed(
            table.states.len(),
            fault,
        ))),
        Err(TableRefusal::NoMemory) => Err(LoadRefusal::NoMemory),
    }
}
