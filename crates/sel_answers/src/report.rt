// What a report tells of its table.
ghost use Rattle.std.specs.Prelude.{◌≡◌, ◌++◌, Option, OnOk};
ghost use Rattle.sel_answers.specs.Output.{counts_text, marks_text};
ghost use Rattle.sel_answers.specs.Reported.{state_count, key_count, report_text};

use crate::sums::put_count;
use sel_base::NoMemory;
use sel_base::text::put;
use sel_crew::Report;
use sel_rows::Snapshot;

// How many states and keys the table has; 0 where there is no table.
fn counts_of(snapshot: &Option<Snapshot>) -> (u64, u64)
    ensures { result ≡ (state_count snapshot.now, key_count snapshot.now) }
{
    match snapshot {
        Some(table) => (
            table.states().len() as u64,
            table.transitions().len() as u64,
        ),
        None => (0, 0),
    }
}

fn put_counts(text: &mut Vec<u8>, states: u64, keys: u64) -> Result<(), NoMemory>
    ensures { OnOk result (text.new.items ≡ text.old.items ++ counts_text states keys) }
{
    put_count(text, b"states ", states)?;
    put_count(text, b"keys ", keys)
}

fn put_marks(text: &mut Vec<u8>, used_up: bool, row_full: bool) -> Result<(), NoMemory>
    ensures { OnOk result (text.new.items ≡ text.old.items ++ marks_text used_up row_full) }
{
    if used_up {
        put(text, b"used up\n")?;
    }
    if row_full {
        put(text, b"row full\n")?;
    }
    Ok(())
}

/// Puts how many states and keys the report's table has, or its marks, where one is set.
pub fn put_report(text: &mut Vec<u8>, report: &Report) -> Result<(), NoMemory>
    ensures { OnOk result (text.new.items ≡ text.old.items ++ report_text report.now) }
{
    match (report.used_up, report.row_full) {
        (false, false) => {
            let (states, keys) = counts_of(&report.snapshot);
            put_counts(text, states, keys)
        }
        (used_up, row_full) => put_marks(text, used_up, row_full),
    }
}
