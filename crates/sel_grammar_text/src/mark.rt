//! Places in a text, counted from a mark on the way.

ghost use Rattle.std.specs.Prelude.{◌≡◌, ℕ, ◌<◌, ◌≤◌, List, [], ◌∷◌, ◌++◌, length, take, IfErr, OnOk};
ghost use Rattle.std.specs.List.{AllByRecursion};
ghost use Rattle.sel_grammar_text.specs.Places.{IsMark, IsPlaceBehind};

use crate::place::{Place, advance};
use sel_base::NoMemory;

/// A byte's number, from 0, and its line and column.
#[derive(Clone, Copy)]
pub struct Mark {
    pub at: usize,
    pub place: Place,
}

/// Adds a mark.
pub fn add_mark(marks: &mut Vec<Mark>, mark: Mark) -> Result<(), NoMemory>
    ensures ok { OnOk result (marks.new.items ≡ marks.old.items ++ mark ∷ []) }
    ensures err { IfErr result (λ _. marks.new.items ≡ marks.old.items) }
{
    marks.push(mark)?;
    Ok(())
}

/// The last mark that isn't behind a byte, or else the text's start.
fn mark_before(marks: &[Mark], at: usize) -> Mark
    ensures before { result.at ≤ at }
    ensures mark { (bytes : List ℕ) → AllByRecursion (IsMark bytes) marks.now → IsMark bytes result }
{
    let mut rest = marks;
    'marks: while let Some((mark, front)) = rest.split_last() {
        if mark.at <= at {
            return *mark;
        }
        rest = front;
    }
    Mark {
        at: 0,
        place: Place { line: 1, column: 1 },
    }
}

/// The bytes before a place, or all.
fn front(bytes: &[u8], at: usize) -> &[u8]
    ensures front { result.now ≡ take at bytes.now }
    ensures within { length result.now ≤ length bytes.now }
{
    if at < bytes.len() {
        &bytes[..at]
    } else {
        bytes
    }
}

/// The line and the column of a byte, counted from a mark. At any byte behind the text they are its end's.
fn place_from(bytes: &[u8], mark: Mark, at: usize) -> Place
    requires short { length bytes.now < 4294967295 }
    requires mark { IsMark bytes.now mark }
    requires before { mark.at ≤ at }
    ensures { IsPlaceBehind (take at bytes.now) result }
{
    let front = front(bytes, at);
    advance(mark.place, &front[mark.at..])
}

/// The line and the column of a byte, counted from the nearest mark. At any byte behind the text they
/// are its end's.
pub fn place_of(bytes: &[u8], marks: &[Mark], at: usize) -> Place
    requires short { length bytes.now < 4294967295 }
    requires marks { AllByRecursion (IsMark bytes.now) marks.now }
    ensures { IsPlaceBehind (take at bytes.now) result }
{
    place_from(bytes, mark_before(marks, at), at)
}
