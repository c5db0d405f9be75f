//! The lines of a certificate, each read as a whole.

ghost use Rattle.std.specs.Prelude.{◌≡◌, ◌↔◌, ◌≤◌, ◌<◌, ◌+◌, ◌^◌, ℕ, Option, List, IsTrue, IfOk, IfSome, MatchOption, length};
ghost use Rattle.std.specs.Fmt.{decimal};
ghost use Rattle.sel_grammar.specs.Costs.{Cost};
ghost use Rattle.sel_grammar.specs.SmallCosts.{IsSmall};
ghost use Rattle.sel_check.specs.CertificateTexts.{greatest_claim, entry_text, row_line, cover_line, tree_line};
ghost use Rattle.sel_check.specs.LineReading.{IsReadAs, AreNumbers, numbers_text, pair_text};
ghost use Rattle.sel_check.specs.WantedLines.{IsEntry, IsRow, AreRules};

use crate::numbers::number;
use crate::parts::first_part;
use itoa::Buffer;
use sel_base::{List, NoMemory, Pair};
use std::alloc::Global;

/// The greatest number of a cost that a text may have.
const GREATEST_CLAIM: u64 = 999_999_999_999;

/// The greatest number of a rule that a text may have.
const GREATEST_RULE: u64 = 65_535;

/// Whether the line is the title of the tree with this number.
pub fn is_title(line: &[u8], tree: u32) -> bool
    ensures { IsTrue result ↔ (line.now ≡ tree_line tree) }
{
    let mut buffer = Buffer::new();
    match line.strip_prefix(b"tree ") {
        Some(rest) => rest == buffer.format(tree).as_bytes(),
        None => false,
    }
}

/// The cost that two numbers with a comma between them spell.
fn pair(bytes: &[u8]) -> Option<Pair>
    ensures { IsReadAs (IsSmall greatest_claim) pair_text bytes.now result }
{
    let cut = first_part(bytes, b',');
    let Some(first) = number(cut.part, GREATEST_CLAIM) else {
        return None;
    };
    let Some(rest) = cut.rest else {
        return None;
    };
    let Some(second) = number(rest, GREATEST_CLAIM) else {
        return None;
    };
    Some(Pair {
        first,
        second: second as i64,
    })
}

/// The entry that the bytes spell.
fn entry(bytes: &[u8]) -> Option<Option<Pair>>
    ensures { IsReadAs IsEntry entry_text bytes.now result }
{
    if bytes == b"-".as_slice() {
        return Some(None);
    }
    match pair(bytes) {
        Some(cost) => Some(Some(cost)),
        None => None,
    }
}

/// The entries that the line spells, where it is so many.
pub fn row(alloc: Global, line: &[u8], width: usize) -> Result<Option<List<Option<Pair>>>, NoMemory>
    requires { 0 < width }
    ensures { IfOk result (IsReadAs (IsRow width) row_line line.now) }
{
    let mut row = Vec::with_capacity(alloc, width)?;
    let mut rest = line;
    'parts: loop {
        let cut = first_part(rest, b' ');
        let Some(entry) = entry(cut.part) else {
            return Ok(None);
        };
        row.push(entry)?;
        let Some(behind) = cut.rest else {
            return Ok(full_row(row, width));
        };
        if row.len() == width {
            return Ok(None);
        }
        rest = behind;
    }
}

fn full_row(row: Vec<Option<Pair>>, width: usize) -> Option<List<Option<Pair>>>
    ensures { MatchOption result (length row.items ≡ width → ⊥) (λ full. (length row.items ≡ width) × (full ≡ row.items)) }
{
    if row.len() == width {
        Some(List::from_vec(row))
    } else {
        None
    }
}

/// The numbers that the bytes spell, one or more.
fn numbers(alloc: Global, bytes: &[u8]) -> Result<Option<List<u16>>, NoMemory>
    ensures read { IfOk result (IsReadAs AreNumbers numbers_text bytes.now) }
    ensures few { IfOk result (λ read. IfSome read (λ numbers. length numbers ≤ length bytes.now + 1)) }
{
    let mut numbers = Vec::new(alloc);
    let mut rest = bytes;
    'parts: loop {
        let cut = first_part(rest, b' ');
        let Some(rule) = number(cut.part, GREATEST_RULE) else {
            return Ok(None);
        };
        numbers.push(rule as u16)?;
        let Some(behind) = cut.rest else {
            return Ok(Some(List::from_vec(numbers)));
        };
        rest = behind;
    }
}

/// The rules that the line spells, or that there are none.
pub fn rules(alloc: Global, line: &[u8]) -> Result<Option<Option<List<u16>>>, NoMemory>
    ensures read { IfOk result (IsReadAs AreRules cover_line line.now) }
    ensures few { IfOk result (λ read. IfSome read (λ rules. IfSome rules (λ numbers. length numbers ≤ length line.now + 1))) }
{
    if line == b"no cover".as_slice() {
        return Ok(Some(None));
    }
    let Some(listed) = line.strip_prefix(b"cover ") else {
        return Ok(None);
    };
    match numbers(alloc, listed)? {
        Some(numbers) => Ok(Some(Some(numbers))),
        None => Ok(None),
    }
}
