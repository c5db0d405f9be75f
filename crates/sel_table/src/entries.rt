//! The lines of a table, each read as a whole.

ghost use Rattle.std.specs.Prelude.{◌≡◌, ◌≤◌, ◌<◌, ℕ, Option, List, IfOk, MatchOption, length};
ghost use Rattle.std.specs.Fmt.{decimal};
ghost use Rattle.sel_table.specs.declared.entries.Head.{Head as AnyHead};
ghost use Rattle.sel_full.specs.Builds.{most_states};
ghost use Rattle.sel_full.specs.Forms.{IsFormItem, IsFormEntry, IsFormState};
ghost use Rattle.sel_full.specs.TableTexts.{item_text, entries_text, state_text};
ghost use Rattle.sel_table.specs.LineReading.{IsReadAs, IsTail, IsRow, IsHead, IsNumber, tail_text, own_text, first_line};

use crate::numbers::{GREATEST_COST, number, rule_number, signed};
use crate::parts::first_part;
use sel_base::{List, NoMemory, Pair};
use sel_full::key_count;
use sel_items::{Item, Items};
use sel_normal::Normal;
use std::alloc::Global;

/// The greatest number of a key that a text may have.
const GREATEST_NUMBER: u64 = 65_535;

/// How many states a table may have.
const MOST_STATES: u64 = 32_768;

/// How many keys a table may have.
const MOST_KEYS: usize = 1_048_576;

/// What stands behind the first comma of an entry.
#[derive(Clone, Copy, Debug)]
struct Tail {
    second: i64,
    rule: u16,
}

/// How many states and keys a table has.
#[derive(Clone, Copy, Debug)]
pub struct Head {
    pub states: usize,
    pub keys: usize,
}

/// The second number of a cost and the number of a rule, with a colon between them.
fn read_tail(bytes: &[u8], rules: u16) -> Option<Tail>
    ensures { IsReadAs (IsTail rules) tail_text bytes.now result }
{
    let cut = first_part(bytes, b':');
    let Some(second) = signed(cut.part) else {
        return None;
    };
    let Some(rest) = cut.rest else {
        return None;
    };
    let Some(rule) = rule_number(rest, rules) else {
        return None;
    };
    Some(Tail { second, rule })
}

/// The cost and the rule that the bytes spell.
fn item(bytes: &[u8], rules: u16) -> Option<Item>
    ensures { IsReadAs (IsFormItem rules) own_text bytes.now result }
{
    let cut = first_part(bytes, b',');
    let Some(first) = number(cut.part, GREATEST_COST) else {
        return None;
    };
    let Some(rest) = cut.rest else {
        return None;
    };
    let Some(tail) = read_tail(rest, rules) else {
        return None;
    };
    Some(Item {
        cost: Pair {
            first,
            second: tail.second,
        },
        rule: tail.rule,
    })
}

/// The entry that the bytes spell.
fn entry(bytes: &[u8], rules: u16) -> Option<Option<Item>>
    ensures { IsReadAs (IsFormEntry rules) item_text bytes.now result }
{
    if bytes == b"-".as_slice() {
        return Some(None);
    }
    match item(bytes, rules) {
        Some(item) => Some(Some(item)),
        None => None,
    }
}

fn full_row(row: Vec<Option<Item>>, width: usize) -> Option<List<Option<Item>>>
    ensures { MatchOption result (length row.items ≡ width → ⊥) (λ full. (length row.items ≡ width) × (full ≡ row.items)) }
{
    if row.len() == width {
        Some(List::from_vec(row))
    } else {
        None
    }
}

/// The entries that the line spells, where it is so many.
fn row(
    alloc: Global,
    line: &[u8],
    width: usize,
    rules: u16,
) -> Result<Option<List<Option<Item>>>, NoMemory>
    requires { 0 < width }
    ensures { IfOk result (IsReadAs (IsRow width rules) entries_text line.now) }
{
    let mut row = Vec::with_capacity(alloc, width)?;
    let mut rest = line;
    'parts: loop {
        let cut = first_part(rest, b' ');
        let Some(entry) = entry(cut.part, rules) else {
            return Ok(None);
        };
        row.push(entry)?;
        let Some(behind) = cut.rest else {
            return Ok(full_row(row, width));
        };
        if row.len() == width {
            return Ok(None);
        }
        rest = behind;
    }
}

/// The state that the line spells.
pub fn state(alloc: Global, normal: &Normal, line: &[u8]) -> Result<Option<Items>, NoMemory>
    ensures { IfOk result (IsReadAs (IsFormState normal.now) state_text line.now) }
{
    normal.is_standing();
    match row(alloc, line, normal.nonterminals() as usize, normal.rules())? {
        Some(entries) => Ok(Some(Items { entries })),
        None => Ok(None),
    }
}

/// The number that the line spells.
pub fn key_number(line: &[u8]) -> Option<u16>
    ensures { IsReadAs IsNumber decimal line.now result }
{
    match number(line, GREATEST_NUMBER) {
        Some(number) => Some(number as u16),
        None => None,
    }
}

/// How many keys there are over so many states, where neither is too much for a table.
fn head_over(normal: &Normal, states: usize) -> Option<Head>
    requires few { states ≤ most_states }
    ensures { MatchOption result ((head : AnyHead) → head.states ≡ states → IsHead normal.now head → ⊥) (λ head. (head.states ≡ states) × IsHead normal.now head) }
{
    let keys = key_count(normal, states);
    if states == 0 || keys > MOST_KEYS {
        None
    } else {
        Some(Head { states, keys })
    }
}

/// How many states the first line says, and how many keys there are over them.
pub fn read_head(normal: &Normal, line: &[u8]) -> Option<Head>
    ensures { IsReadAs (IsHead normal.now) first_line line.now result }
{
    let Some(digits) = line.strip_prefix(b"seltable 1 ") else {
        return None;
    };
    let Some(states) = number(digits, MOST_STATES) else {
        return None;
    };
    head_over(normal, states as usize)
}
