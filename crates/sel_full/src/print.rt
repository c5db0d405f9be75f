//! Tables printed as text.

ghost use Rattle.std.specs.Prelude.{◌≡◌, ◌++◌, ◌∷◌, [], ℕ, List, flat_map, map, codes, IfOk, OnOk};
ghost use Rattle.std.specs.Fmt.{decimal};
ghost use Rattle.sel_full.specs.TableTexts.{item_text, entries_text, state_text, lines_text, table_text};

use crate::table::Table;
use sel_base::text::{put, put_number, put_signed};
use sel_base::{List, NoMemory};
use sel_items::{Item, Items};
use std::alloc::Global;

fn put_item(text: &mut Vec<u8>, item: Item) -> Result<(), NoMemory>
    ensures { OnOk result (text.new.items ≡ text.old.items ++ item_text (Some item)) }
{
    put_number(text, item.cost.first)?;
    put(text, b",")?;
    put_signed(text, item.cost.second)?;
    put(text, b":")?;
    put_number(text, item.rule as u64)
}

fn put_entry(text: &mut Vec<u8>, entry: Option<Item>) -> Result<(), NoMemory>
    ensures { OnOk result (text.new.items ≡ text.old.items ++ item_text entry) }
{
    match entry {
        None => put(text, b"-"),
        Some(item) => put_item(text, item),
    }
}

/// Puts entries behind the text, each behind a space.
fn put_entries(text: &mut Vec<u8>, entries: &[Option<Item>]) -> Result<(), NoMemory>
    ensures { OnOk result (text.new.items ≡ text.old.items ++ flat_map (λ x. codes " " ++ item_text x) entries.now) }
{
    for entry in entries {
        put(text, b" ")?;
        put_entry(text, *entry)?;
    }
    Ok(())
}

/// Puts the line of an item set's entries.
fn put_row(text: &mut Vec<u8>, row: &[Option<Item>]) -> Result<(), NoMemory>
    ensures { OnOk result (text.new.items ≡ text.old.items ++ (entries_text row.now ++ codes "\n")) }
{
    if let Some((first, rest)) = row.split_first() {
        put_entry(text, *first)?;
        put_entries(text, rest)?;
    }
    put(text, b"\n")
}

fn put_states(text: &mut Vec<u8>, states: &[Items]) -> Result<(), NoMemory>
    ensures { OnOk result (text.new.items ≡ text.old.items ++ lines_text (map state_text states.now)) }
{
    for items in states {
        put_row(text, items.entries.as_slice())?;
    }
    Ok(())
}

fn put_numbers(text: &mut Vec<u8>, numbers: &[u16]) -> Result<(), NoMemory>
    ensures { OnOk result (text.new.items ≡ text.old.items ++ lines_text (map decimal numbers.now)) }
{
    for number in numbers {
        put_number(text, *number as u64)?;
        put(text, b"\n")?;
    }
    Ok(())
}

/// The text of a table. Its first line is `seltable 1` and how many states there are. Then each state has
/// a line with an entry for each normal nonterminal, and each key, in the order of keys, a line with its
/// number.
pub fn print_table(alloc: Global, table: &Table) -> Result<List<u8>, NoMemory>
    ensures { IfOk result (λ text. text ≡ table_text table.now) }
{
    let mut text = Vec::new(alloc);
    put(&mut text, b"seltable 1 ")?;
    put_number(&mut text, table.states.len() as u64)?;
    put(&mut text, b"\n")?;
    put_states(&mut text, table.states.as_slice())?;
    put_numbers(&mut text, table.numbers.as_slice())?;
    Ok(List::from_vec(text))
}
