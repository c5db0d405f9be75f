// Words of entries, and item sets that fit them.
ghost use Rattle.std.specs.Prelude.{IsTrue};
ghost use Rattle.sel_items.specs.Words.{IsPackable};

use crate::stop::Stop;
use sel_base::{List, Pair};
use sel_items::{Item, Items, fits, pack, unpack};
use sel_sheet::{Row, words_of};
use std::alloc::Global;

fn is_packable(entry: Option<Item>) -> bool
    ensures { IsTrue result → IsPackable entry }
{
    match entry {
        None => true,
        Some(item) => {
            item.cost.first < 268_435_456
                && -524_288 <= item.cost.second
                && item.cost.second < 524_288
                && item.rule < 65_535
        }
    }
}

fn numbers_of(first: &str, second: &str, rule: &str) -> Option<Item> {
    let first = first.parse::<u64>().ok()?;
    let second = second.parse::<i64>().ok()?;
    let rule = rule.parse::<u16>().ok()?;
    Some(Item {
        cost: Pair { first, second },
        rule,
    })
}

/// The word of the row's entry, `FIRST SECOND RULE` or none, from which it is found again.
pub fn packed(alloc: Global, row: &Row<'_>) -> Result<String, Stop> {
    let words = words_of(alloc, row.words)?;
    let entry = match words.as_slice() {
        [] => None,
        [first, second, rule] => numbers_of(first.as_str(), second.as_str(), rule.as_str()),
        _ => return Err(Stop::Unfit("no entry")),
    };
    if !is_packable(entry) {
        return Err(Stop::Unfit("it has no word"));
    }
    let word = pack(entry);
    if unpack(word) != entry {
        return Err(Stop::Unfit("it isn't found again"));
    }
    Ok(format!(in alloc; "{word}\n")?)
}

// The entries, each `FIRST SECOND RULE` or `-`.
fn entries_of(alloc: Global, words: &[String]) -> Result<Vec<Option<Item>>, Stop> {
    let mut entries = Vec::new(alloc);
    let mut numbers: Vec<&str> = Vec::new(alloc);
    for word in words {
        if word.as_str() == "-" {
            entries.push(None)?;
        } else {
            numbers.push(word.as_str())?;
        }
        if let [first, second, rule] = numbers.as_slice() {
            let Some(item) = numbers_of(first, second, rule) else {
                return Err(Stop::Unfit("no entry"));
            };
            entries.push(Some(item))?;
            numbers.clear();
        }
    }
    Ok(entries)
}

/// Whether the item set of the row's entries fits words.
pub fn fit(alloc: Global, row: &Row<'_>) -> Result<String, Stop> {
    let words = words_of(alloc, row.words)?;
    let items = Items {
        entries: List::from_vec(entries_of(alloc, words.as_slice())?),
    };
    let told = if fits(&items) {
        "fits\n"
    } else {
        "doesn't fit\n"
    };
    Ok(String::from_str(alloc, told)?)
}
