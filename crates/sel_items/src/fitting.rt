// Which item sets fit words.
ghost use Rattle.std.specs.Prelude.{◌≡◌, ◌↔◌, IsTrue, Some};
ghost use Rattle.sel_items.specs.declared.items.Item.{Item};
ghost use Rattle.sel_items.specs.Words.{FitsWord, FitsWords};

use crate::items::{Item, Items};
use crate::offers::entry_of;
use sel_base::Pair;

fn fits_cost(cost: Pair) -> bool
    ensures { IsTrue result ↔ FitsWord cost }
{
    cost.first < 268_435_456 && -524_288 <= cost.second && cost.second <= 524_287
}

fn fits_entry(entry: Option<Item>) -> bool
    ensures { IsTrue result ↔ ((item : Item) → entry ≡ Some item → FitsWord item.cost) }
{
    match entry {
        None => true,
        Some(item) => fits_cost(item.cost),
    }
}

/// Whether each entry fits a word: its first number is below 268,435,456, and its second one is from
/// -524,288 to 524,287.
pub fn fits(items: &Items) -> bool
    ensures { IsTrue result ↔ FitsWords items.now }
{
    let count = items.entries.len();
    for n in 0..count {
        let entry = entry_of(items.entries.as_slice(), n);
        if !fits_entry(entry) {
            return false;
        }
    }
    true
}
