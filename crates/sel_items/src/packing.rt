// Entries of item sets as words of 64 bits, as tables of states keep them.
ghost use Rattle.std.specs.Prelude.{◌≡◌, Option};
ghost use Rattle.sel_items.specs.declared.items.Item.{Item};
ghost use Rattle.sel_items.specs.Unpacking.{unpacked};
ghost use Rattle.sel_items.specs.Words.{IsPackable, IsWordOf};

use crate::items::Item;
use sel_base::Pair;

/// The entry's word. From the lowest bit it has 16 bits for the rule's number plus 1, 20 bits for the
/// second number of the cost plus 2^19, and 28 bits for the first. No entry is the word 0.
pub fn pack(entry: Option<Item>) -> u64
    requires { IsPackable entry }
    ensures { IsWordOf entry result }
{
    match entry {
        None => 0,
        Some(item) => {
            let second = (item.cost.second + 524_288) as u64;
            (item.cost.first << 36) + (second << 16) + (item.rule as u64 + 1)
        }
    }
}

/// The entry that a word says. Each entry that has a word is found again from it.
pub fn unpack(word: u64) -> Option<Item>
    ensures is { result ≡ unpacked word }
    ensures again { (entry : Option Item) → IsPackable entry → IsWordOf entry word → result ≡ entry }
{
    let rule = (word & 0xffff) as u16;
    if rule == 0 {
        return None;
    }
    let second = ((word >> 16) & 0xf_ffff) as i64;
    Some(Item {
        cost: Pair {
            first: word >> 36,
            second: second - 524_288,
        },
        rule: rule - 1,
    })
}
