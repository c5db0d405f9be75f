// What rules offer to the entries of an item set.
ghost use Rattle.std.specs.Prelude.{◌≡◌, ◌<◌, ◌↔◌, true, false, IsTrue, length};
ghost use Rattle.sel_grammar.specs.Costs.{IsCheaper, ◌⊕◌, paid};
ghost use Rattle.sel_items.specs.Entries.{item_at, NoLater};
ghost use Rattle.sel_items.specs.CostBounds.{IsBelow};
ghost use Rattle.sel_items.specs.Evaluating.{IsBelowIn};
ghost use Rattle.sel_items.specs.Offers.{offer_for, Stands, IsBettered, IsCheap};

use crate::items::Item;
use sel_base::{List, Pair};
use sel_grammar::RuleCost;

/// Whether the first cost is less than the second.
pub fn is_cheaper(a: Pair, b: Pair) -> bool
    ensures { IsTrue result ↔ IsCheaper a b }
{
    a.first < b.first || (a.first == b.first && a.second < b.second)
}

fn is_no_later(entry: Item, other: Item) -> bool
    ensures { IsTrue result ↔ NoLater entry.cost entry.rule other.cost other.rule }
{
    is_cheaper(entry.cost, other.cost) || (entry.cost == other.cost && entry.rule <= other.rule)
}

pub fn entry_of(row: &[Option<Item>], nonterminal: usize) -> Option<Item>
    ensures { result ≡ item_at row.now nonterminal }
{
    match row.get(nonterminal) {
        Some(entry) => *entry,
        None => None,
    }
}

fn with_price(price: RuleCost, cost: Pair) -> Pair
    requires { IsBelow 49 cost }
    ensures { result ≡ paid price ⊕ cost }
{
    Pair {
        first: price.first as u64 + cost.first,
        second: price.second as i64 + cost.second,
    }
}

/// What the rule of this number offers to its left side, where its kids have a cost.
pub fn offer_of(price: RuleCost, number: u16, cost: Option<Pair>) -> Option<Item>
    requires { IsBelowIn 49 cost }
    ensures offer { result ≡ offer_for price number cost }
    ensures cheap { IsCheap price }
{
    match cost {
        None => None,
        Some(cost) => Some(Item {
            cost: with_price(price, cost),
            rule: number,
        }),
    }
}

/// Whether the row takes the offer.
pub fn improve(row: &mut List<Option<Item>>, left: u16, offer: Option<Item>) -> bool
    requires { left < length row.old }
    ensures stays { result ≡ false → row.new ≡ row.old }
    ensures stands { result ≡ false → Stands (item_at row.old left) offer }
    ensures bettered { result ≡ true → IsBettered left offer row.old row.new }
{
    match offer {
        None => false,
        Some(item) => {
            let old = entry_of(row.as_slice(), left as usize);
            match old {
                Some(old) => {
                    if is_no_later(old, item) {
                        false
                    } else {
                        row.set(left as usize, Some(item));
                        true
                    }
                }
                None => {
                    row.set(left as usize, Some(item));
                    true
                }
            }
        }
    }
}
