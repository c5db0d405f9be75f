// The taking away of an item set's least cost.
ghost use Rattle.std.specs.Prelude.{◌≡◌, ℕ, length, Some};
ghost use Rattle.sel_grammar.specs.Costs.{IsCheaper, ◌⊕◌};
ghost use Rattle.sel_items.specs.declared.items.Item.{Item};
ghost use Rattle.sel_items.specs.CostBounds.{AreBelow, IsBelow};
ghost use Rattle.sel_items.specs.Entries.{item_at, raised, IsReduced};
ghost use Rattle.sel_items.specs.LeastCosts.{LeastCost, WithEntry};

use crate::items::{Item, Items};
use crate::offers::{entry_of, is_cheaper};
use sel_base::{List, Pair};

/// The cost less another, part by part.
fn less(cost: Pair, least: Pair) -> Pair
    requires cost { IsBelow 50 cost }
    requires least { IsBelow 50 least }
    requires order { IsCheaper cost least → ⊥ }
    ensures { cost ≡ least ⊕ result }
{
    Pair {
        first: cost.first - least.first,
        second: cost.second - least.second,
    }
}

/// The least cost of the entries.
fn least_cost(entries: &[Option<Item>]) -> Option<Pair>
    ensures { LeastCost entries.now result }
{
    let mut least: Option<Pair> = None;
    for n in 0..entries.len() {
        least = with_entry(least, entry_of(entries, n));
    }
    least
}

fn with_entry(least: Option<Pair>, entry: Option<Item>) -> Option<Pair>
    ensures { WithEntry least entry result }
{
    match entry {
        None => least,
        Some(item) => match least {
            None => Some(item.cost),
            Some(least) => {
                if is_cheaper(item.cost, least) {
                    Some(item.cost)
                } else {
                    Some(least)
                }
            }
        },
    }
}

/// The entry with its cost less another.
fn reduced(entry: Option<Item>, least: Pair) -> Option<Item>
    requires least { IsBelow 50 least }
    requires entry { (item : Item) → entry ≡ Some item → IsBelow 50 item.cost × (IsCheaper item.cost least → ⊥) }
    ensures { entry ≡ raised least result }
{
    match entry {
        None => None,
        Some(item) => Some(Item {
            cost: less(item.cost, least),
            rule: item.rule,
        }),
    }
}

/// Takes the cost away from each entry.
fn take_away(entries: &mut List<Option<Item>>, least: Pair)
    requires least { IsBelow 50 least }
    requires entries { AreBelow 50 entries.old }
    requires order { (n : ℕ) (item : Item) → item_at entries.old n ≡ Some item → IsCheaper item.cost least → ⊥ }
    ensures long { length entries.new ≡ length entries.old }
    ensures raised { (n : ℕ) → item_at entries.old n ≡ raised least (item_at entries.new n) }
{
    let count = entries.len();
    for n in 0..count {
        let entry = entry_of(entries.as_slice(), n);
        let relative = reduced(entry, least);
        entries.set(n, relative);
    }
}

/// Takes the least cost away from every entry, and answers it. An item set without entries stays,
/// and gives (0,0).
pub fn relative(items: &mut Items) -> Pair
    requires { AreBelow 50 items.old.entries }
    ensures { IsReduced result items.old.entries items.new.entries }
{
    let least = least_cost(items.entries.as_slice());
    match least {
        None => Pair {
            first: 0,
            second: 0,
        },
        Some(least) => {
            take_away(&mut items.entries, least);
            least
        }
    }
}
