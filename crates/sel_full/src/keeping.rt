// Item sets kept as states, where there may be so many.
ghost use Rattle.std.specs.Prelude.{◌≡◌, ◌<◌, ◌≤◌, ◌^◌, ◌++◌, ◌∷◌, [], List, true, false, length, OnOk, IfOk, IfErr};
ghost use Rattle.sel_items.specs.declared.items.Items.{Items};
ghost use Rattle.sel_full.specs.Builds.{IsDear, IsDearEntry, HasDearEntry, most_states};
ghost use Rattle.sel_full.specs.Reach.{IsEmptySet, IsOneOf};
ghost use Rattle.sel_full.specs.Tables.{all_keys};
ghost use Rattle.sel_full.specs.Taking.{IsReachedBy, AreStates, AreFew, AreFound, IsKept, IsStopFor};

use crate::places::{key_count_of, kids_by};
use crate::states::States;
use crate::stop::Stop;
use sel_base::{List, NoMemory, Pair};
use sel_items::{Item, Items};
use sel_normal::Normal;
use std::alloc::Global;

/// How many states and keys a table may have.
#[derive(Clone, Copy, Debug)]
pub struct Limits {
    pub states: usize,
    pub rows: usize,
}

/// Whether a number of the cost is too great in amount.
fn is_dear(cost: Pair) -> bool
    ensures yes { result ≡ true → IsDear cost }
    ensures no { result ≡ false → IsDear cost → ⊥ }
{
    cost.first > 999_999_999_999 || cost.second > 999_999_999_999 || cost.second < -999_999_999_999
}

fn is_dear_entry(entry: Option<Item>) -> bool
    ensures yes { result ≡ true → IsDearEntry entry }
    ensures no { result ≡ false → IsDearEntry entry → ⊥ }
{
    match entry {
        None => false,
        Some(item) => is_dear(item.cost),
    }
}

/// Whether an entry's cost has a number that is too great in amount.
fn has_dear_entry(items: &Items) -> bool
    ensures yes { result ≡ true → HasDearEntry items.now }
    ensures no { result ≡ false → HasDearEntry items.now → ⊥ }
{
    for entry in items.entries.as_slice() {
        if is_dear_entry(*entry) {
            return true;
        }
    }
    false
}

/// How many keys there are over so many states.
pub fn key_count(normal: &Normal, states: usize) -> usize
    requires few { states ≤ 65536 }
    ensures { (xs : List Items) → length xs ≡ states → length (all_keys normal.now xs) ≡ result }
{
    let mut count = 0;
    for operator in 0..255 {
        count += key_count_of(normal, states, kids_by(normal, operator));
    }
    count
}

/// Whether so many states and the keys over them are allowed.
fn is_allowed(normal: &Normal, limits: Limits, states: usize) -> bool
    requires few { states ≤ 65536 }
    ensures yes { (xs : List Items) → length xs ≡ states → result ≡ true → AreFew normal.now limits.states limits.rows xs }
    ensures no { (xs : List Items) → length xs ≡ states → result ≡ false → AreFew normal.now limits.states limits.rows xs → ⊥ }
{
    states <= limits.states && key_count(normal, states) <= limits.rows
}

/// Puts an item set that is none of the states behind them.
fn add(normal: &Normal, limits: Limits, states: &mut States, items: Items) -> Result<(), Stop>
    requires few { length states.old < 65536 }
    requires are { AreStates normal.now states.old }
    requires long { length items.entries ≡ normal.now.nonterminals }
    requires reached { IsReachedBy normal.now items }
    requires new { IsOneOf states.old items → ⊥ }
    ensures added { OnOk result (states.new ≡ states.old ++ items ∷ []) }
    ensures found { OnOk result (AreStates normal.now states.new × AreFew normal.now limits.states limits.rows states.new) }
    ensures stop { IfErr result (IsStopFor normal.now limits.states limits.rows) }
{
    if has_dear_entry(&items) {
        return Err(Stop::TooLarge);
    }
    if !is_allowed(normal, limits, states.len() + 1) {
        return Err(Stop::TooLarge);
    }
    states.push(items)?;
    Ok(())
}

/// The item set becomes a state where it is none.
pub fn keep(normal: &Normal, limits: Limits, states: &mut States, items: Items) -> Result<(), Stop>
    requires limits { limits.states ≤ most_states }
    requires found { AreFound normal.now limits.states limits.rows states.old }
    requires long { length items.entries ≡ normal.now.nonterminals }
    requires reached { IsReachedBy normal.now items }
    ensures kept { OnOk result (IsKept states.old items states.new) }
    ensures found { OnOk result (AreFound normal.now limits.states limits.rows states.new) }
    ensures stop { IfErr result (IsStopFor normal.now limits.states limits.rows) }
{
    match states.find(&items) {
        Some(_) => Ok(()),
        None => add(normal, limits, states, items),
    }
}

/// The item set without entries.
fn empty_set(alloc: Global, normal: &Normal) -> Result<Items, NoMemory>
    ensures { IfOk result (λ items. IsEmptySet normal.now items) }
{
    let entries = vec![in alloc; None; normal.nonterminals() as usize]?;
    Ok(Items {
        entries: List::from_vec(entries),
    })
}

/// The states before any key is taken: the empty one alone.
pub fn first_states(alloc: Global, normal: &Normal, limits: Limits) -> Result<States, Stop>
    ensures found { IfOk result (AreFound normal.now limits.states limits.rows) }
    ensures one { IfOk result (λ states. length states ≡ 1) }
    ensures stop { IfErr result (IsStopFor normal.now limits.states limits.rows) }
{
    let mut states = States::new(alloc);
    let items = empty_set(alloc, normal)?;
    add(normal, limits, &mut states, items)?;
    Ok(states)
}
