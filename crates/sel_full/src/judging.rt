// Tables from elsewhere, judged: each number is computed anew.
ghost use Rattle.std.specs.Prelude.{◌≡◌, ◌<◌, ◌≤◌, ℕ, true, false, Some, List, length, MatchOption, OnOk, IfOk, IfErr};
ghost use Rattle.sel_full.specs.Forms.{HasForm};
ghost use Rattle.sel_full.specs.Judging.{HasEntry, IsWrongState, IsWrongNext, IsFirstOf, IsStateRefusal, IsTableRefusal, AreApart};
ghost use Rattle.sel_full.specs.Tables.{IsLawfulTable};

use crate::building::copy;
use crate::numbering::number_all;
use crate::refusal::{TableFault, TableRefusal};
use crate::states::States;
use crate::table::Table;
use sel_items::Items;
use sel_normal::Normal;
use std::alloc::Global;

/// Whether some entry is there.
fn has_entry(items: &Items) -> bool
    ensures yes { result ≡ true → HasEntry items.now }
    ensures no { result ≡ false → HasEntry items.now → ⊥ }
{
    for entry in items.entries.as_slice() {
        match *entry {
            Some(_) => return true,
            None => {}
        }
    }
    false
}

/// Whether the item set can't be the next state.
fn is_wrong_next(states: &States, items: &Items) -> bool
    requires few { length states.now < 65536 }
    ensures yes { result ≡ true → IsWrongNext states.now items.now }
    ensures no { result ≡ false → IsWrongNext states.now items.now → ⊥ }
{
    match states.find(items) {
        Some(_) => true,
        None => states.len() == 0 && has_entry(items),
    }
}

/// The item sets as states, where the first is empty and they differ.
fn gather(alloc: Global, list: &[Items]) -> Result<States, TableRefusal>
    requires few { length list.now < 65536 }
    ensures are { IfOk result (λ states. states ≡ list.now) }
    ensures right { OnOk result ((k : ℕ) → IsWrongState list.now k → ⊥) }
    ensures fault { IfErr result (IsStateRefusal list.now) }
{
    let mut states = States::new(alloc);
    for items in list {
        if is_wrong_next(&states, items) {
            return Err(TableRefusal::Fault(TableFault::State(states.len())));
        }
        states.push(copy(alloc, items)?)?;
    }
    Ok(states)
}

fn is_number(own: Option<u16>, number: u16) -> bool
    ensures yes { result ≡ true → own ≡ Some number }
    ensures no { result ≡ false → own ≡ Some number → ⊥ }
{
    match own {
        Some(own) => own == number,
        None => false,
    }
}

/// The first place at which a number isn't the one that was computed.
fn first_apart(own: &[Option<u16>], numbers: &[u16]) -> Option<usize>
    requires { length own.now ≡ length numbers.now }
    ensures { MatchOption result ((p : ℕ) → AreApart own.now numbers.now p → ⊥) (IsFirstOf (AreApart own.now numbers.now)) }
{
    for place in 0..numbers.len() {
        if !is_number(own[place], numbers[place]) {
            return Some(place);
        }
    }
    None
}

/// Accepts a table that is lawful, and tells of any other what is wrong first: a state that isn't as it
/// has to be, or else a number. A table from elsewhere is believed only after this: each number is computed
/// anew.
pub fn judge(alloc: Global, normal: &Normal, table: &Table) -> Result<(), TableRefusal>
    requires form { HasForm normal.now table.now }
    ensures lawful { OnOk result (IsLawfulTable normal.now table.now.states table.now.numbers) }
    ensures fault { IfErr result (IsTableRefusal normal.now table.now) }
{
    let states = gather(alloc, table.states.as_slice())?;
    let own = number_all(alloc, normal, &states)?;
    match first_apart(own.as_slice(), table.numbers.as_slice()) {
        None => Ok(()),
        Some(place) => Err(TableRefusal::Fault(TableFault::Number(place))),
    }
}
