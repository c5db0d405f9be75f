// Complete tables built.
ghost use Rattle.std.specs.Prelude.{◌≡◌, ◌<◌, ◌≤◌, Some, None, List, take, length, map, MatchOption, IfOk, IfErr};
ghost use Rattle.sel_full.specs.Builds.{IsBuild, IsCompleteTable, most_states, most_keys};
ghost use Rattle.sel_full.specs.Reach.{IsOneOf};
ghost use Rattle.sel_full.specs.Taking.{AreFound, TookTo, IsStopFor};

use crate::keeping::{Limits, first_states};
use crate::numbering::number_all;
use crate::states::States;
use crate::stop::Stop;
use crate::table::{Build, Table};
use crate::taking::take_all;
use sel_base::{List, NoMemory};
use sel_items::Items;
use sel_normal::Normal;
use std::alloc::Global;

/// All states that are found, in the order in which they are.
fn find_states(alloc: Global, normal: &Normal, limits: Limits) -> Result<States, Stop>
    requires limits { limits.states ≤ most_states }
    ensures found { IfOk result (AreFound normal.now limits.states limits.rows) }
    ensures took { IfOk result (λ states. TookTo normal.now states (length states)) }
    ensures stop { IfErr result (IsStopFor normal.now limits.states limits.rows) }
{
    let mut states = first_states(alloc, normal, limits)?;
    take_all(alloc, normal, limits, &mut states)?;
    Ok(states)
}

pub fn copy(alloc: Global, items: &Items) -> Result<Items, NoMemory>
    ensures { IfOk result (λ copy. copy ≡ items.now) }
{
    let mut entries = Vec::new(alloc);
    entries.extend_from_slice(items.entries.as_slice())?;
    Ok(Items {
        entries: List::from_vec(entries),
    })
}

/// The item sets of the states, as a list.
fn list_of(alloc: Global, states: &States) -> Result<List<Items>, NoMemory>
    ensures { IfOk result (λ list. list ≡ states.now) }
{
    let mut list = List::new(alloc);
    for items in states.as_slice() {
        list.push(copy(alloc, items)?)?;
    }
    Ok(list)
}

/// The numbers, where none of them is missing.
fn all_there(alloc: Global, found: &[Option<u16>]) -> Result<Option<List<u16>>, NoMemory>
    ensures { IfOk result (λ there. MatchOption there (IsOneOf found.now None) (λ numbers. map Some numbers ≡ found.now)) }
{
    let mut numbers = List::new(alloc);
    for number in found {
        match *number {
            Some(number) => numbers.push(number)?,
            None => return Ok(None),
        }
    }
    Ok(Some(numbers))
}

/// What a build answers where these states were found.
fn complete(
    alloc: Global,
    normal: &Normal,
    limits: Limits,
    states: &States,
) -> Result<Build, NoMemory>
    requires limits { limits.states ≤ most_states }
    requires found { AreFound normal.now limits.states limits.rows states.now }
    requires took { TookTo normal.now states.now (length states.now) }
    ensures { IfOk result (IsBuild normal.now limits.states limits.rows) }
{
    normal.is_standing();
    let list = list_of(alloc, states)?;
    let found = number_all(alloc, normal, states)?;
    match all_there(alloc, found.as_slice())? {
        Some(numbers) => Ok(Build::Complete(Table {
            states: list,
            numbers,
        })),
        None => Ok(Build::TooLarge),
    }
}

/// The complete table of the normal form: its states are the empty item set and the item sets of all
/// trees, of whatever size and depth, numbered as they are found. Keys without kids are taken first, in the
/// order of keys, and then for each state from 0 upwards those whose greatest kid it is.
///
/// It is too large exactly where more than `states` item sets are reached, where the keys over them are
/// more than `rows`, or where one has a cost with a number beyond 999,999,999,999 in amount. A grammar
/// whose costs diverge ends so.
pub fn build(alloc: Global, normal: &Normal, states: u32, rows: u32) -> Result<Build, NoMemory>
    requires states { states ≤ most_states }
    requires rows { rows ≤ most_keys }
    ensures { IfOk result (IsBuild normal.now states rows) }
{
    let limits = Limits {
        states: states as usize,
        rows: rows as usize,
    };
    match find_states(alloc, normal, limits) {
        Ok(found) => complete(alloc, normal, limits, &found),
        Err(Stop::TooLarge) => Ok(Build::TooLarge),
        Err(Stop::NoMemory) => Err(NoMemory),
    }
}
