// Numbers for all keys over states, in the order of keys.
ghost use Rattle.std.specs.Prelude.{◌≡◌, ◌<◌, ◌≤◌, ◌+◌, ◌∷◌, [], ℕ, Some, List, length, map, slice_get, OnOk, IfOk};
ghost use Rattle.std.specs.List.{flat_map};
ghost use Rattle.sel_items.specs.declared.items.Items.{Items};
ghost use Rattle.sel_items.specs.Follows.{key_of};
ghost use Rattle.sel_full.specs.Numbering.{NumbersMore, AreNumbers};
ghost use Rattle.sel_full.specs.Tables.{kids_by, keys_of, keys_below, all_keys, occurring};
ghost use Rattle.sel_full.specs.Taking.{AreKidStates, MayTake, key_at};

use crate::places::{class_at, class_count, kids_by};
use crate::states::States;
use crate::taking::follow;
use sel_base::{List, NoMemory};
use sel_normal::Normal;
use std::alloc::Global;

/// Puts the number of the state that follows from a key behind the others, or nothing where no state does.
fn number_key(
    alloc: Global,
    normal: &Normal,
    states: &States,
    numbers: &mut List<Option<u16>>,
    operator: u8,
    class: u16,
    first: Option<u16>,
    second: Option<u16>,
) -> Result<(), NoMemory>
    requires few { length states.now < 65536 }
    requires sets { AreKidStates normal.now states.now }
    requires may { MayTake normal.now states.now operator class first second }
    ensures { OnOk result (NumbersMore normal.now states.now numbers.old numbers.new (key_at states.now operator class first second ∷ [])) }
{
    let items = follow(alloc, normal, states, operator, class, first, second)?;
    numbers.push(states.find(&items))?;
    Ok(())
}

/// The numbers of an operator's keys without kids, class by class.
fn number_classes(
    alloc: Global,
    normal: &Normal,
    states: &States,
    numbers: &mut List<Option<u16>>,
    operator: u8,
) -> Result<(), NoMemory>
    requires few { length states.now < 65536 }
    requires sets { AreKidStates normal.now states.now }
    requires leaf { kids_by normal.now.rules operator ≡ Some 0 }
    ensures { OnOk result (NumbersMore normal.now states.now numbers.old numbers.new (map (λ class. key_of operator class []) (occurring normal.now.tests))) }
{
    for place in 0..class_count(normal.classes()) {
        let class = class_at(normal.classes(), place);
        number_key(alloc, normal, states, numbers, operator, class, None, None)?;
    }
    Ok(())
}

/// The numbers of an operator's keys with one kid, state by state.
fn number_singles(
    alloc: Global,
    normal: &Normal,
    states: &States,
    numbers: &mut List<Option<u16>>,
    operator: u8,
) -> Result<(), NoMemory>
    requires few { length states.now < 65536 }
    requires sets { AreKidStates normal.now states.now }
    requires one { kids_by normal.now.rules operator ≡ Some 1 }
    ensures { OnOk result (NumbersMore normal.now states.now numbers.old numbers.new (map (λ i. key_of operator 0 (i ∷ [])) states.now)) }
{
    for kid in 0..states.len() as u16 {
        number_key(alloc, normal, states, numbers, operator, 0, Some(kid), None)?;
    }
    Ok(())
}

/// The numbers of an operator's keys with two kids of which the left one is the state `left`.
fn number_row(
    alloc: Global,
    normal: &Normal,
    states: &States,
    numbers: &mut List<Option<u16>>,
    operator: u8,
    left: u16,
) -> Result<(), NoMemory>
    requires few { length states.now < 65536 }
    requires sets { AreKidStates normal.now states.now }
    requires two { kids_by normal.now.rules operator ≡ Some 2 }
    requires left { left < length states.now }
    ensures { OnOk result ((i : Items) → slice_get states.now left ≡ Some i → NumbersMore normal.now states.now numbers.old numbers.new (map (λ j. key_of operator 0 (i ∷ j ∷ [])) states.now)) }
{
    for right in 0..states.len() as u16 {
        number_key(
            alloc,
            normal,
            states,
            numbers,
            operator,
            0,
            Some(left),
            Some(right),
        )?;
    }
    Ok(())
}

/// The numbers of an operator's keys with two kids, row by row.
fn number_pairs(
    alloc: Global,
    normal: &Normal,
    states: &States,
    numbers: &mut List<Option<u16>>,
    operator: u8,
) -> Result<(), NoMemory>
    requires few { length states.now < 65536 }
    requires sets { AreKidStates normal.now states.now }
    requires two { kids_by normal.now.rules operator ≡ Some 2 }
    ensures { OnOk result (NumbersMore normal.now states.now numbers.old numbers.new (flat_map (λ i. map (λ j. key_of operator 0 (i ∷ j ∷ [])) states.now) states.now)) }
{
    for left in 0..states.len() as u16 {
        number_row(alloc, normal, states, numbers, operator, left)?;
    }
    Ok(())
}

/// The numbers of an operator's keys.
fn number_operator(
    alloc: Global,
    normal: &Normal,
    states: &States,
    numbers: &mut List<Option<u16>>,
    operator: u8,
) -> Result<(), NoMemory>
    requires few { length states.now < 65536 }
    requires sets { AreKidStates normal.now states.now }
    ensures { OnOk result (NumbersMore normal.now states.now numbers.old numbers.new (keys_of normal.now states.now operator)) }
{
    match kids_by(normal, operator) {
        None => Ok(()),
        Some(kids) => {
            if kids == 0 {
                number_classes(alloc, normal, states, numbers, operator)
            } else if kids == 1 {
                number_singles(alloc, normal, states, numbers, operator)
            } else {
                number_pairs(alloc, normal, states, numbers, operator)
            }
        }
    }
}

/// The number of the state that follows from each key over the states, in the order of keys, or nothing
/// where no state does.
pub fn number_all(
    alloc: Global,
    normal: &Normal,
    states: &States,
) -> Result<List<Option<u16>>, NoMemory>
    requires few { length states.now < 65536 }
    requires sets { AreKidStates normal.now states.now }
    ensures { IfOk result (λ numbers. AreNumbers normal.now states.now numbers (all_keys normal.now states.now)) }
{
    let mut numbers = List::new(alloc);
    for operator in 0..255 {
        number_operator(alloc, normal, states, &mut numbers, operator)?;
    }
    Ok(numbers)
}
