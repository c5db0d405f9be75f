// Keys taken one by one, in the order in which a build takes them.
ghost use Rattle.std.specs.Prelude.{◌≡◌, ◌<◌, ◌≤◌, ◌+◌, ◌++◌, ◌∷◌, [], ℕ, Option, Some, None, List, length, map, take, slice_get, OnOk, OnErr, IfOk, IfErr};
ghost use Rattle.std.specs.Option.{option_copied};
ghost use Rattle.sel_grammar.specs.Limits.{most_operators};
ghost use Rattle.sel_items.specs.declared.items.Items.{Items};
ghost use Rattle.sel_items.specs.Follows.{key_of, Follows};
ghost use Rattle.sel_items.specs.KidSets.{kid_sets, IsKid, AreKidsInOrder};
ghost use Rattle.sel_items.specs.Labels.{IsClassOver};
ghost use Rattle.sel_full.specs.Builds.{most_states};
ghost use Rattle.sel_full.specs.Finding.{leaf_keys, kid_keys, leaf_keys_below, kid_keys_below, keys_up_to, build_keys};
ghost use Rattle.sel_full.specs.Tables.{kids_by, occurring};
ghost use Rattle.sel_full.specs.Taking.{AreKidStates, AreFound, kid_at, key_at, MayTake, Took, TookTo, IsStopFor};

use crate::keeping::{Limits, keep};
use crate::places::{class_at, class_count, kids_by};
use crate::states::States;
use crate::stop::Stop;
use sel_base::{NoMemory, Steps};
use sel_items::{Items, evaluate};
use sel_normal::Normal;
use std::alloc::Global;
use std::marker::Brand;
use std::sync::ledger::{Blank, Ledger};

/// The state of a kid's number, where there is a kid.
fn kid_at(states: &States, number: Option<u16>) -> Option<&Items>
    ensures { option_copied result ≡ kid_at states.now number }
{
    match number {
        None => None,
        Some(number) => states.get(number),
    }
}

// The item set that follows, with steps counted over the blank.
fn follow_counted<L: Ledger>(
    alloc: Global,
    normal: &Normal,
    operator: u8,
    class: u16,
    first: Option<&Items>,
    second: Option<&Items>,
    blank: Blank,
) -> Result<Items, NoMemory>
    requires first { IsKid normal.now (option_copied first) }
    requires second { IsKid normal.now (option_copied second) }
    requires order { AreKidsInOrder (option_copied first) (option_copied second) }
    requires class { IsClassOver normal.now class (option_copied first) }
    requires name { blank.name ≡ L.name }
    requires parts { blank.parts ≡ L.parts }
    requires one { 0 < blank.parts }
    ensures follows { IfOk result (λ items. Follows normal.now (key_of operator class (kid_sets (option_copied first.entry) (option_copied second.entry))) items) }
{
    let mut steps = Steps::<L>::new(blank);
    evaluate(alloc, normal, operator, class, first, second, &mut steps)
}

/// The item set that follows from the key over the states of these numbers.
pub fn follow(
    alloc: Global,
    normal: &Normal,
    states: &States,
    operator: u8,
    class: u16,
    first: Option<u16>,
    second: Option<u16>,
) -> Result<Items, NoMemory>
    requires sets { AreKidStates normal.now states.now }
    requires may { MayTake normal.now states.now operator class first second }
    ensures { IfOk result (λ items. Follows normal.now (key_at states.now operator class first second) items) }
{
    let left = kid_at(states, first);
    let right = kid_at(states, second);
    follow_counted::<Brand>(alloc, normal, operator, class, left, right, Blank::new(1))
}

/// Takes a key: what follows from it is a state, or becomes one.
fn take(
    alloc: Global,
    normal: &Normal,
    limits: Limits,
    states: &mut States,
    operator: u8,
    class: u16,
    first: Option<u16>,
    second: Option<u16>,
) -> Result<(), Stop>
    requires limits { limits.states ≤ most_states }
    requires found { AreFound normal.now limits.states limits.rows states.old }
    requires may { MayTake normal.now states.old operator class first second }
    ensures took { OnOk result (Took normal.now states.old states.new (key_at states.old operator class first second ∷ [])) }
    ensures found { OnOk result (AreFound normal.now limits.states limits.rows states.new) }
    ensures stop { IfErr result (IsStopFor normal.now limits.states limits.rows) }
{
    let items = follow(alloc, normal, states, operator, class, first, second)?;
    keep(normal, limits, states, items)
}

/// Takes the keys of an operator without kids, class by class.
fn take_classes(
    alloc: Global,
    normal: &Normal,
    limits: Limits,
    states: &mut States,
    operator: u8,
) -> Result<(), Stop>
    requires limits { limits.states ≤ most_states }
    requires found { AreFound normal.now limits.states limits.rows states.old }
    requires leaf { kids_by normal.now.rules operator ≡ Some 0 }
    ensures took { OnOk result (Took normal.now states.old states.new (map (λ class. key_of operator class []) (occurring normal.now.tests))) }
    ensures found { OnOk result (AreFound normal.now limits.states limits.rows states.new) }
    ensures stop { IfErr result (IsStopFor normal.now limits.states limits.rows) }
{
    for place in 0..class_count(normal.classes()) {
        let class = class_at(normal.classes(), place);
        take(alloc, normal, limits, states, operator, class, None, None)?;
    }
    Ok(())
}

/// Takes the keys of an operator without kids, where it is one.
fn take_leaf(
    alloc: Global,
    normal: &Normal,
    limits: Limits,
    states: &mut States,
    operator: u8,
) -> Result<(), Stop>
    requires limits { limits.states ≤ most_states }
    requires found { AreFound normal.now limits.states limits.rows states.old }
    ensures took { OnOk result (Took normal.now states.old states.new (leaf_keys normal.now operator (kids_by normal.now.rules operator))) }
    ensures found { OnOk result (AreFound normal.now limits.states limits.rows states.new) }
    ensures stop { IfErr result (IsStopFor normal.now limits.states limits.rows) }
{
    match kids_by(normal, operator) {
        None => Ok(()),
        Some(kids) => {
            if kids == 0 {
                take_classes(alloc, normal, limits, states, operator)
            } else {
                Ok(())
            }
        }
    }
}

/// Takes all keys without kids.
fn take_leaves(
    alloc: Global,
    normal: &Normal,
    limits: Limits,
    states: &mut States,
) -> Result<(), Stop>
    requires limits { limits.states ≤ most_states }
    requires found { AreFound normal.now limits.states limits.rows states.old }
    ensures took { OnOk result (Took normal.now states.old states.new (leaf_keys_below normal.now most_operators)) }
    ensures found { OnOk result (AreFound normal.now limits.states limits.rows states.new) }
    ensures stop { IfErr result (IsStopFor normal.now limits.states limits.rows) }
{
    for operator in 0..255 {
        take_leaf(alloc, normal, limits, states, operator)?;
    }
    Ok(())
}

/// Takes the keys of an operator with two kids of which the right one is the state `last`, and the left
/// one a state before it.
fn take_lefts(
    alloc: Global,
    normal: &Normal,
    limits: Limits,
    states: &mut States,
    operator: u8,
    last: u16,
) -> Result<(), Stop>
    requires limits { limits.states ≤ most_states }
    requires found { AreFound normal.now limits.states limits.rows states.old }
    requires two { kids_by normal.now.rules operator ≡ Some 2 }
    requires last { last < length states.old }
    ensures took { OnOk result ((i : Items) → slice_get states.old last ≡ Some i → Took normal.now states.old states.new (map (λ j. key_of operator 0 (j ∷ i ∷ [])) (take last states.old))) }
    ensures found { OnOk result (AreFound normal.now limits.states limits.rows states.new) }
    ensures stop { IfErr result (IsStopFor normal.now limits.states limits.rows) }
{
    for other in 0..last {
        take(
            alloc,
            normal,
            limits,
            states,
            operator,
            0,
            Some(other),
            Some(last),
        )?;
    }
    Ok(())
}

/// Takes the keys of an operator with two kids of which the left one is the state `last`, and the right
/// one a state up to it.
fn take_rights(
    alloc: Global,
    normal: &Normal,
    limits: Limits,
    states: &mut States,
    operator: u8,
    last: u16,
) -> Result<(), Stop>
    requires limits { limits.states ≤ most_states }
    requires found { AreFound normal.now limits.states limits.rows states.old }
    requires two { kids_by normal.now.rules operator ≡ Some 2 }
    requires last { last < length states.old }
    ensures took { OnOk result ((i : Items) → slice_get states.old last ≡ Some i → Took normal.now states.old states.new (map (λ j. key_of operator 0 (i ∷ j ∷ [])) (take (last + 1) states.old))) }
    ensures found { OnOk result (AreFound normal.now limits.states limits.rows states.new) }
    ensures stop { IfErr result (IsStopFor normal.now limits.states limits.rows) }
{
    for other in 0..last + 1 {
        take(
            alloc,
            normal,
            limits,
            states,
            operator,
            0,
            Some(last),
            Some(other),
        )?;
    }
    Ok(())
}

/// Takes the keys of an operator whose greatest kid is the state `last`.
fn take_operator(
    alloc: Global,
    normal: &Normal,
    limits: Limits,
    states: &mut States,
    operator: u8,
    last: u16,
) -> Result<(), Stop>
    requires limits { limits.states ≤ most_states }
    requires found { AreFound normal.now limits.states limits.rows states.old }
    requires last { last < length states.old }
    ensures took { OnOk result ((i : Items) → slice_get states.old last ≡ Some i → Took normal.now states.old states.new (kid_keys (take last states.old) i operator (kids_by normal.now.rules operator))) }
    ensures found { OnOk result (AreFound normal.now limits.states limits.rows states.new) }
    ensures stop { IfErr result (IsStopFor normal.now limits.states limits.rows) }
{
    match kids_by(normal, operator) {
        None => Ok(()),
        Some(kids) => {
            if kids == 0 {
                Ok(())
            } else if kids == 1 {
                take(alloc, normal, limits, states, operator, 0, Some(last), None)
            } else {
                take_lefts(alloc, normal, limits, states, operator, last)?;
                take_rights(alloc, normal, limits, states, operator, last)
            }
        }
    }
}

/// Takes the keys whose greatest kid is the state `last`.
fn take_round(
    alloc: Global,
    normal: &Normal,
    limits: Limits,
    states: &mut States,
    last: u16,
) -> Result<(), Stop>
    requires limits { limits.states ≤ most_states }
    requires found { AreFound normal.now limits.states limits.rows states.old }
    requires last { last < length states.old }
    ensures took { OnOk result (Took normal.now states.old states.new (keys_up_to normal.now (take last states.old) (slice_get states.old last))) }
    ensures found { OnOk result (AreFound normal.now limits.states limits.rows states.new) }
    ensures stop { IfErr result (IsStopFor normal.now limits.states limits.rows) }
{
    for operator in 0..255 {
        take_operator(alloc, normal, limits, states, operator, last)?;
    }
    Ok(())
}

/// Takes all keys over the states, those that are found meanwhile among them.
pub fn take_all(
    alloc: Global,
    normal: &Normal,
    limits: Limits,
    states: &mut States,
) -> Result<(), Stop>
    requires limits { limits.states ≤ most_states }
    requires found { AreFound normal.now limits.states limits.rows states.old }
    requires one { length states.old ≡ 1 }
    ensures took { OnOk result (TookTo normal.now states.new (length states.new)) }
    ensures found { OnOk result (AreFound normal.now limits.states limits.rows states.new) }
    ensures stop { IfErr result (IsStopFor normal.now limits.states limits.rows) }
{
    take_leaves(alloc, normal, limits, states)?;
    for last in 0..limits.states as u16 {
        if last as usize == states.len() {
            return Ok(());
        }
        take_round(alloc, normal, limits, states, last)?;
    }
    Ok(())
}
