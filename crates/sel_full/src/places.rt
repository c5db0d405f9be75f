//! Where keys stand in their order.
ghost use Rattle.std.specs.Prelude.{◌≡◌, ◌<◌, ◌≤◌, ◌+◌, ◌*◌, ◌^◌, ℕ, List, Some, None, IfSome, length, slice_get};
ghost use Rattle.std.specs.Option.{option_map};
ghost use Rattle.sel_grammar.specs.Limits.{most_operators};
ghost use Rattle.sel_range.specs.Classes.{class_of, last_class, Occurs};
ghost use Rattle.sel_range.specs.Limits.{least_number};
ghost use Rattle.sel_items.specs.declared.items.Items.{Items};
ghost use Rattle.sel_full.specs.Reach.{kid_count};
ghost use Rattle.sel_full.specs.Starts.{AreStarts};
ghost use Rattle.sel_full.specs.Tables.{occurring, kids_in, kids_by, keys_with, all_keys, key_start};

use sel_items::Items;
use sel_normal::{Body, Normal};
use sel_range::Classes;

/// How many kids there are.
fn kid_count(first: Option<u16>, second: Option<u16>) -> u8
    ensures is { result ≡ kid_count first second }
    ensures few { result ≤ 2 }
{
    match (first, second) {
        (None, _) => 0,
        (Some(_), None) => 1,
        (Some(_), Some(_)) => 2,
    }
}

/// How many kids the operator has in the right side of a rule, where it is the rule's.
fn kids_in(body: Body, operator: u8) -> Option<u8>
    ensures is { result ≡ kids_in body operator }
    ensures few { IfSome result (λ kids. kids ≤ 2) }
{
    match body {
        Body::Chain(_) => None,
        Body::Operator {
            operator: own,
            first,
            second,
            test: _,
        } => {
            if own == operator {
                Some(kid_count(first, second))
            } else {
                None
            }
        }
    }
}

/// How many kids the operator has by the rules, where one of them uses it.
pub fn kids_by(normal: &Normal, operator: u8) -> Option<u8>
    ensures is { result ≡ kids_by normal.now.rules operator }
    ensures few { IfSome result (λ kids. kids ≤ 2) }
{
    for k in 0..normal.rules() {
        match kids_in(normal.rule(k + 1).body, operator) {
            Some(kids) => return Some(kids),
            None => {}
        }
    }
    None
}

/// The class of the least number, the first that a number has.
fn first_class(classes: &Classes) -> usize
    ensures { result ≡ class_of classes.now (Some least_number) }
{
    classes.class_of(Some(i64::MIN)) as usize
}

/// The greatest class.
fn last_class(classes: &Classes) -> usize
    ensures is { result ≡ last_class classes.now }
    ensures few { result < 65536 }
{
    classes.last() as usize
}

/// How many classes some attribute has.
pub fn class_count(classes: &Classes) -> usize
    ensures is { result ≡ length (occurring classes.now) }
    ensures few { result ≤ 65537 }
{
    let first = first_class(classes);
    let last = last_class(classes);
    last + 2 - first
}

/// The class at a place among those that some attribute has.
pub fn class_at(classes: &Classes, place: usize) -> u16
    requires { place < length (occurring classes.now) }
    ensures is { slice_get (occurring classes.now) place ≡ Some result }
    ensures occurs { Occurs classes.now result }
{
    let class = class_by_place(classes, place);
    let _ = classes.occurs(class);
    class
}

/// The class at a place, behind 0 those from that of the least number on.
fn class_by_place(classes: &Classes, place: usize) -> u16
    requires { place < length (occurring classes.now) }
    ensures { slice_get (occurring classes.now) place ≡ Some result }
{
    let first = first_class(classes);
    let last = last_class(classes);
    if place == 0 {
        0
    } else {
        behind_first(first, last, place)
    }
}

/// The class at a place behind the first one, where classes are numbered from `first` to `last`.
fn behind_first(first: usize, last: usize, place: usize) -> u16
    requires some { 1 ≤ place }
    requires within { first + place ≤ last + 1 }
    requires few { last < 65536 }
    ensures { result + 1 ≡ first + place }
{
    (first + (place - 1)) as u16
}

/// The place of a class among those that some attribute has.
pub fn class_place(classes: &Classes, class: u16) -> usize
    requires { Occurs classes.now class }
    ensures { slice_get (occurring classes.now) result ≡ Some class }
{
    if class == 0 {
        return 0;
    }
    let first = first_class(classes);
    class as usize + 1 - first
}

/// How many keys an operator with so many kids has over so many states.
pub fn key_count_of(normal: &Normal, states: usize, kids: Option<u8>) -> usize
    requires fits { (k : ℕ) → kids ≡ Some k → 2 ≤ k → states * states < 2 ^ 64 }
    ensures is { (xs : List Items) (op : ℕ) → length xs ≡ states → length (keys_with normal.now xs op kids) ≡ result }
    ensures few { states ≤ 65536 → result ≤ 4294967296 }
{
    match kids {
        None => 0,
        Some(kids) => {
            if kids == 0 {
                class_count(normal.classes())
            } else if kids == 1 {
                states
            } else {
                states * states
            }
        }
    }
}

/// Where the keys of the next operator begin.
fn next_start(normal: &Normal, states: &[Items], operator: u8, at: usize, kids: Option<u8>) -> usize
    requires at { at ≡ key_start normal.now states.now operator }
    requires kids { kids ≡ kids_by normal.now.rules operator }
    requires below { operator < most_operators }
    requires fits { length (all_keys normal.now states.now) < 2 ^ 64 }
    ensures { result ≡ key_start normal.now states.now (operator + 1) }
{
    let count = key_count_of(normal, states.len(), kids);
    at + count
}

/// The place, where there are kids.
fn start_with(at: usize, kids: Option<u8>) -> Option<usize>
    ensures { result ≡ option_map (λ k. at) kids }
{
    match kids {
        Some(_) => Some(at),
        None => None,
    }
}

/// Where the keys of each operator begin among all keys over the states, where some rule uses it.
pub fn starts_of(normal: &Normal, states: &[Items]) -> [Option<usize>; 255]
    requires { length (all_keys normal.now states.now) < 2 ^ 64 }
    ensures { AreStarts normal.now states.now result }
{
    let mut starts = [None; 255];
    let mut at = 0;
    for operator in 0..255 {
        let kids = kids_by(normal, operator);
        let start = start_with(at, kids);
        starts[operator as usize] = start;
        at = next_start(normal, states, operator, at, kids);
    }
    starts
}
