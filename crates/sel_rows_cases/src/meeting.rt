// A pass that does the steps of a label one by one, while another pass labels.
ghost use Rattle.std.specs.Prelude.{◌≡◌, [], IfOk};
ghost use Rattle.sel_forest.specs.Valid.{IsValidTree};
ghost use Rattle.sel_items.specs.Follows.{Follows, key_of};
ghost use Rattle.sel_items.specs.Laws.{IsAcceptedForm};
ghost use Rattle.sel_rows.specs.Calls.{HasWords, IsReadableKey, IsBehindKeys, IsNumberFor};
ghost use Rattle.sel_rows.specs.Told.{pass_view, standing_of, told_of_pass};

use crate::accepted::Accepted;
use crate::stop::Stop;
use crate::turns::turn;
use sel_base::{NoMemory, Steps};
use sel_forest::Tree;
use sel_items::laws::entries_have_rules;
use sel_items::{Items, Label, evaluate, fits};
use sel_label::label_tree;
use sel_rows::{Draw, Found, Key, Pass, Placed, Seen, Won};
use std::alloc::Global;
use std::fmt::Write;
use std::sync::ledger::Ledger;

fn put_seen(text: &mut String, seen: Seen) -> Result<(), NoMemory> {
    match seen {
        Seen::Number(number) => write!(text, "find_transition number {number}\n")?,
        Seen::Absent { place: _ } => write!(text, "find_transition absent\n")?,
        Seen::Full => write!(text, "find_transition full\n")?,
    }
    Ok(())
}

fn put_found(text: &mut String, found: Found) -> Result<(), NoMemory> {
    match found {
        Found::Number(number) => write!(text, "find_state number {number}\n")?,
        Found::Absent { place: _ } => write!(text, "find_state absent\n")?,
    }
    Ok(())
}

fn put_drawn(text: &mut String, drawn: Draw) -> Result<(), NoMemory> {
    match drawn {
        Draw::Own(number) => write!(text, "draw_number own {number}\n")?,
        Draw::UsedUp => write!(text, "draw_number used up\n")?,
    }
    Ok(())
}

fn put_placed(text: &mut String, placed: Placed) -> Result<(), NoMemory> {
    match placed {
        Placed::Known(number) => write!(text, "publish_transition known {number}\n")?,
        Placed::RowFull => write!(text, "publish_transition row full\n")?,
    }
    Ok(())
}

/// The item set of a leaf with this operator and without an attribute, where it fits words.
pub fn leaf_items<L: Ledger>(
    alloc: Global,
    accepted: &Accepted,
    operator: u8,
    steps: &mut Steps<L>,
) -> Result<Items, Stop>
    ensures words { IfOk result (λ i. HasWords accepted.now.normal i) }
    ensures follows { IfOk result (λ i. Follows accepted.now.normal (key_of operator 0 []) i) }
{
    accepted.normal.is_standing();
    entries_have_rules();
    let class = accepted.normal.classes().class_of(None);
    let items = evaluate(alloc, &accepted.normal, operator, class, None, None, steps)?;
    if !fits(&items) {
        return Err(Stop::Unfit("the item set fits no words"));
    }
    Ok(items)
}

// Publishes the key with the number.
fn publish(
    pass: &mut Pass<'_>,
    key: Key,
    place: u32,
    number: u16,
    text: &mut String,
) -> Result<(), Stop>
    requires key { IsReadableKey (pass_view pass.old) key }
    requires walked { IsBehindKeys (pass_view pass.old) key place }
    requires number { IsNumberFor (pass_view pass.old) key number }
    ensures normal { (told_of_pass pass.new).normal ≡ (told_of_pass pass.old).normal }
    ensures standing { standing_of pass.new ≡ standing_of pass.old }
{
    let placed = pass.publish_transition(key, place, number);
    put_placed(text, placed)?;
    Ok(())
}

fn turn_where<L: Ledger>(
    may: bool,
    pass: &mut Pass<'_>,
    alloc: Global,
    accepted: &Accepted,
    tree: &Tree,
    text: &mut String,
    steps: &mut Steps<L>,
) -> Result<(), Stop>
    requires normal { (told_of_pass pass.old).normal ≡ accepted.now.normal }
    requires form { IsAcceptedForm accepted.now.grammar accepted.now.normal }
    requires tree { IsValidTree accepted.now.grammar tree.now }
    ensures normal { (told_of_pass pass.new).normal ≡ (told_of_pass pass.old).normal }
    ensures standing { standing_of pass.new ≡ standing_of pass.old }
{
    if !may {
        return Ok(());
    }
    turn(pass, alloc, accepted, tree, text, steps)
}

/// The first pass looks up the key of the leaf and its item set, and draws a number. Then the second pass labels
/// the leaf, where it may. Then the first pass publishes the item set, and the key with the number that it has.
pub fn meet<L: Ledger>(
    first: &mut Pass<'_>,
    second: &mut Pass<'_>,
    alloc: Global,
    accepted: &Accepted,
    leaf: &Tree,
    operator: u8,
    may_second: bool,
    text: &mut String,
    steps: &mut Steps<L>,
) -> Result<(), Stop>
    requires first { (told_of_pass first.old).normal ≡ accepted.now.normal }
    requires second { (told_of_pass second.old).normal ≡ accepted.now.normal }
    requires form { IsAcceptedForm accepted.now.grammar accepted.now.normal }
    requires leaf { IsValidTree accepted.now.grammar leaf.now }
    ensures first_normal { (told_of_pass first.new).normal ≡ (told_of_pass first.old).normal }
    ensures second_normal { (told_of_pass second.new).normal ≡ (told_of_pass second.old).normal }
    ensures first { standing_of first.new ≡ standing_of first.old }
    ensures second { standing_of second.new ≡ standing_of second.old }
{
    let key = Key {
        operator,
        kids: 0,
        left: 0,
        right: 0,
    };
    let items = leaf_items(alloc, accepted, operator, steps)?;
    let seen = first.find_transition(key);
    put_seen(text, seen)?;
    let found = first.find_state(&items);
    put_found(text, found)?;
    let drawn = first.draw_number();
    put_drawn(text, drawn)?;
    turn_where(may_second, second, alloc, accepted, leaf, text, steps)?;
    let Seen::Absent { place: free } = seen else {
        return Ok(());
    };
    let Found::Absent { place } = found else {
        return Ok(());
    };
    let Draw::Own(_) = drawn else {
        return Ok(());
    };
    match first.publish_state(&items, place) {
        Won::Own(number) => {
            write!(text, "publish_state own {number}\n")?;
            publish(first, key, free, number, text)
        }
        Won::Lost(number) => {
            write!(text, "publish_state lost {number}\n")?;
            publish(first, key, free, number, text)
        }
    }
}

/// The pass labels the leaf, and then looks up the key of the operator over it.
pub fn find_above<L: Ledger>(
    pass: &mut Pass<'_>,
    alloc: Global,
    accepted: &Accepted,
    leaf: &Tree,
    operator: u8,
    text: &mut String,
    steps: &mut Steps<L>,
) -> Result<(), Stop>
    requires normal { (told_of_pass pass.old).normal ≡ accepted.now.normal }
    requires form { IsAcceptedForm accepted.now.grammar accepted.now.normal }
    requires leaf { IsValidTree accepted.now.grammar leaf.now }
    ensures normal { (told_of_pass pass.new).normal ≡ (told_of_pass pass.old).normal }
    ensures standing { standing_of pass.new ≡ standing_of pass.old }
{
    let labels = label_tree(pass, alloc, &accepted.normal, leaf, steps)?;
    let Some(Label::Numbered(number)) = labels.of.get(0) else {
        return Err(Stop::Unfit("the leaf has no number"));
    };
    let key = Key {
        operator,
        kids: 1,
        left: *number,
        right: 0,
    };
    let seen = pass.find_transition(key);
    put_seen(text, seen)?;
    Ok(())
}
