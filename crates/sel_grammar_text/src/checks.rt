//! The checks of an item that has no fault of form, behind the items so far.

ghost use Rattle.std.specs.Prelude.{◌≡◌, ℕ, List, [], ◌∷◌};
ghost use Rattle.sel_grammar_text.specs.Checks as checks;
ghost use Rattle.sel_grammar_text.specs.Items as items;
ghost use Rattle.sel_grammar_text.specs.ItemFaults as faults;
ghost use Rattle.sel_grammar_text.specs.ItemNumbers.{HasNumbers};
ghost use Rattle.sel_grammar_text.specs.Tables.{Means};
ghost use Rattle.sel_grammar_text.specs.Words as words;

use crate::fault::Fault;
use crate::names::is_operator;
use crate::numbers::large_in_tail;
use crate::rule_checks::{is_nullary, leaf_count, past_most, wrong_kids_at};
use crate::signs::{begins_reserved, is_instruction, past_kid_at, result_at};
use crate::tables::Tables;
use crate::template::bad_sign_at;
use crate::words::{Item, Tail, WrittenCost};
use sel_grammar::limits::{
    ARITY, COST_LARGE, DUPLICATE_TERM, KID_NUMBER, MOST_OPERATORS, MOST_RULES, RANGE_PLACE,
    RESULT_IN_FRAGMENT, TEMPLATE_FORM, TERM_ON_LEFT, TOO_MANY,
};

fn place_if(holds: bool, at: usize) -> Option<usize>
    ensures { result ≡ checks.place_if holds at }
{
    if holds { Some(at) } else { None }
}

/// A name that was declared before.
fn duplicate_term(tables: &Tables<'_>, item: &Item<'_>) -> Option<usize>
    ensures { (bytes : List ℕ) (before : List items.Item) → Means bytes before tables.now → result ≡ checks.duplicate_term before (words.view_item item.now) }
{
    match item {
        Item::Entry(name, _) => {
            place_if(
                is_operator(tables.operators.as_slice(), name.bytes),
                name.at,
            )
        }
        _ => None,
    }
}

/// An operator or a rule more than there may be.
fn too_many_items(tables: &Tables<'_>, item: &Item<'_>) -> Option<usize>
    ensures { (bytes : List ℕ) (before : List items.Item) → Means bytes before tables.now → result ≡ checks.too_many_items before (words.view_item item.now) }
{
    match item {
        Item::Entry(name, _) => place_if(MOST_OPERATORS <= tables.operators.len(), name.at),
        Item::Rule(rule) => place_if(MOST_RULES <= tables.rules.len(), rule.left.at),
        _ => None,
    }
}

/// A left name that is an operator.
fn term_on_left(tables: &Tables<'_>, item: &Item<'_>) -> Option<usize>
    ensures { (bytes : List ℕ) (before : List items.Item) → Means bytes before tables.now → result ≡ checks.term_on_left before (words.view_item item.now) }
{
    match item {
        Item::Rule(rule) => {
            place_if(
                is_operator(tables.operators.as_slice(), rule.left.bytes),
                rule.left.at,
            )
        }
        _ => None,
    }
}

/// A nonterminal more than there may be.
fn too_many_nonterminals(tables: &Tables<'_>, item: &Item<'_>) -> Option<usize>
    ensures { (bytes : List ℕ) (before : List items.Item) → Means bytes before tables.now → result ≡ checks.too_many_nonterminals before (words.view_item item.now) }
{
    match item {
        Item::Rule(rule) => {
            past_most(
                tables.operators.as_slice(),
                tables.nonterminals.as_slice(),
                rule,
            )
        }
        _ => None,
    }
}

/// The first name with a wrong number of kids.
fn arity(tables: &Tables<'_>, item: &Item<'_>) -> Option<usize>
    ensures { (bytes : List ℕ) (before : List items.Item) → Means bytes before tables.now → result ≡ checks.arity before (words.view_item item.now) }
{
    match item {
        Item::Rule(rule) => wrong_kids_at(tables.operators.as_slice(), rule.pattern.as_slice()),
        _ => None,
    }
}

/// A template that begins with `?` or `#`, or a percent sign that nothing lawful follows.
fn template_form(item: &Item<'_>) -> Option<usize>
    requires { HasNumbers (words.view_item item.now) }
    ensures { (before : List items.Item) → result ≡ checks.template_form before (words.view_item item.now) }
{
    match item {
        Item::Rule(rule) => match &rule.tail {
            Tail::OneLine(word, _) => {
                if begins_reserved(word.bytes) {
                    Some(word.at)
                } else {
                    bad_sign_at(word.at, word.bytes)
                }
            }
            Tail::Burg(_, _) => None,
        },
        _ => None,
    }
}

/// A kid that the pattern doesn't have.
fn kid_number(tables: &Tables<'_>, item: &Item<'_>) -> Option<usize>
    requires { HasNumbers (words.view_item item.now) }
    ensures { (bytes : List ℕ) (before : List items.Item) → Means bytes before tables.now → result ≡ checks.kid_number before (words.view_item item.now) }
{
    match item {
        Item::Rule(rule) => match &rule.tail {
            Tail::OneLine(word, _) => {
                let leaves = leaf_count(tables.operators.as_slice(), rule.pattern.as_slice());
                past_kid_at(word.at, word.bytes, leaves)
            }
            Tail::Burg(_, _) => None,
        },
        _ => None,
    }
}

/// The result in a template that is no instruction.
fn result_in_fragment(item: &Item<'_>) -> Option<usize>
    requires { HasNumbers (words.view_item item.now) }
    ensures { (before : List items.Item) → result ≡ checks.result_in_fragment before (words.view_item item.now) }
{
    match item {
        Item::Rule(rule) => match &rule.tail {
            Tail::OneLine(word, _) => {
                if is_instruction(word.bytes) {
                    None
                } else {
                    result_at(word.at, word.bytes)
                }
            }
            Tail::Burg(_, _) => None,
        },
        _ => None,
    }
}

/// Where the tail has a range.
fn range_at(tail: &Tail<'_>) -> Option<usize>
    ensures { result ≡ checks.range_at (words.view_tail tail.now) }
{
    match tail {
        Tail::OneLine(_, WrittenCost::Ranged(at, _, _, _)) => Some(*at),
        _ => None,
    }
}

/// A range where the pattern isn't one operator without kids.
fn range_place(tables: &Tables<'_>, item: &Item<'_>) -> Option<usize>
    ensures { (bytes : List ℕ) (before : List items.Item) → Means bytes before tables.now → result ≡ checks.range_place before (words.view_item item.now) }
{
    match item {
        Item::Rule(rule) => {
            if is_nullary(tables.operators.as_slice(), rule.pattern.as_slice()) {
                None
            } else {
                range_at(&rule.tail)
            }
        }
        _ => None,
    }
}

/// A bound, an addend or a cost that is too large.
fn cost_large(item: &Item<'_>) -> Option<usize>
    requires { HasNumbers (words.view_item item.now) }
    ensures { (before : List items.Item) → result ≡ checks.cost_large before (words.view_item item.now) }
{
    match item {
        Item::Rule(rule) => large_in_tail(&rule.tail),
        _ => None,
    }
}

/// The first of some places, each with its kind.
fn first_fault(places: [(u8, Option<usize>); 10]) -> Option<Fault>
    ensures { result ≡ faults.first_fault places }
{
    'places: for (kind, place) in places {
        if let Some(at) = place {
            return Some(Fault { kind, at });
        }
    }
    None
}

/// The fault of the first check, in their order, that the item doesn't pass behind the items so far.
pub fn check(tables: &Tables<'_>, item: &Item<'_>) -> Option<Fault>
    requires { HasNumbers (words.view_item item.now) }
    ensures { (bytes : List ℕ) (before : List items.Item) → Means bytes before tables.now → result ≡ faults.check before (words.view_item item.now) }
{
    first_fault([
        (DUPLICATE_TERM, duplicate_term(tables, item)),
        (TOO_MANY, too_many_items(tables, item)),
        (TERM_ON_LEFT, term_on_left(tables, item)),
        (TOO_MANY, too_many_nonterminals(tables, item)),
        (ARITY, arity(tables, item)),
        (TEMPLATE_FORM, template_form(item)),
        (KID_NUMBER, kid_number(tables, item)),
        (RESULT_IN_FRAGMENT, result_in_fragment(item)),
        (RANGE_PLACE, range_place(tables, item)),
        (COST_LARGE, cost_large(item)),
    ])
}
