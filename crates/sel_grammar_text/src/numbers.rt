//! Numbers of a rule that are too large.

ghost use Rattle.std.specs.Prelude.{◌≡◌, option_map};
ghost use Rattle.sel_grammar_text.specs.Checks as checks;
ghost use Rattle.sel_grammar_text.specs.ItemNumbers.{IsBound, IsNumber, IsNumberIfAny, HasNumbersInAmount, HasNumbersIfAny, HasNumbersInCost, HasNumbersInTail};
ghost use Rattle.sel_grammar_text.specs.Words.{view_word, view_amount, view_cost, view_tail};

use crate::words::{Tail, TextWord, WrittenAmount, WrittenCost};
use sel_base::digits::number;
use sel_grammar::limits::GREATEST_COST;

/// The number is greater than a cost may be.
fn large_cost(word: &TextWord<'_>) -> Option<usize>
    requires { IsNumber (view_word word.now) }
    ensures { result ≡ checks.large_cost (view_word word.now) }
{
    match number(word.bytes, GREATEST_COST as u64) {
        None => Some(word.at),
        Some(_) => None,
    }
}

fn large_option(word: &Option<TextWord<'_>>) -> Option<usize>
    requires { IsNumberIfAny (option_map view_word word.now) }
    ensures { result ≡ checks.large_option (option_map view_word word.now) }
{
    match word {
        None => None,
        Some(word) => large_cost(word),
    }
}

/// The first of the amount's numbers that is too large.
fn large_amount(amount: &WrittenAmount<'_>) -> Option<usize>
    requires { HasNumbersInAmount (view_amount amount.now) }
    ensures { result ≡ checks.large_amount (view_amount amount.now) }
{
    if let Some(at) = large_cost(&amount.first) {
        return Some(at);
    }
    large_option(&amount.second)
}

fn large_amount_if_any(amount: &Option<WrittenAmount<'_>>) -> Option<usize>
    requires { HasNumbersIfAny (option_map view_amount amount.now) }
    ensures { result ≡ checks.large_amount_if_any (option_map view_amount amount.now) }
{
    match amount {
        None => None,
        Some(amount) => large_amount(amount),
    }
}

/// The number is outside the signed 64-bit numbers.
fn large_bound(word: &TextWord<'_>) -> Option<usize>
    requires { IsBound (view_word word.now) }
    ensures { result ≡ checks.large_bound (view_word word.now) }
{
    let value = match word.bytes.split_first() {
        None => Some(0),
        Some((first, rest)) => {
            if *first == b'-' {
                number(rest, 1 << 63)
            } else {
                number(word.bytes, i64::MAX as u64)
            }
        }
    };
    match value {
        None => Some(word.at),
        Some(_) => None,
    }
}

fn large_in_cost(cost: &WrittenCost<'_>) -> Option<usize>
    requires { HasNumbersInCost (view_cost cost.now) }
    ensures { result ≡ checks.large_in_cost (view_cost cost.now) }
{
    match cost {
        WrittenCost::Absent => None,
        WrittenCost::Amount(amount) => large_amount(amount),
        WrittenCost::Ranged(_, lo, hi, addend) => {
            if let Some(at) = large_bound(lo) {
                return Some(at);
            }
            if let Some(at) = large_bound(hi) {
                return Some(at);
            }
            large_amount_if_any(addend)
        }
    }
}

/// The first number of the tail that is too large.
pub fn large_in_tail(tail: &Tail<'_>) -> Option<usize>
    requires { HasNumbersInTail (view_tail tail.now) }
    ensures { result ≡ checks.large_in_tail (view_tail tail.now) }
{
    match tail {
        Tail::OneLine(_, cost) => large_in_cost(cost),
        Tail::Burg(_, cost) => large_amount_if_any(cost),
    }
}
