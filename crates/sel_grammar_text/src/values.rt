//! Numbers of an item that passed its checks.

ghost use Rattle.std.specs.Prelude.{◌≡◌, ◌≤◌, ◌<◌, ◌^◌, None, pos, neg_ℤ};
ghost use Rattle.std.specs.Str.Parse.{digits_value, AllDigits};
ghost use Rattle.sel_grammar_text.specs.Checks.{large_bound};
ghost use Rattle.sel_grammar_text.specs.ItemNumbers.{IsBound, IsNumber};
ghost use Rattle.sel_grammar_text.specs.Meaning as meaning;
ghost use Rattle.sel_grammar_text.specs.Words.{view_word};

use crate::words::TextWord;
use sel_base::digits::number;

/// The number that the digits write, which is at most the limit.
pub fn value_of(word: &TextWord<'_>, limit: u32) -> u32
    requires digits { IsNumber (view_word word.now) }
    requires fits { digits_value 10 word.now.bytes.now ≤ limit }
    ensures value { result ≡ digits_value 10 word.now.bytes.now }
    ensures limited { result ≤ limit }
{
    match number(word.bytes, limit as u64) {
        None => 0,
        Some(value) => value as u32,
    }
}

fn positive(digits: &[u8]) -> i64
    requires digits { AllDigits 10 digits.now }
    requires fits { digits_value 10 digits.now < 2 ^ 63 }
    ensures { result ≡ pos (digits_value 10 digits.now) }
{
    match number(digits, i64::MAX as u64) {
        None => 0,
        Some(value) => value as i64,
    }
}

fn negative(digits: &[u8]) -> i64
    requires digits { AllDigits 10 digits.now }
    requires fits { digits_value 10 digits.now ≤ 2 ^ 63 }
    ensures { result ≡ neg_ℤ (pos (digits_value 10 digits.now)) }
{
    match number(digits, 1 << 63) {
        None => 0,
        Some(value) => (0 - value as i128) as i64,
    }
}

/// The number that a bound writes.
pub fn bound_of(word: &TextWord<'_>) -> i64
    requires digits { IsBound (view_word word.now) }
    requires fits { large_bound (view_word word.now) ≡ None }
    ensures { result ≡ meaning.bound_of (view_word word.now) }
{
    match word.bytes.split_first() {
        None => 0,
        Some((first, rest)) => {
            if *first == b'-' {
                negative(rest)
            } else {
                positive(word.bytes)
            }
        }
    }
}
