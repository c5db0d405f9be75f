//! Signed decimal numbers.

ghost use Rattle.std.specs.Prelude.{◌≡◌, ℕ, ◌≤◌, ◌<◌, ◌^◌, length, MatchOption, true, false, pos, neg_ℤ};
ghost use Rattle.std.specs.Str.Parse.{digits_value, AllDigits};
ghost use Rattle.sel_forest.specs.TreeText.{is_negative, without_sign, value_of};
ghost use Rattle.sel_forest.specs.LineFaults.{is_too_large};

use sel_base::digits::number as many;

/// So many bytes, or fewer, write a number that isn't too large.
pub const FEW: usize = 18;

/// The number that a few digits write.
fn few(digits: &[u8]) -> u64
    requires digits { AllDigits 10 digits.now }
    requires few { length digits.now ≤ 18 }
    ensures { result ≡ digits_value 10 digits.now }
{
    let mut value: u64 = 0;
    'digits: for digit in digits {
        value = value * 10 + (*digit - b'0') as u64;
    }
    value
}

/// The number that the digits write, where it is at most the limit, which is above what a few digits write.
fn magnitude(digits: &[u8], limit: u64) -> Option<u64>
    requires digits { AllDigits 10 digits.now }
    requires limit { 10 ^ 18 ≤ limit }
    ensures { MatchOption result (limit < digits_value 10 digits.now) (λ n. (n ≡ digits_value 10 digits.now) × (n ≤ limit)) }
{
    if digits.len() <= FEW {
        return Some(few(digits));
    }
    many(digits, limit)
}

fn positive(digits: &[u8]) -> Option<i64>
    requires { AllDigits 10 digits.now }
    ensures { MatchOption result (2 ^ 63 ≤ digits_value 10 digits.now) (λ z. (z ≡ pos (digits_value 10 digits.now)) × (digits_value 10 digits.now < 2 ^ 63)) }
{
    match magnitude(digits, i64::MAX as u64) {
        Some(value) => Some(value as i64),
        None => None,
    }
}

fn negative(digits: &[u8]) -> Option<i64>
    requires { AllDigits 10 digits.now }
    ensures { MatchOption result (2 ^ 63 < digits_value 10 digits.now) (λ z. (z ≡ neg_ℤ (pos (digits_value 10 digits.now))) × (digits_value 10 digits.now ≤ 2 ^ 63)) }
{
    match magnitude(digits, 1 << 63) {
        Some(value) => Some((0 - value as i128) as i64),
        None => None,
    }
}

/// The value of an optional minus sign and digits, where it is a signed 64-bit number.
pub fn number(bytes: &[u8]) -> Option<i64>
    requires { AllDigits 10 (without_sign bytes.now) }
    ensures { MatchOption result (is_too_large bytes.now ≡ true) (λ z. (z ≡ value_of bytes.now) × (is_too_large bytes.now ≡ false)) }
{
    match bytes.split_first() {
        None => positive(bytes),
        Some((first, rest)) => {
            if *first == b'-' {
                negative(rest)
            } else {
                positive(bytes)
            }
        }
    }
}
