//! Numbers in shortest decimals.

ghost use Rattle.std.specs.Prelude.{◌≡◌, ◌↔◌, ◌≤◌, ◌<◌, ◌^◌, ℕ, IsTrue, MatchOption};
ghost use Rattle.std.specs.Fmt.{decimal, signed_decimal};
ghost use Rattle.sel_table.specs.LineReading.{IsShortest, IsReadAs, IsAmount, IsNegativeOf, IsRule};

use sel_base::digits::{digits_len, number as value};

/// The greatest amount of a number of a cost that a text may have.
pub const GREATEST_COST: u64 = 999_999_999_999;

/// Whether the bytes are digits, one or more, the first being 0 only where it is alone.
fn is_shortest(bytes: &[u8]) -> bool
    ensures { IsTrue result ↔ IsShortest bytes.now }
{
    match bytes.first() {
        Some(first) => digits_len(bytes) == bytes.len() && (*first != b'0' || bytes.len() == 1),
        None => false,
    }
}

/// The number whose shortest decimals the bytes are, where it is at most the limit.
pub fn number(bytes: &[u8], limit: u64) -> Option<u64>
    ensures { MatchOption result ((n : ℕ) → n ≤ limit → bytes.now ≡ decimal n → ⊥) (λ n. (n ≤ limit) × (bytes.now ≡ decimal n)) }
{
    if is_shortest(bytes) {
        value(bytes, limit)
    } else {
        None
    }
}

/// The number of a cost, where the digits are those of its amount behind a minus sign.
fn negative(digits: &[u8]) -> Option<i64>
    ensures { IsNegativeOf digits.now result }
{
    match number(digits, GREATEST_COST) {
        Some(amount) => {
            if amount == 0 {
                None
            } else {
                Some(-(amount as i64))
            }
        }
        None => None,
    }
}

/// The number of a cost that the bytes spell, with its sign.
pub fn signed(bytes: &[u8]) -> Option<i64>
    ensures { IsReadAs IsAmount signed_decimal bytes.now result }
{
    match bytes.strip_prefix(b"-") {
        Some(digits) => negative(digits),
        None => match number(bytes, GREATEST_COST) {
            Some(amount) => Some(amount as i64),
            None => None,
        },
    }
}

/// The number of a rule that the bytes spell, from 1 to how many there are.
pub fn rule_number(bytes: &[u8], rules: u16) -> Option<u16>
    ensures { IsReadAs (IsRule rules) decimal bytes.now result }
{
    let Some(rule) = number(bytes, rules as u64) else {
        return None;
    };
    if rule == 0 {
        return None;
    }
    Some(rule as u16)
}
