//! Numbers in shortest decimals.

ghost use Rattle.std.specs.Prelude.{◌≡◌, ◌↔◌, ◌≤◌, ◌<◌, ◌^◌, ℕ, IsTrue, MatchOption};
ghost use Rattle.std.specs.Fmt.{decimal};
ghost use Rattle.sel_check.specs.LineReading.{IsShortest};

use sel_base::digits::{digits_len, number as value};

/// Whether the bytes are digits, one or more, the first being 0 only where it is alone.
fn is_shortest(bytes: &[u8]) -> bool
    ensures { IsTrue result ↔ IsShortest bytes.now }
{
    match bytes.first() {
        Some(first) => digits_len(bytes) == bytes.len() && (*first != b'0' || bytes.len() == 1),
        None => false,
    }
}

/// The number whose shortest decimals the bytes are, where it is at most the limit.
pub fn number(bytes: &[u8], limit: u64) -> Option<u64>
    ensures { MatchOption result ((n : ℕ) → n ≤ limit → bytes.now ≡ decimal n → ⊥) (λ n. (n ≤ limit) × (bytes.now ≡ decimal n)) }
{
    if is_shortest(bytes) {
        value(bytes, limit)
    } else {
        None
    }
}
