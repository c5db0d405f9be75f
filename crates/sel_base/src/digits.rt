//! Decimal numbers.

ghost use Rattle.std.specs.Prelude.{◌≡◌, ◌≤◌, ◌<◌, length, MatchOption};
ghost use Rattle.std.specs.Char.{is_ascii_digit};
ghost use Rattle.std.specs.List.{prefix_len};
ghost use Rattle.std.specs.Str.Parse.{digits_value, AllDigits};

/// The number that the digits write, where it is at most the limit.
pub fn number(digits: &[u8], limit: u64) -> Option<u64>
    requires { AllDigits 10 digits.now }
    ensures { MatchOption result (limit < digits_value 10 digits.now) (λ n. (n ≡ digits_value 10 digits.now) × (n ≤ limit)) }
{
    let mut value: u128 = 0;
    for digit in digits {
        value = value * 10 + (*digit - b'0') as u128;
        if value > limit as u128 {
            return None;
        }
    }
    Some(value as u64)
}

/// How many bytes at the front are digits.
#[inline(always)]
pub fn digits_len(bytes: &[u8]) -> usize
    ensures len { result ≡ prefix_len is_ascii_digit bytes.now }
    ensures fits { result ≤ length bytes.now }
{
    bytes.iter().take_while(|b| b.is_ascii_digit()).count()
}
