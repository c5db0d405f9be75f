//! Which bytes a String may have, and lists of costs.

ghost use Rattle.std.specs.Prelude.{◌≡◌, ℕ, ◌+◌, ◌<◌, ◌≤◌, ◌^◌, ◌==◌, List, [], ◌∷◌, length, drop, if◌then◌else◌, MatchOption, IfSome, Some, None};
ghost use Rattle.sel_grammar_text.specs.FormFaults as faults;

use crate::tokens::{Piece, next_token};

fn is_string_byte(b: u8) -> bool
    ensures { result ≡ faults.is_string_byte b }
{
    b == b'\t' || (b >= 32 && b <= 126) || b >= 128
}

/// Whether the byte may stand behind a backslash.
fn is_escape(b: u8) -> bool
    ensures { result ≡ faults.is_escape b }
{
    b == b'n' || b == b't' || b == b'"' || b == b'\\'
}

/// How many bytes of a last byte are lawful: all one, or none.
fn lone_len(b: u8) -> usize
    ensures fits { result ≤ 1 }
    ensures lawful { (at : ℕ) → faults.bad_byte at (b ∷ []) ≡ (if result == 0 then Some at else None) }
{
    if is_string_byte(b) { 1 } else { 0 }
}

/// How many bytes at the front are a lawful byte or escape: none, one, or two.
fn pair_len(b: u8, c: u8) -> usize
    ensures fits { result ≤ 2 }
    ensures lawful { (at : ℕ) (bytes : List ℕ) → faults.bad_byte at (b ∷ c ∷ bytes) ≡ (if result == 0 then Some at else faults.bad_byte (at + result) (drop result (b ∷ c ∷ bytes))) }
{
    if b == b'\\' {
        if is_escape(c) { 2 } else { 0 }
    } else if is_string_byte(b) {
        1
    } else {
        0
    }
}

/// How many bytes at the front are a lawful byte or escape. It is 0 for no bytes too.
fn lawful_len(bytes: &[u8]) -> usize
    ensures fits { result ≤ length bytes.now }
    ensures lawful { (at : ℕ) → faults.bad_byte at bytes.now ≡ (if result == 0 then (if length bytes.now == 0 then None else Some at) else faults.bad_byte (at + result) (drop result bytes.now)) }
{
    let Some((first, behind)) = bytes.split_first() else {
        return 0;
    };
    match behind.split_first() {
        None => lone_len(*first),
        Some((second, _)) => pair_len(*first, *second),
    }
}

/// Where the first byte is that a String may not have, or the backslash of another escape. The bytes
/// begin at a place.
pub fn bad_byte_at(start: usize, inside: &[u8]) -> Option<usize>
    requires { start + length inside.now < 2 ^ 63 }
    ensures { result ≡ faults.bad_byte start inside.now }
{
    let mut at = start;
    let mut rest = inside;
    'bytes: loop {
        let len = lawful_len(rest);
        if len == 0 {
            break;
        }
        at += len;
        rest = &rest[len..];
    }
    if rest.is_empty() { None } else { Some(at) }
}

/// The bytes behind a comma and an Integer, where they begin with these.
fn behind_further(bytes: &[u8]) -> Option<&[u8]>
    ensures rest { MatchOption result (faults.behind_further bytes.now ≡ None) (λ rest. faults.behind_further bytes.now ≡ Some rest.now) }
    ensures shorter { IfSome result (λ rest. length rest.now < length bytes.now) }
{
    let comma = next_token(bytes);
    let Piece::Comma = comma.piece else {
        return None;
    };
    let integer = next_token(comma.behind);
    let Piece::Integer(_) = integer.piece else {
        return None;
    };
    Some(integer.behind)
}

/// Whether Integers with commas before them follow, and then `)`.
fn closes(bytes: &[u8]) -> bool
    ensures { result ≡ faults.closes bytes.now }
{
    let mut left = bytes;
    'further: while let Some(rest) = behind_further(left) {
        left = rest;
    }
    matches!(next_token(left).piece, Piece::Close)
}

/// Whether three or more Integers with commas between them follow, and then `)`.
pub fn is_cost_list(bytes: &[u8]) -> bool
    ensures { result ≡ faults.is_cost_list bytes.now }
{
    let first = next_token(bytes);
    let Piece::Integer(_) = first.piece else {
        return false;
    };
    let Some(second) = behind_further(first.behind) else {
        return false;
    };
    match behind_further(second) {
        None => false,
        Some(rest) => closes(rest),
    }
}
