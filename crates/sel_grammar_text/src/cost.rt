//! The cost of a one-line rule.

ghost use Rattle.std.specs.Prelude.{◌≡◌, ◌+◌, ◌<◌, ◌≤◌, ◌^◌, [], ◌∷◌, length, MatchOption, IfSome, Some, None};
ghost use Rattle.std.specs.Option.{option_map};
ghost use Rattle.sel_grammar_text.specs.CostText as cost;
ghost use Rattle.sel_grammar_text.specs.CostPieces.{view, tokens_of, upper_in};
ghost use Rattle.sel_grammar_text.specs.Words.{view_word, view_amount, view_cost};

use crate::tokens::{name_len, skip};
use crate::words::{TextWord, WrittenAmount, WrittenCost};
use sel_base::digits::digits_len;
use sel_base::text::behind;
use sel_grammar::names::is_letter;

/// A token of a cost: a name, digits, digits behind their sign, or a single byte.
#[derive(Clone, Copy)]
enum CostPiece<'a> {
    Name(&'a [u8]),
    Digits(&'a [u8]),
    Negative(&'a [u8]),
    Single(u8),
}

/// What is left of a cost, and where it begins.
#[derive(Clone, Copy)]
struct CostRest<'a> {
    at: usize,
    bytes: &'a [u8],
}

/// A token, where it begins, and what stands behind it.
#[derive(Clone, Copy)]
struct FoundCost<'a> {
    piece: CostPiece<'a>,
    at: usize,
    rest: CostRest<'a>,
}

/// The token at the front of the bytes, which begin with the first byte and no blank.
fn piece_at<'a>(first: u8, behind: &[u8], bytes: &'a [u8]) -> CostPiece<'a>
    requires { bytes.now ≡ first ∷ behind.now }
    ensures token { view result ≡ cost.cost_token first behind.now }
    ensures fits { cost.cost_width (view result) ≤ length bytes.now }
{
    if is_letter(first) {
        CostPiece::Name(&bytes[..name_len(bytes)])
    } else if first.is_ascii_digit() {
        CostPiece::Digits(&bytes[..digits_len(bytes)])
    } else if first == b'-' && digits_len(behind) > 0 {
        CostPiece::Negative(&bytes[..1 + digits_len(behind)])
    } else {
        CostPiece::Single(first)
    }
}

fn width(piece: &CostPiece<'_>) -> usize
    ensures { result ≡ cost.cost_width (view piece.now) }
{
    match piece {
        CostPiece::Name(bytes) | CostPiece::Digits(bytes) | CostPiece::Negative(bytes) => {
            bytes.len()
        }
        CostPiece::Single(_) => 1,
    }
}

/// The next token, blanks and closed comments left out.
fn next_piece(rest: CostRest<'_>) -> Option<FoundCost<'_>>
    requires { rest.at + length rest.bytes.now < 2 ^ 63 }
    ensures token { MatchOption result (tokens_of rest.entry ≡ []) (λ found. tokens_of rest.entry ≡ (found.at, view found.piece) ∷ tokens_of found.rest) }
    ensures within { IfSome result (λ found. found.rest.at + length found.rest.bytes.now ≡ rest.entry.at + length rest.entry.bytes.now) }
{
    let from = skip(rest.bytes);
    let (first, more) = from.split_first()?;
    let piece = piece_at(*first, more, from);
    let at = rest.at + (rest.bytes.len() - from.len());
    let width = width(&piece);
    Some(FoundCost {
        piece,
        at,
        rest: CostRest {
            at: at + width,
            bytes: behind(from, width),
        },
    })
}

/// What stands behind the byte, where it is the next token.
fn behind_single(byte: u8, rest: CostRest<'_>) -> Option<CostRest<'_>>
    requires { rest.at + length rest.bytes.now < 2 ^ 63 }
    ensures rest { MatchOption result (cost.behind_token (cost.is_single byte) (tokens_of rest.entry) ≡ None) (λ r. cost.behind_token (cost.is_single byte) (tokens_of rest.entry) ≡ Some (tokens_of r)) }
    ensures within { IfSome result (λ r. r.at + length r.bytes.now ≡ rest.entry.at + length rest.entry.bytes.now) }
{
    let found = next_piece(rest)?;
    match found.piece {
        CostPiece::Single(b) if b == byte => Some(found.rest),
        _ => None,
    }
}

/// Whether the token is the name.
fn is_word(piece: &CostPiece<'_>, name: &[u8]) -> bool
    ensures { result ≡ cost.is_word name.now (view piece.now) }
{
    match piece {
        CostPiece::Name(bytes) => *bytes == name,
        _ => false,
    }
}

/// What stands behind the name, where it is the next token.
fn behind_word<'a>(name: &[u8], rest: CostRest<'a>) -> Option<CostRest<'a>>
    requires { rest.at + length rest.bytes.now < 2 ^ 63 }
    ensures rest { MatchOption result (cost.behind_token (cost.is_word name.now) (tokens_of rest.entry) ≡ None) (λ r. cost.behind_token (cost.is_word name.now) (tokens_of rest.entry) ≡ Some (tokens_of r)) }
    ensures within { IfSome result (λ r. r.at + length r.bytes.now ≡ rest.entry.at + length rest.entry.bytes.now) }
{
    let found = next_piece(rest)?;
    if is_word(&found.piece, name) {
        Some(found.rest)
    } else {
        None
    }
}

/// A bound of a range, and what stands behind it.
fn read_bound(rest: CostRest<'_>) -> Option<(TextWord<'_>, CostRest<'_>)>
    requires { rest.at + length rest.bytes.now < 2 ^ 63 }
    ensures read { MatchOption result (cost.read_bound (tokens_of rest.entry) ≡ None) (λ r. cost.read_bound (tokens_of rest.entry) ≡ Some (view_word r.0, tokens_of r.1)) }
    ensures within { IfSome result (λ r. r.1.at + length r.1.bytes.now ≡ rest.entry.at + length rest.entry.bytes.now) }
{
    let found = next_piece(rest)?;
    let at = found.at;
    match found.piece {
        CostPiece::Digits(bytes) | CostPiece::Negative(bytes) => {
            Some((TextWord { bytes, at }, found.rest))
        }
        _ => None,
    }
}

/// The only token, where it is a number.
fn read_number(rest: CostRest<'_>) -> Option<TextWord<'_>>
    requires { rest.at + length rest.bytes.now < 2 ^ 63 }
    ensures { MatchOption result (cost.read_number (tokens_of rest.entry) ≡ None) (λ w. cost.read_number (tokens_of rest.entry) ≡ Some (view_word w)) }
{
    let found = next_piece(rest)?;
    let CostPiece::Digits(bytes) = found.piece else {
        return None;
    };
    match next_piece(found.rest) {
        None => Some(TextWord {
            bytes,
            at: found.at,
        }),
        Some(_) => None,
    }
}

/// A number, and what stands behind it.
fn read_digits(rest: CostRest<'_>) -> Option<(TextWord<'_>, CostRest<'_>)>
    requires { rest.at + length rest.bytes.now < 2 ^ 63 }
    ensures read { MatchOption result (cost.read_digits (tokens_of rest.entry) ≡ None) (λ r. cost.read_digits (tokens_of rest.entry) ≡ Some (view_word r.0, tokens_of r.1)) }
    ensures within { IfSome result (λ r. r.1.at + length r.1.bytes.now ≡ rest.entry.at + length rest.entry.bytes.now) }
{
    let found = next_piece(rest)?;
    let CostPiece::Digits(bytes) = found.piece else {
        return None;
    };
    let at = found.at;
    Some((TextWord { bytes, at }, found.rest))
}

/// Two numbers with a comma between them and a closing parenthesis, where nothing stands behind it.
fn read_pair(rest: CostRest<'_>) -> Option<WrittenAmount<'_>>
    requires { rest.at + length rest.bytes.now < 2 ^ 63 }
    ensures { MatchOption result (cost.read_pair (tokens_of rest.entry) ≡ None) (λ a. cost.read_pair (tokens_of rest.entry) ≡ Some (view_amount a)) }
{
    let (first, rest) = read_digits(rest)?;
    let rest = behind_single(b',', rest)?;
    let (second, rest) = read_digits(rest)?;
    let rest = behind_single(b')', rest)?;
    match next_piece(rest) {
        None => Some(WrittenAmount {
            first,
            second: Some(second),
        }),
        Some(_) => None,
    }
}

/// The amount that is left: a number, or two in parentheses.
fn read_amount(rest: CostRest<'_>) -> Option<WrittenAmount<'_>>
    requires { rest.at + length rest.bytes.now < 2 ^ 63 }
    ensures { MatchOption result (cost.read_amount (tokens_of rest.entry) ≡ None) (λ a. cost.read_amount (tokens_of rest.entry) ≡ Some (view_amount a)) }
{
    if let Some(behind) = behind_single(b'(', rest) {
        return read_pair(behind);
    }
    let first = read_number(rest)?;
    Some(WrittenAmount {
        first,
        second: None,
    })
}

/// The addend behind a range, which may be absent.
fn read_addend(rest: CostRest<'_>) -> Option<Option<WrittenAmount<'_>>>
    requires { rest.at + length rest.bytes.now < 2 ^ 63 }
    ensures { MatchOption result (cost.read_addend (tokens_of rest.entry) ≡ None) (λ addend. cost.read_addend (tokens_of rest.entry) ≡ Some (option_map view_amount addend)) }
{
    if next_piece(rest).is_none() {
        return Some(None);
    }
    let rest = behind_single(b'+', rest)?;
    let amount = read_amount(rest)?;
    Some(Some(amount))
}

/// The upper bound of a range behind a comma, whose lower one was read, and the addend behind the range.
fn read_upper<'a>(at: usize, lo: TextWord<'a>, rest: CostRest<'a>) -> Option<WrittenCost<'a>>
    requires { rest.at + length rest.bytes.now < 2 ^ 63 }
    ensures { MatchOption result (upper_in at (view_word lo.entry) (tokens_of rest.entry) ≡ None) (λ c. upper_in at (view_word lo.entry) (tokens_of rest.entry) ≡ Some (view_cost c)) }
{
    let rest = behind_single(b',', rest)?;
    let (hi, rest) = read_bound(rest)?;
    let rest = behind_single(b')', rest)?;
    let addend = read_addend(rest)?;
    Some(WrittenCost::Ranged(at, lo, hi, addend))
}

/// A range behind the word `range`, which stands at a place.
fn read_range(at: usize, rest: CostRest<'_>) -> Option<WrittenCost<'_>>
    requires { rest.at + length rest.bytes.now < 2 ^ 63 }
    ensures { MatchOption result (cost.read_range at (tokens_of rest.entry) ≡ None) (λ c. cost.read_range at (tokens_of rest.entry) ≡ Some (view_cost c)) }
{
    let rest = behind_single(b'(', rest)?;
    let rest = behind_word(b"a", rest)?;
    let rest = behind_single(b',', rest)?;
    let (lo, rest) = read_bound(rest)?;
    read_upper(at, lo, rest)
}

/// The cost that is left: none, an amount, or a range.
fn read_cost(rest: CostRest<'_>) -> Option<WrittenCost<'_>>
    requires { rest.at + length rest.bytes.now < 2 ^ 63 }
    ensures { MatchOption result (cost.read_cost (tokens_of rest.entry) ≡ None) (λ c. cost.read_cost (tokens_of rest.entry) ≡ Some (view_cost c)) }
{
    let Some(found) = next_piece(rest) else {
        return Some(WrittenCost::Absent);
    };
    if is_word(&found.piece, b"range") {
        return read_range(found.at, found.rest);
    }
    let amount = read_amount(rest)?;
    Some(WrittenCost::Amount(amount))
}

/// The cost that the bytes spell, which begin at a place.
#[tactic(auto, unfolding(crate::specs::CostText::cost_in))]
pub fn cost(at: usize, bytes: &[u8]) -> Option<WrittenCost<'_>>
    requires { at + length bytes.now < 2 ^ 63 }
    ensures { MatchOption result (cost.cost_in at bytes.now ≡ None) (λ c. cost.cost_in at bytes.now ≡ Some (view_cost c)) }
{
    read_cost(CostRest { at, bytes })
}

/// Where bytes that spell no cost first have something else than a blank.
pub fn wrong_cost_at(at: usize, bytes: &[u8]) -> Option<usize>
    requires { at + length bytes.now < 2 ^ 63 }
    ensures { result ≡ cost.wrong_cost at bytes.now }
{
    match cost(at, bytes) {
        None => Some(at + (bytes.len() - skip(bytes).len())),
        Some(_) => None,
    }
}
