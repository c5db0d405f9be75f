//! The tokens of a line.

ghost use Rattle.std.specs.Prelude.{◌≡◌, ◌∷◌, ℕ, ◌≤◌, true, length, take, drop};
ghost use Rattle.std.specs.List.{prefix_len};
ghost use Rattle.sel_forest.specs.Symbols as symbols;
ghost use Rattle.sel_forest.specs.Tokens as tokens;
ghost use Rattle.sel_forest.specs.Pieces.{view};

use crate::classes::{is_blank, is_letter, is_name_byte, is_symbol_byte, is_symbol_start};
use sel_base::digits::digits_len;

/// How many bytes at the front are blanks.
fn blanks(bytes: &[u8]) -> usize
    ensures len { result ≡ prefix_len symbols.is_blank bytes.now }
    ensures fits { result ≤ length bytes.now }
{
    bytes.iter().take_while(|b| is_blank(**b)).count()
}

fn name_len(bytes: &[u8]) -> usize
    ensures len { result ≡ prefix_len symbols.is_name_byte bytes.now }
    ensures fits { result ≤ length bytes.now }
{
    bytes.iter().take_while(|b| is_name_byte(**b)).count()
}

fn symbol_len(bytes: &[u8]) -> usize
    ensures len { result ≡ prefix_len symbols.is_symbol_byte bytes.now }
    ensures fits { result ≤ length bytes.now }
{
    bytes.iter().take_while(|b| is_symbol_byte(**b)).count()
}

/// A token, which borrows the line.
#[derive(Clone, Copy, Debug)]
pub enum Piece<'a> {
    Name(&'a [u8]),
    Number(&'a [u8]),
    Symbol(&'a [u8]),
    Colon,
    Open,
    Comma,
    Close,
    Bad(u8),
    End,
}

/// A byte that is a token of its own, or none.
fn mark<'a>(b: u8) -> Piece<'a>
    ensures { view result ≡ tokens.mark b }
{
    match b {
        b':' => Piece::Colon,
        b'(' => Piece::Open,
        b',' => Piece::Comma,
        b')' => Piece::Close,
        _ => Piece::Bad(b),
    }
}

/// The token at a minus sign, where a number or a symbol is meant. The rest stands behind the sign.
#[inline(always)]
fn signed<'a>(bytes: &'a [u8], rest: &[u8]) -> Piece<'a>
    requires { bytes.now ≡ 45 ∷ rest.now }
    ensures token { view result ≡ tokens.token_of true bytes.now }
    ensures fits { tokens.width (view result) ≤ length bytes.now }
{
    let count = digits_len(rest);
    if count > 0 {
        Piece::Number(&bytes[..1 + count])
    } else {
        Piece::Bad(b'-')
    }
}

/// The token at the front of the bytes, which begin with no blank. Behind a colon a number or a symbol is meant.
#[inline(always)]
fn token_at(attribute: bool, bytes: &[u8]) -> Piece<'_>
    ensures token { view result ≡ tokens.token_of attribute bytes.now }
    ensures fits { tokens.width (view result) ≤ length bytes.now }
{
    let Some((first, rest)) = bytes.split_first() else {
        return Piece::End;
    };
    if attribute {
        if is_symbol_start(*first) {
            Piece::Symbol(&bytes[..symbol_len(bytes)])
        } else if first.is_ascii_digit() {
            Piece::Number(&bytes[..digits_len(bytes)])
        } else if *first == b'-' {
            signed(bytes, rest)
        } else {
            mark(*first)
        }
    } else if is_letter(*first) {
        Piece::Name(&bytes[..name_len(bytes)])
    } else {
        mark(*first)
    }
}

pub fn is_colon(piece: &Piece<'_>) -> bool
    ensures { result ≡ tokens.is_colon (view piece.now) }
{
    matches!(piece, Piece::Colon)
}

/// How many bytes a token takes.
fn width(piece: &Piece<'_>) -> usize
    ensures { result ≡ tokens.width (view piece.now) }
{
    match piece {
        Piece::Name(bytes) | Piece::Number(bytes) | Piece::Symbol(bytes) => bytes.len(),
        Piece::Colon | Piece::Open | Piece::Comma | Piece::Close | Piece::Bad(_) => 1,
        Piece::End => 0,
    }
}

/// A token, the bytes from it on, and the bytes behind it; and whether the bytes up to here are plain: no
/// blank is among them.
#[derive(Clone, Copy, Debug)]
pub struct Found<'a> {
    pub piece: Piece<'a>,
    pub from: &'a [u8],
    pub behind: &'a [u8],
    pub plain: bool,
}

/// Whether bytes that were plain before are so still: none of them was skipped.
#[inline(always)]
fn is_plain(plain: bool, from: &[u8], bytes: &[u8]) -> bool
    ensures { result ≡ true → (plain ≡ true) × (length from.now ≡ length bytes.now) }
{
    plain && from.len() == bytes.len()
}

/// The bytes from the first on that is no blank.
#[inline(always)]
fn skip(bytes: &[u8]) -> &[u8]
    ensures { result.now ≡ tokens.skip bytes.now }
{
    let Some(first) = bytes.first() else {
        return bytes;
    };
    if !is_blank(*first) {
        return bytes;
    }
    &bytes[blanks(bytes)..]
}

/// The next token, blanks left out.
#[inline(always)]
pub fn next_token(attribute: bool, plain: bool, bytes: &[u8]) -> Found<'_>
    ensures from { result.from.now ≡ tokens.skip bytes.now }
    ensures token { view result.piece ≡ tokens.token_of attribute (tokens.skip bytes.now) }
    ensures behind { result.behind.now ≡ drop (tokens.width (view result.piece)) (tokens.skip bytes.now) }
    ensures plain { result.plain ≡ true → (plain ≡ true) × (length result.from.now ≡ length bytes.now) }
{
    let from = skip(bytes);
    let plain = is_plain(plain, from, bytes);
    let piece = token_at(attribute, from);
    let behind = &from[width(&piece)..];
    Found {
        piece,
        from,
        behind,
        plain,
    }
}
