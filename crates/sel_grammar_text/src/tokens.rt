//! Blanks, comments and tokens.

ghost use Rattle.std.specs.Prelude.{drop, ◌≡◌, ◌≤◌, ◌<◌, ◌+◌, ◌^◌, length, MatchOption, IfSome, false};
ghost use Rattle.std.specs.List.{prefix_len};
ghost use Rattle.std.specs.Char.{is_ascii_digit};
ghost use Rattle.sel_grammar.specs.Names as names;
ghost use Rattle.sel_grammar_text.specs.Blanks as blanks;
ghost use Rattle.sel_grammar_text.specs.ItemNumbers.{HasDigits};
ghost use Rattle.sel_grammar_text.specs.Pieces.{view};
ghost use Rattle.sel_grammar_text.specs.Spots as spots;
ghost use Rattle.sel_grammar_text.specs.Tokens as tokens;

use sel_base::digits::digits_len;
use sel_base::text::line_len;
use sel_grammar::names::{is_letter, is_name_byte};

fn is_blank(b: u8) -> bool
    ensures { result ≡ blanks.is_blank b }
{
    b == b' ' || b == b'\t' || b == b'\r' || b == 12 || b == b'\n'
}

/// What stands behind the first two such bytes.
fn behind_pair(first: u8, second: u8, bytes: &[u8]) -> Option<&[u8]>
    ensures shorter { IfSome result (λ rest. length rest.now + 2 ≤ length bytes.now) }
    ensures rest { MatchOption result (blanks.behind_pair first second bytes.now ≡ None) (λ rest. blanks.behind_pair first second bytes.now ≡ Some rest.now) }
{
    let mut left = bytes;
    while let [b, c, rest @ ..] = left {
        if *b == first && *c == second {
            return Some(rest);
        }
        left = &left[1..];
    }
    None
}

/// What stands behind one blank or comment.
fn behind_blank(bytes: &[u8]) -> Option<&[u8]>
    ensures shorter { IfSome result (λ rest. length rest.now < length bytes.now) }
    ensures rest { MatchOption result (blanks.behind_blank bytes.now ≡ None) (λ rest. blanks.behind_blank bytes.now ≡ Some rest.now) }
{
    match bytes {
        [b, rest @ ..] if is_blank(*b) => Some(rest),
        [b'/', b'*', rest @ ..] => behind_pair(b'*', b'/', rest),
        _ => None,
    }
}

/// The bytes without the blanks and comments at their front.
pub fn skip(bytes: &[u8]) -> &[u8]
    ensures skipped { result.now ≡ blanks.skip bytes.now }
    ensures shorter { length result.now ≤ length bytes.now }
{
    let mut left = bytes;
    while let Some(rest) = behind_blank(left) {
        left = rest;
    }
    left
}

/// How many bytes of a template stand before its closing quote on this line.
fn inside_len(bytes: &[u8]) -> Option<usize>
    ensures len { result ≡ tokens.inside_len false bytes.now }
    ensures fits { IfSome result (λ n. n < length bytes.now) }
{
    let mut escaped = false;
    for (n, b) in bytes.iter().enumerate() {
        if *b == b'\n' {
            return None;
        }
        if *b == b'"' && !escaped {
            return Some(n);
        }
        escaped = *b == b'\\' && !escaped;
    }
    None
}

pub fn name_len(bytes: &[u8]) -> usize
    ensures len { result ≡ prefix_len names.is_name_byte bytes.now }
    ensures fits { result ≤ length bytes.now }
{
    bytes.iter().take_while(|b| is_name_byte(**b)).count()
}

/// A token, which borrows the text.
#[derive(Clone, Copy)]
pub enum Piece<'a> {
    Name(&'a [u8]),
    Integer(&'a [u8]),
    Quoted(&'a [u8], &'a [u8]),
    Unclosed,
    Start,
    Term,
    Percents,
    Code(usize),
    OpenCode,
    Colon,
    Equals,
    Open,
    Close,
    Comma,
    Semi,
    Bad(u8),
    End,
}

fn mark<'a>(b: u8) -> Piece<'a>
    ensures { view result ≡ tokens.mark b }
{
    match b {
        b':' => Piece::Colon,
        b'=' => Piece::Equals,
        b'(' => Piece::Open,
        b')' => Piece::Close,
        b',' => Piece::Comma,
        b';' => Piece::Semi,
        _ => Piece::Bad(b),
    }
}

/// What a quote begins, by the bytes behind it.
fn quoted(bytes: &[u8]) -> Piece<'_>
    ensures token { view result ≡ tokens.quoted bytes.now }
    ensures fits { tokens.width (view result) ≤ length bytes.now + 1 }
{
    match inside_len(bytes) {
        None => Piece::Unclosed,
        Some(n) => {
            let behind = &bytes[n + 1..];
            Piece::Quoted(&bytes[..n], &behind[..line_len(behind)])
        }
    }
}

/// What a percent sign begins, by the bytes behind it.
fn percent(bytes: &[u8]) -> Piece<'_>
    ensures token { view result ≡ tokens.percent bytes.now }
    ensures fits { tokens.width (view result) ≤ length bytes.now + 1 }
{
    if bytes.starts_with(b"start") {
        Piece::Start
    } else if bytes.starts_with(b"term") {
        Piece::Term
    } else if bytes.starts_with(b"%") {
        Piece::Percents
    } else if bytes.starts_with(b"{") {
        match behind_pair(b'%', b'}', &bytes[1..]) {
            None => Piece::OpenCode,
            Some(rest) => Piece::Code(bytes.len() - rest.len() - 3),
        }
    } else {
        Piece::Bad(b'%')
    }
}

/// The token at the front of the bytes, which begin with no blank.
pub fn token_at(bytes: &[u8]) -> Piece<'_>
    ensures token { view result ≡ tokens.token_of bytes.now }
    ensures fits { tokens.width (view result) ≤ length bytes.now }
{
    let Some((first, behind)) = bytes.split_first() else {
        return Piece::End;
    };
    if is_letter(*first) {
        Piece::Name(&bytes[..name_len(bytes)])
    } else if first.is_ascii_digit() {
        Piece::Integer(&bytes[..digits_len(bytes)])
    } else if *first == b'"' {
        quoted(behind)
    } else if *first == b'%' {
        percent(behind)
    } else {
        mark(*first)
    }
}

/// How many bytes a token takes.
pub fn width(piece: &Piece<'_>) -> usize
    requires { tokens.width (view piece.now) < 2 ^ 64 }
    ensures { result ≡ tokens.width (view piece.now) }
{
    match piece {
        Piece::Name(bytes) | Piece::Integer(bytes) => bytes.len(),
        Piece::Quoted(inside, behind) => inside.len() + behind.len() + 2,
        Piece::Code(n) => *n + 4,
        Piece::Start => 6,
        Piece::Term => 5,
        Piece::Percents | Piece::OpenCode => 2,
        Piece::End => 0,
        _ => 1,
    }
}

/// A token, the bytes from it on, and the bytes behind it.
#[derive(Clone, Copy)]
pub struct Found<'a> {
    pub piece: Piece<'a>,
    pub from: &'a [u8],
    pub behind: &'a [u8],
}

/// The next token, blanks and comments left out.
#[tactic(auto, using(crate::proofs::DigitTokens::token_digits))]
pub fn next_token(bytes: &[u8]) -> Found<'_>
    ensures from { result.from.now ≡ blanks.skip bytes.now }
    ensures from_within { length result.from.now ≤ length bytes.now }
    ensures token { view result.piece ≡ tokens.token_of (blanks.skip bytes.now) }
    ensures digits { HasDigits (view result.piece) }
    ensures behind { result.behind.now ≡ spots.behind bytes.now }
    ensures behind_within { length result.behind.now + tokens.width (view result.piece) ≡ length result.from.now }
{
    let from = skip(bytes);
    let piece = token_at(from);
    let behind = &from[width(&piece)..];
    Found {
        piece,
        from,
        behind,
    }
}
