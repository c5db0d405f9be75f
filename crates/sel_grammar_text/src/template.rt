//! Templates.

ghost use Rattle.std.specs.Prelude.{◌≡◌, ◌≤◌, ◌+◌, ◌∷◌, [], List, ℕ, ◌<◌, ◌^◌, if◌then◌else◌, length, drop, Some, IfSome, IfOk, OnOk, ◌++◌, MatchOption, false};
ghost use Rattle.sel_grammar_text.specs.declared.template.TemplatePiece.{TemplatePiece};
ghost use Rattle.sel_grammar_text.specs.TemplateText.{pieces, unescape, bad_sign, parts_of, template_of, text_part, put, is_text, Adds};

use sel_base::text::behind;
use sel_base::{List, NoMemory};
use sel_grammar::Part;
use std::alloc::Global;

/// A piece of a template: a byte, after the escapes, or a percent sign with the byte behind it, where
/// there is one.
#[derive(Clone, Copy)]
pub enum TemplatePiece {
    Byte(u8),
    Sign(u8),
    LoneSign,
}

fn unescaped(b: u8) -> u8
    ensures { result ≡ unescape b }
{
    match b {
        b'n' => b'\n',
        b't' => b'\t',
        _ => b,
    }
}

/// A last byte.
fn alone(b: u8) -> TemplatePiece
    ensures { (at : ℕ) → pieces at (b ∷ []) ≡ (at, result) ∷ [] }
{
    if b == b'%' {
        TemplatePiece::LoneSign
    } else {
        TemplatePiece::Byte(b)
    }
}

/// A byte with another one behind it, and how many of the two it takes.
fn together(b: u8, c: u8) -> (TemplatePiece, usize)
    ensures fits { (0 < result.1) × (result.1 ≤ 2) }
    ensures cut { (at : ℕ) (bytes : List ℕ) → pieces at (b ∷ c ∷ bytes) ≡ (at, result.0) ∷ pieces (at + result.1) (drop result.1 (b ∷ c ∷ bytes)) }
{
    if b == b'\\' {
        (TemplatePiece::Byte(unescaped(c)), 2)
    } else if b == b'%' {
        (TemplatePiece::Sign(c), 2)
    } else {
        (TemplatePiece::Byte(b), 1)
    }
}

/// What stands at the front, and how many bytes it takes.
pub fn next_piece(bytes: &[u8]) -> Option<(TemplatePiece, usize)>
    ensures fits { IfSome result (λ x. (0 < x.1) × (x.1 ≤ length bytes.now)) }
    ensures cut { (at : ℕ) → MatchOption result (pieces at bytes.now ≡ []) (λ x. pieces at bytes.now ≡ (at, x.0) ∷ pieces (at + x.1) (drop x.1 bytes.now)) }
{
    let (first, behind) = bytes.split_first()?;
    match behind.split_first() {
        None => Some((alone(*first), 1)),
        Some((second, _)) => Some(together(*first, *second)),
    }
}

/// The first percent sign that isn't followed by a digit, `a`, `c` or `%`, where the template stands at a place.
pub fn bad_sign_at(at: usize, inside: &[u8]) -> Option<usize>
    requires { at + length inside.now < 2 ^ 63 }
    ensures { result ≡ bad_sign (pieces at inside.now) }
{
    let mut place = at;
    let mut rest = inside;
    'pieces: while let Some((piece, width)) = next_piece(rest) {
        if !is_lawful(piece) {
            return Some(place);
        }
        place += width;
        rest = &rest[width..];
    }
    None
}

/// Whether what follows a percent sign may follow it.
fn is_lawful(piece: TemplatePiece) -> bool
    ensures { (at : ℕ) (ps : List (ℕ × TemplatePiece)) → bad_sign ((at, piece) ∷ ps) ≡ (if result then bad_sign ps else Some at) }
{
    match piece {
        TemplatePiece::Byte(_) => true,
        TemplatePiece::Sign(c) => c.is_ascii_digit() || c == b'a' || c == b'c' || c == b'%',
        TemplatePiece::LoneSign => false,
    }
}

/// What a piece adds to a template: a byte of text, or a part that is no text.
#[derive(Drop)]
pub enum Addition {
    Byte(u8),
    Part(Part),
}

fn addition_of(piece: TemplatePiece) -> Addition
    ensures put { (at : ℕ) (ps : List (ℕ × TemplatePiece)) → parts_of ((at, piece) ∷ ps) ≡ put result (parts_of ps) }
    ensures no_text { is_text result ≡ false }
{
    match piece {
        TemplatePiece::Byte(b) => Addition::Byte(b),
        TemplatePiece::Sign(b'a') => Addition::Part(Part::Attribute),
        TemplatePiece::Sign(b'c') => Addition::Part(Part::Temp),
        TemplatePiece::Sign(b'%') | TemplatePiece::LoneSign => Addition::Byte(b'%'),
        TemplatePiece::Sign(c) => Addition::Part(Part::Kid(c.saturating_sub(b'0'))),
    }
}

/// Adds the text as a part, unless it is empty.
fn flush(parts: &mut Vec<Part>, text: Vec<u8>) -> Result<(), NoMemory>
    ensures { OnOk result (parts.new.items ≡ parts.old.items ++ text_part text.items) }
{
    if !text.is_empty() {
        parts.push(Part::Text(List::from_vec(text)))?;
    }
    Ok(())
}

/// Adds a byte to the text that waits, or the text and a part to the parts, and gives the text that
/// waits then.
fn add(
    alloc: Global,
    parts: &mut Vec<Part>,
    text: Vec<u8>,
    addition: Addition,
) -> Result<Vec<u8>, NoMemory>
    requires { is_text addition ≡ false }
    ensures { IfOk result (λ t. Adds parts.old.items text.items addition parts.new.items t.items) }
{
    let mut text = text;
    match addition {
        Addition::Byte(b) => {
            text.push(b)?;
            Ok(text)
        }
        Addition::Part(part) => {
            flush(parts, text)?;
            parts.push(part)?;
            Ok(Vec::new(alloc))
        }
    }
}

/// The parts of the template between the quotes.
pub fn template(alloc: Global, inside: &[u8]) -> Result<Vec<Part>, NoMemory>
    ensures { IfOk result (λ parts. parts.items ≡ template_of inside.now) }
{
    let mut parts = Vec::new(alloc);
    let mut text = Vec::new(alloc);
    let mut rest = inside;
    'pieces: while let Some((piece, width)) = next_piece(rest) {
        text = add(alloc, &mut parts, text, addition_of(piece))?;
        rest = behind(rest, width);
    }
    flush(&mut parts, text)?;
    Ok(parts)
}
