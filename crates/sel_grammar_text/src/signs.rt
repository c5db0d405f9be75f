//! What the percent signs and the end of a template say.

ghost use Rattle.std.specs.Prelude.{◌≡◌, ℕ, ◌+◌, ◌∷◌, List, ◌<◌, ◌^◌, ◌==◌, ◌&&◌, Some, if◌then◌else◌, length, false};
ghost use Rattle.sel_grammar_text.specs.declared.template.TemplatePiece.{TemplatePiece};
ghost use Rattle.sel_grammar_text.specs.TemplateText.{pieces, first_sign, ends_line, is_line_end, ends_line_from};
ghost use Rattle.sel_grammar_text.specs.Checks as checks;

use crate::template::{TemplatePiece, next_piece};
use sel_base::text::behind;

/// Whether the template begins with `?` or `#`.
pub fn begins_reserved(inside: &[u8]) -> bool
    ensures { result ≡ checks.begins_reserved inside.now }
{
    match inside.split_first() {
        None => false,
        Some((first, _)) => *first == b'?' || *first == b'#',
    }
}

/// Whether the piece names a kid past so many.
fn is_past_kid(piece: TemplatePiece, leaves: usize) -> bool
    ensures { (at : ℕ) (ps : List (ℕ × TemplatePiece)) → first_sign (checks.is_past_kid leaves) ((at, piece) ∷ ps) ≡ (if result then Some at else first_sign (checks.is_past_kid leaves) ps) }
{
    match piece {
        TemplatePiece::Sign(c) => c.is_ascii_digit()
            && leaves <= usize::from(c.saturating_sub(b'0')),
        _ => false,
    }
}

/// Whether the piece names the result.
fn is_result(piece: TemplatePiece) -> bool
    ensures { (at : ℕ) (ps : List (ℕ × TemplatePiece)) → first_sign (λ c. c == 99) ((at, piece) ∷ ps) ≡ (if result then Some at else first_sign (λ c. c == 99) ps) }
{
    match piece {
        TemplatePiece::Sign(c) => c == b'c',
        _ => false,
    }
}

/// The first sign that names a kid past so many, where the template stands at a place.
pub fn past_kid_at(at: usize, inside: &[u8], leaves: usize) -> Option<usize>
    requires { at + length inside.now < 2 ^ 63 }
    ensures { result ≡ first_sign (checks.is_past_kid leaves) (pieces at inside.now) }
{
    let mut place = at;
    let mut rest = inside;
    'pieces: while let Some((piece, width)) = next_piece(rest) {
        if is_past_kid(piece, leaves) {
            return Some(place);
        }
        place += width;
        rest = behind(rest, width);
    }
    None
}

/// The first sign that names the result, where the template stands at a place.
pub fn result_at(at: usize, inside: &[u8]) -> Option<usize>
    requires { at + length inside.now < 2 ^ 63 }
    ensures { result ≡ first_sign (λ c. c == 99) (pieces at inside.now) }
{
    let mut place = at;
    let mut rest = inside;
    'pieces: while let Some((piece, width)) = next_piece(rest) {
        if is_result(piece) {
            return Some(place);
        }
        place += width;
        rest = behind(rest, width);
    }
    None
}

fn is_line_end_piece(piece: TemplatePiece) -> bool
    ensures { result ≡ is_line_end piece }
{
    match piece {
        TemplatePiece::Byte(b) => b == b'\n',
        _ => false,
    }
}

/// Whether the last byte of the template, after the escapes, is a line end.
pub fn is_instruction(inside: &[u8]) -> bool
    ensures { (at : ℕ) → result ≡ ends_line_from false (pieces at inside.now) }
{
    let mut ends = false;
    let mut rest = inside;
    'pieces: while let Some((piece, width)) = next_piece(rest) {
        ends = is_line_end_piece(piece);
        rest = behind(rest, width);
    }
    ends
}
