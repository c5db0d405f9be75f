//! Lines and columns, kept as a text is read.

ghost use Rattle.std.specs.Prelude.{◌≡◌, ℕ, ◌+◌, ◌<◌, ◌^◌, List, ◌++◌, length};
ghost use Rattle.sel_grammar_text.specs.Places.{IsPlaceBehind};

/// A line and a column, both from 1. The column counts bytes.
#[derive(Clone, Copy)]
pub struct Place {
    pub line: u32,
    pub column: u32,
}

/// The place behind some more bytes.
pub fn advance(place: Place, bytes: &[u8]) -> Place
    requires line_fits { place.line + length bytes.now < 2 ^ 32 }
    requires column_fits { place.column + length bytes.now < 2 ^ 32 }
    ensures { (before : List ℕ) → IsPlaceBehind before place → IsPlaceBehind (before ++ bytes.now) result }
{
    let mut line = place.line;
    let mut column = place.column;
    let mut rest = bytes;
    'bytes: while let Some((first, behind)) = rest.split_first() {
        if *first == b'\n' {
            line += 1;
            column = 1;
        } else {
            column += 1;
        }
        rest = behind;
    }
    Place { line, column }
}
