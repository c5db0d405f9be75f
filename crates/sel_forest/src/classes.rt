//! Bytes by their class.

ghost use Rattle.std.specs.Prelude.{◌≡◌, ◌==◌, ◌||◌};
ghost use Rattle.sel_forest.specs.Symbols as symbols;

const BLANK: u8 = 1;

const SYMBOL: u8 = 2;

const DIGIT: u8 = 3;

const LETTER: u8 = 4;

/// The class of each byte: a blank, `.`, `$` or `@`, a digit, a letter or `_`, or none of these.
const CLASSES: [u8; 256] = [
    0, 0, 0, 0, 0, 0, 0, 0, 0, 1, 0, 0, 1, 1, 0, 0, 0, 0, 0, 0, 0, 0, 0, 0, 0, 0, 0, 0, 0, 0, 0, 0,
    1, 0, 0, 0, 2, 0, 0, 0, 0, 0, 0, 0, 0, 0, 2, 0, 3, 3, 3, 3, 3, 3, 3, 3, 3, 3, 0, 0, 0, 0, 0, 0,
    2, 4, 4, 4, 4, 4, 4, 4, 4, 4, 4, 4, 4, 4, 4, 4, 4, 4, 4, 4, 4, 4, 4, 4, 4, 4, 4, 0, 0, 0, 0, 4,
    0, 4, 4, 4, 4, 4, 4, 4, 4, 4, 4, 4, 4, 4, 4, 4, 4, 4, 4, 4, 4, 4, 4, 4, 4, 4, 4, 0, 0, 0, 0, 0,
    0, 0, 0, 0, 0, 0, 0, 0, 0, 0, 0, 0, 0, 0, 0, 0, 0, 0, 0, 0, 0, 0, 0, 0, 0, 0, 0, 0, 0, 0, 0, 0,
    0, 0, 0, 0, 0, 0, 0, 0, 0, 0, 0, 0, 0, 0, 0, 0, 0, 0, 0, 0, 0, 0, 0, 0, 0, 0, 0, 0, 0, 0, 0, 0,
    0, 0, 0, 0, 0, 0, 0, 0, 0, 0, 0, 0, 0, 0, 0, 0, 0, 0, 0, 0, 0, 0, 0, 0, 0, 0, 0, 0, 0, 0, 0, 0,
    0, 0, 0, 0, 0, 0, 0, 0, 0, 0, 0, 0, 0, 0, 0, 0, 0, 0, 0, 0, 0, 0, 0, 0, 0, 0, 0, 0, 0, 0, 0, 0,
];

#[tactic(auto, using(crate::proofs::ByteTable::blank_class))]
pub fn is_blank(b: u8) -> bool
    ensures { result ≡ symbols.is_blank b }
{
    CLASSES[b as usize] == BLANK
}

#[tactic(auto, using(crate::proofs::ByteTable::letter_class))]
pub fn is_letter(b: u8) -> bool
    ensures { result ≡ symbols.is_letter b }
{
    CLASSES[b as usize] == LETTER
}

#[tactic(auto, using(crate::proofs::ByteTable::name_class))]
pub fn is_name_byte(b: u8) -> bool
    ensures { result ≡ symbols.is_name_byte b }
{
    CLASSES[b as usize] >= DIGIT
}

#[tactic(auto, using(crate::proofs::ByteTable::mark_class))]
fn is_symbol_mark(b: u8) -> bool
    ensures { result ≡ ((b == 46) || (b == 36) || (b == 64)) }
{
    CLASSES[b as usize] == SYMBOL
}

pub fn is_symbol_start(b: u8) -> bool
    ensures { result ≡ symbols.is_symbol_start b }
{
    is_letter(b) || is_symbol_mark(b)
}

#[tactic(auto, using(crate::proofs::ByteTable::symbol_class))]
pub fn is_symbol_byte(b: u8) -> bool
    ensures { result ≡ symbols.is_symbol_byte b }
{
    CLASSES[b as usize] >= SYMBOL
}
