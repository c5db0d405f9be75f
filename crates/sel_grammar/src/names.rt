//! Which bytes a name is made of, in the texts of grammars and of forests.
ghost use Rattle.std.specs.Prelude.{◌≡◌};
ghost use Rattle.sel_grammar.specs.Names as spec;

pub fn is_letter(b: u8) -> bool
    ensures { result ≡ spec.is_letter b }
{
    b.is_ascii_alphabetic() || b == b'_'
}

pub fn is_name_byte(b: u8) -> bool
    ensures { result ≡ spec.is_name_byte b }
{
    is_letter(b) || b.is_ascii_digit()
}
