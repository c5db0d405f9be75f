ghost use Rattle.std.specs.Prelude.{◌≡◌, ◌<◌, ◌+◌, ◌^◌, slice_get};
ghost use Rattle.sel_grammar.specs.Expansions.{is_result, has_result, is_instruction, is_line_feed, last_of};
ghost use Rattle.sel_expand.specs.Running.{parts_at};
ghost use Rattle.sel_expand.specs.Values.{kind_of, next_by};

use sel_forest::rule_of;
use sel_grammar::{Grammar, Part};

/// What a template makes: an instruction with a temporary as its value, an instruction with an empty
/// value, or a fragment, whose text is its value.
#[derive(Clone, Copy, Debug, Drop)]
pub enum Kind {
    Named,
    Unnamed,
    Fragment,
}

/// The parts of the rule's template.
pub fn parts_of(grammar: &Grammar, number: u16) -> &[Part]
    ensures { result.now ≡ parts_at grammar.now number }
{
    match rule_of(grammar, number) {
        Some(rule) => rule.template.parts.as_slice(),
        None => &[],
    }
}

fn is_result(part: &Part) -> bool
    ensures { result ≡ is_result part.now }
{
    match part {
        Part::Temp => true,
        _ => false,
    }
}

/// Whether some part is the result, `%c`.
fn has_result(parts: &[Part]) -> bool
    ensures { result ≡ has_result parts.now }
{
    let mut rest = parts;
    'parts: while let [part, others @ ..] = rest {
        if is_result(part) {
            return true;
        }
        rest = others;
    }
    false
}

fn ends_in_line_feed(text: &[u8]) -> bool
    ensures { result ≡ is_line_feed (last_of text.now) }
{
    match text.last() {
        Some(byte) => *byte == 10,
        None => false,
    }
}

/// Whether the template's last byte is a line end.
fn is_instruction(parts: &[Part]) -> bool
    ensures { result ≡ is_instruction parts.now }
{
    match parts.last() {
        Some(part) => match part {
            Part::Text(text) => ends_in_line_feed(text.as_slice()),
            _ => false,
        },
        None => false,
    }
}

pub fn kind_of(parts: &[Part]) -> Kind
    ensures { result ≡ kind_of parts.now }
{
    if !is_instruction(parts) {
        Kind::Fragment
    } else if has_result(parts) {
        Kind::Named
    } else {
        Kind::Unnamed
    }
}

/// The number of the next temporary behind a template of this kind.
pub fn next_by(kind: Kind, next: u64) -> u64
    requires { next + 1 < 2 ^ 64 }
    ensures { result ≡ next_by kind next }
{
    match kind {
        Kind::Named => next + 1,
        Kind::Unnamed | Kind::Fragment => next,
    }
}
