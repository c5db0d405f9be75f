//! Patterns, from their names in preorder.

ghost use Rattle.std.specs.Prelude.{◌≡◌, ◌≤◌, length, IfOk};
ghost use Rattle.sel_grammar_text.specs.Patterns.{built};

use sel_base::NoMemory;
use sel_grammar::Pattern;
use sqlite_items::Boxed;
use std::alloc::Global;

/// A name of a pattern: a nonterminal by its number, or an operator by its number with how many kids
/// it has.
#[derive(Clone, Copy, Drop)]
pub enum PatternName {
    Nonterminal(u16),
    Operator(u8, u8),
}

/// The pattern that begins with the first name, and the names behind it.
pub fn built_of(alloc: Global, names: &[PatternName]) -> Result<(Pattern, &[PatternName]), NoMemory>
    ensures shorter { IfOk result (λ x. length x.1.now ≤ length names.now) }
    ensures built { IfOk result (λ x. built names.now ≡ (x.0, x.1.now)) }
{
    let Some((first, rest)) = names.split_first() else {
        return Ok((Pattern::Leaf(0), names));
    };
    match *first {
        PatternName::Nonterminal(n) => Ok((Pattern::Leaf(n), rest)),
        PatternName::Operator(op, kids) => {
            if kids == 0 {
                return Ok((Pattern::Nullary(op), rest));
            }
            let (left, rest) = built_of(alloc, rest)?;
            if kids == 1 {
                return Ok((Pattern::Unary(op, Boxed::new(alloc, left)?), rest));
            }
            let (right, rest) = built_of(alloc, rest)?;
            Ok((
                Pattern::Binary(op, Boxed::new(alloc, left)?, Boxed::new(alloc, right)?),
                rest,
            ))
        }
    }
}
