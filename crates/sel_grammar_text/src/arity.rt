//! How many kids operators have, by their first uses.

ghost use Rattle.std.specs.Prelude.{◌≡◌, ◌≤◌, map};
ghost use Rattle.std.specs.List.{AllByRecursion};
ghost use Rattle.sel_grammar.specs.Limits.{most_kids};
ghost use Rattle.sel_grammar_text.specs.Tables.{with_use, noted};
ghost use Rattle.sel_grammar_text.specs.Words.{view_named};

use crate::words::Named;
use sel_grammar::Operator;

/// Notes a use of the operator, where the name is its own.
fn note(operator: &mut Operator, named: &Named<'_>)
    requires { named.now.kids ≤ most_kids }
    ensures { operator.new ≡ with_use (view_named named.now) operator.old }
{
    if named.word.bytes == operator.name.as_slice() && operator.arity.is_none() {
        operator.arity = Some(named.kids as u8);
    }
}

/// Notes a use.
fn note_use(operators: &mut [Operator], named: &Named<'_>)
    requires { named.now.kids ≤ most_kids }
    ensures { operators.new ≡ map (with_use (view_named named.now)) operators.old }
{
    'operators: for operator in operators.iter_mut() {
        note(operator, named);
    }
}

/// Notes the uses of a pattern.
pub fn note_uses(operators: &mut [Operator], pattern: &[Named<'_>])
    requires { AllByRecursion (λ n. n.1 ≤ most_kids) (map view_named pattern.now) }
    ensures { operators.new ≡ noted (map view_named pattern.now) operators.old }
{
    let mut rest = pattern;
    'names: while let [named, behind @ ..] = rest {
        note_use(operators, named);
        rest = behind;
    }
}
