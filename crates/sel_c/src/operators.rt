// The numbers of operators, by their names, and what is told of rules.
ghost use Rattle.std.specs.Prelude.{◌≡◌, ◌<◌, ◌≤◌, ℕ, Option, true, false, length, IfSome};
ghost use Rattle.sel_grammar.specs.Limits.{IsWithinLimits};
ghost use Rattle.sel_grammar.specs.Fits.{rule_at};
ghost use Rattle.sel_c.specs.Operators.{HasNumber, IsNumberAmong, or_greatest};
ghost use Rattle.sel_c.specs.Rules.{TellsRule, told_rule};

use crate::told::ToldRule;
use sel_forest::rule_of;
use sel_grammar::{Grammar, Operator, Rule};

/// For a name that no operator has.
pub const NO_OPERATOR: u32 = 4_294_967_295;

fn has_name(operator: &Operator, name: &[u8]) -> bool
    ensures yes { result ≡ true → operator.now.name ≡ name.now }
    ensures no { result ≡ false → operator.now.name ≡ name.now → ⊥ }
{
    operator.name.as_slice() == name
}

/// The number of the operator of this name.
fn find(operators: &[Operator], name: &[u8]) -> Option<usize>
    ensures found { IsNumberAmong operators.now name.now result }
    ensures within { IfSome result (λ number. number < length operators.now) }
{
    let mut number: usize = 0;
    'operators: while number < operators.len() {
        if has_name(&operators[number], name) {
            return Some(number);
        }
        number += 1;
    }
    None
}

/// So it is told.
pub fn operator_number(grammar: &Grammar, name: &[u8]) -> u32
    requires within { IsWithinLimits grammar.now }
    ensures { (number : Option ℕ) × IsNumberAmong grammar.now.operators name.now number × (result ≡ or_greatest number) }
{
    match find(grammar.operators.as_slice(), name) {
        Some(number) => number as u32,
        None => NO_OPERATOR,
    }
}

fn told_of(rule: &Rule) -> ToldRule
    ensures { result ≡ told_rule rule.now }
{
    let external = match rule.external {
        Some(number) => number,
        None => NO_OPERATOR,
    };
    ToldRule {
        external,
        line: rule.line,
        column: rule.column,
    }
}

/// Tells the rule of this number, where there is one.
pub fn tell_rule(grammar: &Grammar, number: u16, out: &mut ToldRule) -> bool
    ensures { TellsRule (rule_at grammar.now number) out.old out.new result }
{
    match rule_of(grammar, number) {
        Some(rule) => {
            *out = told_of(rule);
            true
        }
        None => false,
    }
}
