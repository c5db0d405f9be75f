// Patterns, cut to one operator.
ghost use Rattle.std.specs.Prelude.{◌≡◌, ◌+◌, ◌++◌, ◌≤◌, length, IfOk};
ghost use Rattle.sel_grammar.specs.Lawful.{names_of};
ghost use Rattle.sel_grammar.specs.Limits.{most_names, most_normal_nonterminals};
ghost use Rattle.sel_normal.specs.Forms.{parts, inner_parts, head, body, helper_rule, helper_rules};

use crate::normal::{Body, NormalRule};
use sel_base::NoMemory;
use sel_grammar::{Pattern, RuleCost};

/// How many operators the pattern has.
fn operator_count(pattern: &Pattern) -> u16
    requires { names_of pattern.now ≤ most_names }
    ensures { result ≡ length (parts pattern.now) }
{
    match pattern {
        Pattern::Leaf(_) => 0,
        Pattern::Nullary(_) => 1,
        Pattern::Unary(_, below) => 1 + operator_count(below.get()),
        Pattern::Binary(_, left, right) => {
            1 + operator_count(left.get()) + operator_count(right.get())
        }
    }
}

/// How many operators the pattern has below its root.
pub fn inner_count(pattern: &Pattern) -> u16
    requires { names_of pattern.now ≤ most_names }
    ensures is { result ≡ length (inner_parts pattern.now) }
    ensures few { result ≤ most_names }
{
    match pattern {
        Pattern::Leaf(_) => 0,
        Pattern::Nullary(_) => 0,
        Pattern::Unary(_, below) => operator_count(below.get()),
        Pattern::Binary(_, left, right) => {
            operator_count(left.get()) + operator_count(right.get())
        }
    }
}

/// The normal nonterminal for a part whose root's helper, where it needs one, has the number.
fn head(number: u16, part: &Pattern) -> u16
    ensures { result ≡ head number part.now }
{
    match part {
        Pattern::Leaf(nonterminal) => *nonterminal,
        _ => number,
    }
}

/// The pattern cut to its root. Its inner parts' helpers are numbered from `number`.
pub fn body(number: u16, test: Option<u16>, pattern: &Pattern) -> Body
    requires names { names_of pattern.now ≤ most_names }
    requires number { number ≤ most_normal_nonterminals }
    ensures { result ≡ body number test pattern.now }
{
    match pattern {
        Pattern::Leaf(nonterminal) => Body::Chain(*nonterminal),
        Pattern::Nullary(operator) => Body::Operator {
            operator: *operator,
            first: None,
            second: None,
            test,
        },
        Pattern::Unary(operator, below) => Body::Operator {
            operator: *operator,
            first: Some(head(number, below.get())),
            second: None,
            test,
        },
        Pattern::Binary(operator, left, right) => {
            let behind = number + operator_count(left.get());
            Body::Operator {
                operator: *operator,
                first: Some(head(number, left.get())),
                second: Some(head(behind, right.get())),
                test,
            }
        }
    }
}

/// The rule of the helper with the number, which stands for the part.
fn helper_rule(number: u16, part: &Pattern) -> NormalRule
    requires names { names_of part.now ≤ most_names }
    requires number { number + 1 ≤ most_normal_nonterminals }
    ensures { result ≡ helper_rule number part.now }
{
    NormalRule {
        left: number,
        cost: RuleCost {
            first: 0,
            second: 0,
        },
        body: body(number + 1, None, part),
    }
}

/// Puts the rules of the helpers for the part's operators behind the others, the first helper having
/// the number. The number behind theirs.
fn push_helpers(number: u16, part: &Pattern, rules: &mut Vec<NormalRule>) -> Result<u16, NoMemory>
    requires names { names_of part.now ≤ most_names }
    requires few { number + length (parts part.now) ≤ most_normal_nonterminals }
    ensures rules { IfOk result (λ _. rules.new.items ≡ rules.old.items ++ helper_rules number (parts part.now)) }
    ensures behind { IfOk result (λ behind. behind ≡ number + length (parts part.now)) }
{
    match part {
        Pattern::Leaf(_) => Ok(number),
        Pattern::Nullary(_) => {
            rules.push(helper_rule(number, part))?;
            Ok(number + 1)
        }
        Pattern::Unary(_, below) => {
            rules.push(helper_rule(number, part))?;
            push_helpers(number + 1, below.get(), rules)
        }
        Pattern::Binary(_, left, right) => {
            rules.push(helper_rule(number, part))?;
            let behind = push_helpers(number + 1, left.get(), rules)?;
            push_helpers(behind, right.get(), rules)
        }
    }
}

/// Puts the rules of the helpers for the operators below the pattern's root behind the others, the
/// first helper having the number. The number behind theirs.
pub fn push_inner_helpers(
    number: u16,
    pattern: &Pattern,
    rules: &mut Vec<NormalRule>,
) -> Result<u16, NoMemory>
    requires names { names_of pattern.now ≤ most_names }
    requires few { number + length (inner_parts pattern.now) ≤ most_normal_nonterminals }
    ensures rules { IfOk result (λ _. rules.new.items ≡ rules.old.items ++ helper_rules number (inner_parts pattern.now)) }
    ensures behind { IfOk result (λ behind. behind ≡ number + length (inner_parts pattern.now)) }
{
    match pattern {
        Pattern::Leaf(_) => Ok(number),
        Pattern::Nullary(_) => Ok(number),
        Pattern::Unary(_, below) => push_helpers(number, below.get(), rules),
        Pattern::Binary(_, left, right) => {
            let behind = push_helpers(number, left.get(), rules)?;
            push_helpers(behind, right.get(), rules)
        }
    }
}
