// The rules and the tests of a normal form.
ghost use Rattle.std.specs.Prelude.{◌≡◌, ◌++◌, ◌≤◌, length, IfOk};
ghost use Rattle.sel_grammar.specs.Lawful.{IsLawful};
ghost use Rattle.sel_normal.specs.Forms.{cut_rules, helper_rules, places, some_range, test_number, tests};
ghost use Rattle.sel_normal.specs.NormalFaults.{HasFew};

use crate::cut::{body, inner_count, push_inner_helpers};
use crate::normal::NormalRule;
use sel_base::{NoMemory, Range};
use sel_grammar::Grammar;
use sel_range::Classes;
use std::alloc::Global;

/// The number, where there is a range to test.
fn test_number(number: u16, range: &Option<Range>) -> Option<u16>
    ensures { result ≡ test_number number range.now }
{
    match range {
        None => None,
        Some(_) => Some(number),
    }
}

/// How many tests the range makes.
fn test_count(range: &Option<Range>) -> u16
    ensures is { result ≡ length (some_range range.now) }
    ensures few { result ≤ 1 }
{
    match range {
        None => 0,
        Some(_) => 1,
    }
}

/// The user's rules, each cut to one operator.
pub fn cut_rules(alloc: Global, grammar: &Grammar) -> Result<Vec<NormalRule>, NoMemory>
    requires lawful { IsLawful grammar.now }
    requires few { HasFew grammar.now }
    ensures { IfOk result (λ rules. rules.items ≡ cut_rules (length grammar.now.nonterminals) 0 grammar.now.rules) }
{
    let mut rules = Vec::new(alloc);
    let mut number = grammar.nonterminals.len() as u16;
    let mut test = 0;
    let mut rest = grammar.rules.as_slice();
    'users: while let Some((rule, behind)) = rest.split_first() {
        rules.push(NormalRule {
            left: rule.left,
            cost: rule.cost,
            body: body(number, test_number(test, &rule.range), &rule.pattern),
        })?;
        number += inner_count(&rule.pattern);
        test += test_count(&rule.range);
        rest = behind;
    }
    Ok(rules)
}

/// Puts the rules of all helpers behind the others.
pub fn push_helper_rules(grammar: &Grammar, rules: &mut Vec<NormalRule>) -> Result<(), NoMemory>
    requires lawful { IsLawful grammar.now }
    requires few { HasFew grammar.now }
    ensures { IfOk result (λ _. rules.new.items ≡ rules.old.items ++ helper_rules (length grammar.now.nonterminals) (places grammar.now.rules)) }
{
    let mut number = grammar.nonterminals.len() as u16;
    let mut rest = grammar.rules.as_slice();
    'helpers: while let Some((rule, behind)) = rest.split_first() {
        number = push_inner_helpers(number, &rule.pattern, rules)?;
        rest = behind;
    }
    Ok(())
}

/// The ranges of the rules that have one.
fn tests_of(alloc: Global, grammar: &Grammar) -> Result<Vec<Range>, NoMemory>
    ensures { IfOk result (λ ranges. ranges.items ≡ tests grammar.now.rules) }
{
    let mut ranges = Vec::new(alloc);
    let mut rest = grammar.rules.as_slice();
    'tested: while let Some((rule, behind)) = rest.split_first() {
        if let Some(range) = rule.range {
            ranges.push(range)?;
        }
        rest = behind;
    }
    Ok(ranges)
}

/// The classes of the rules' ranges.
pub fn classes_of(alloc: Global, grammar: &Grammar) -> Result<Classes, NoMemory>
    requires lawful { IsLawful grammar.now }
    ensures { IfOk result (λ classes. classes ≡ tests grammar.now.rules) }
{
    let ranges = tests_of(alloc, grammar)?;
    Classes::of(alloc, &ranges)
}
