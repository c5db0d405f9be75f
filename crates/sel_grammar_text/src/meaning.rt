//! What a rule says.

ghost use Rattle.std.specs.Prelude.{◌≡◌, ◌≤◌, length, map, None, IfOk};
ghost use Rattle.std.specs.Str.Parse.{digits_value};
ghost use Rattle.std.specs.List.{AllByRecursion};
ghost use Rattle.sel_grammar.specs.Limits.{most_operators, most_nonterminals, most_kids, greatest_cost};
ghost use Rattle.sel_grammar_text.specs.Checks.{large_in_tail, large_option, large_amount, large_amount_if_any};
ghost use Rattle.sel_grammar_text.specs.ItemNumbers.{HasNumbersInTail, HasExternalInTail, IsNumberIfAny, HasNumbersInAmount, HasNumbersIfAny};
ghost use Rattle.sel_grammar_text.specs.Meaning as meaning;
ghost use Rattle.sel_grammar_text.specs.Patterns as patterns;
ghost use Rattle.sel_grammar_text.specs.Tables.{operator_names, rule_at};
ghost use Rattle.sel_grammar_text.specs.Words.{view_word, view_amount, view_named, view_tail, view_rule};
ghost use Rattle.std.specs.Option.{option_map};

use crate::names::{name_number, operator_number};
use crate::pattern::{PatternName, built_of};
use crate::template::template;
use crate::values::{bound_of, value_of};
use crate::words::{Named, RuleItem, Tail, TextWord, WrittenAmount, WrittenCost};
use sel_base::{Name, NoMemory, Range};
use sel_grammar::limits::{GREATEST_COST, GREATEST_EXTERNAL};
use sel_grammar::{Operator, Part, Pattern, Rule, RuleCost, Template};
use std::alloc::Global;

/// A number that may be omitted, and is 0 then.
fn optional_number(word: &Option<TextWord<'_>>) -> u16
    requires digits { IsNumberIfAny (option_map view_word word.now) }
    requires fits { large_option (option_map view_word word.now) ≡ None }
    ensures { result ≡ meaning.number_or_0 (option_map view_word word.now) }
{
    match word {
        None => 0,
        Some(word) => value_of(word, GREATEST_COST) as u16,
    }
}

/// The cost that an amount writes.
fn amount_cost(amount: &WrittenAmount<'_>) -> RuleCost
    requires digits { HasNumbersInAmount (view_amount amount.now) }
    requires fits { large_amount (view_amount amount.now) ≡ None }
    ensures { result ≡ meaning.amount_cost (view_amount amount.now) }
{
    RuleCost {
        first: value_of(&amount.first, GREATEST_COST) as u16,
        second: optional_number(&amount.second),
    }
}

/// No cost.
fn no_cost() -> RuleCost
    ensures { result ≡ meaning.amount_or_none None }
{
    RuleCost {
        first: 0,
        second: 0,
    }
}

/// A cost that may be omitted.
fn optional_cost(amount: &Option<WrittenAmount<'_>>) -> RuleCost
    requires digits { HasNumbersIfAny (option_map view_amount amount.now) }
    requires fits { large_amount_if_any (option_map view_amount amount.now) ≡ None }
    ensures { result ≡ meaning.amount_or_none (option_map view_amount amount.now) }
{
    match amount {
        None => no_cost(),
        Some(amount) => amount_cost(amount),
    }
}

/// The cost, or the addend of a range.
fn cost_of(tail: &Tail<'_>) -> RuleCost
    requires digits { HasNumbersInTail (view_tail tail.now) }
    requires fits { large_in_tail (view_tail tail.now) ≡ None }
    ensures { result ≡ meaning.cost_of (view_tail tail.now) }
{
    match tail {
        Tail::OneLine(_, WrittenCost::Absent) => no_cost(),
        Tail::OneLine(_, WrittenCost::Amount(amount)) => amount_cost(amount),
        Tail::OneLine(_, WrittenCost::Ranged(_, _, _, addend)) => optional_cost(addend),
        Tail::Burg(_, cost) => optional_cost(cost),
    }
}

fn range_of(tail: &Tail<'_>) -> Option<Range>
    requires digits { HasNumbersInTail (view_tail tail.now) }
    requires fits { large_in_tail (view_tail tail.now) ≡ None }
    ensures { result ≡ meaning.range_of (view_tail tail.now) }
{
    match tail {
        Tail::OneLine(_, WrittenCost::Ranged(_, lo, hi, _)) => Some(Range {
            lo: bound_of(lo),
            hi: bound_of(hi),
        }),
        _ => None,
    }
}

/// The number that a BURG rule gives itself.
fn external_of(tail: &Tail<'_>) -> Option<u32>
    requires digits { HasNumbersInTail (view_tail tail.now) }
    requires fits { HasExternalInTail (view_tail tail.now) }
    ensures { result ≡ meaning.external_of (view_tail tail.now) }
{
    match tail {
        Tail::OneLine(_, _) => None,
        Tail::Burg(external, _) => Some(value_of(external, GREATEST_EXTERNAL)),
    }
}

/// The template's parts, which a BURG rule has none of.
fn parts_of(alloc: Global, tail: &Tail<'_>) -> Result<Vec<Part>, NoMemory>
    ensures { IfOk result (λ parts. parts.items ≡ meaning.parts_of_tail (view_tail tail.now)) }
{
    match tail {
        Tail::OneLine(word, _) => template(alloc, word.bytes),
        Tail::Burg(_, _) => Ok(Vec::new(alloc)),
    }
}

/// The name by its number.
fn numbered(operators: &[Operator], nonterminals: &[Name], named: &Named<'_>) -> PatternName
    requires operators { length operators.now ≤ most_operators }
    requires nonterminals { length nonterminals.now ≤ most_nonterminals }
    requires kids { named.now.kids ≤ most_kids }
    ensures { result ≡ patterns.numbered (operator_names operators.now) nonterminals.now (view_named named.now) }
{
    let number = operator_number(operators, named.word.bytes);
    if number < operators.len() {
        PatternName::Operator(number as u8, named.kids as u8)
    } else {
        PatternName::Nonterminal(name_number(nonterminals, named.word.bytes) as u16)
    }
}

/// The names by their numbers.
fn numbered_names(
    alloc: Global,
    operators: &[Operator],
    nonterminals: &[Name],
    pattern: &[Named<'_>],
) -> Result<Vec<PatternName>, NoMemory>
    requires operators { length operators.now ≤ most_operators }
    requires nonterminals { length nonterminals.now ≤ most_nonterminals }
    requires kids { AllByRecursion (λ n. n.1 ≤ most_kids) (map view_named pattern.now) }
    ensures { IfOk result (λ names. names.items ≡ map (patterns.numbered (operator_names operators.now) nonterminals.now) (map view_named pattern.now)) }
{
    let mut names = Vec::new(alloc);
    let mut rest = pattern;
    'names: while let [named, behind @ ..] = rest {
        names.push(numbered(operators, nonterminals, named))?;
        rest = behind;
    }
    Ok(names)
}

fn pattern_of(
    alloc: Global,
    operators: &[Operator],
    nonterminals: &[Name],
    pattern: &[Named<'_>],
) -> Result<Pattern, NoMemory>
    requires operators { length operators.now ≤ most_operators }
    requires nonterminals { length nonterminals.now ≤ most_nonterminals }
    requires kids { AllByRecursion (λ n. n.1 ≤ most_kids) (map view_named pattern.now) }
    ensures { IfOk result (λ p. p ≡ patterns.pattern_of (operator_names operators.now) nonterminals.now (map view_named pattern.now)) }
{
    let names = numbered_names(alloc, operators, nonterminals, pattern)?;
    let (built, _) = built_of(alloc, names.as_slice())?;
    Ok(built)
}

/// What the rule says, whose left name stands at the line and the column.
pub fn rule_of(
    alloc: Global,
    operators: &[Operator],
    nonterminals: &[Name],
    rule: &RuleItem<'_>,
    line: u32,
    column: u32,
) -> Result<Rule, NoMemory>
    requires operators { length operators.now ≤ most_operators }
    requires nonterminals { length nonterminals.now ≤ most_nonterminals }
    requires kids { AllByRecursion (λ n. n.1 ≤ most_kids) (view_rule rule.now).pattern }
    requires digits { HasNumbersInTail (view_rule rule.now).tail }
    requires external { HasExternalInTail (view_rule rule.now).tail }
    requires fits { large_in_tail (view_rule rule.now).tail ≡ None }
    ensures { IfOk result (λ r. r ≡ rule_at line column (operator_names operators.now) nonterminals.now (view_rule rule.now)) }
{
    let pattern = pattern_of(alloc, operators, nonterminals, rule.pattern.as_slice())?;
    let parts = parts_of(alloc, &rule.tail)?;
    Ok(Rule {
        left: name_number(nonterminals, rule.left.bytes) as u16,
        pattern,
        template: Template {
            parts: sel_base::List::from_vec(parts),
        },
        cost: cost_of(&rule.tail),
        range: range_of(&rule.tail),
        external: external_of(&rule.tail),
        line,
        column,
    })
}
