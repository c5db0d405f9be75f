//! Grammars as text.

ghost use Rattle.std.specs.Prelude.{◌≡◌, ◌++◌, ℕ, List, decimal, IfOk, OnOk, map};
ghost use Rattle.std.specs.Fmt.{signed_decimal};
ghost use Rattle.std.specs.List.{flat_map};
ghost use Rattle.sel_grammar.specs.declared.grammar.Operator.{Operator};
ghost use Rattle.sel_grammar_text.specs.Printing.{name_at, printed_byte, printed_part, printed_pattern, printed_template};
ghost use Rattle.sel_grammar_text.specs.GrammarText.{SpellsGrammar};
ghost use Rattle.sel_grammar_print.specs.PrintedGrammar as spec;

use sel_base::text::{put, put_number, put_signed};
use sel_base::{List, Name, NoMemory, Range};
use sel_grammar::{Grammar, Operator, Part, Pattern, Rule, RuleCost};
use std::alloc::Global;

/// The name of that number, and none beyond the last.
fn name_at(names: &[Name], n: usize) -> &[u8]
    ensures { result.now ≡ name_at names.now n }
{
    match names.get(n) {
        Some(name) => name.as_slice(),
        None => &[],
    }
}

/// The operator's name, and none beyond the last.
fn operator_at(operators: &[Operator], n: usize) -> &[u8]
    ensures { result.now ≡ name_at (spec.operator_names operators.now) n }
{
    match operators.get(n) {
        Some(operator) => operator.name.as_slice(),
        None => &[],
    }
}

fn put_pattern(text: &mut Vec<u8>, grammar: &Grammar, pattern: &Pattern) -> Result<(), NoMemory>
    ensures { OnOk result (text.new.items ≡ text.old.items ++ printed_pattern (spec.operator_names grammar.now.operators) grammar.now.nonterminals pattern.now) }
{
    let operators = grammar.operators.as_slice();
    match pattern {
        Pattern::Leaf(n) => put(text, name_at(grammar.nonterminals.as_slice(), *n as usize)),
        Pattern::Nullary(op) => put(text, operator_at(operators, *op as usize)),
        Pattern::Unary(op, kid) => {
            put(text, operator_at(operators, *op as usize))?;
            put(text, b"(")?;
            put_pattern(text, grammar, kid.get())?;
            put(text, b")")?;
            Ok(())
        }
        Pattern::Binary(op, left, right) => {
            put(text, operator_at(operators, *op as usize))?;
            put(text, b"(")?;
            put_pattern(text, grammar, left.get())?;
            put(text, b",")?;
            put_pattern(text, grammar, right.get())?;
            put(text, b")")?;
            Ok(())
        }
    }
}

/// A byte of a template's text, by its escape where it has one.
fn put_byte(text: &mut Vec<u8>, byte: u8) -> Result<(), NoMemory>
    ensures { OnOk result (text.new.items ≡ text.old.items ++ printed_byte byte) }
{
    match byte {
        b'\n' => put(text, b"\\n"),
        b'\t' => put(text, b"\\t"),
        b'"' => put(text, b"\\\""),
        b'\\' => put(text, b"\\\\"),
        b'%' => put(text, b"%%"),
        _ => put(text, &[byte]),
    }
}

fn put_text(text: &mut Vec<u8>, bytes: &[u8]) -> Result<(), NoMemory>
    ensures { OnOk result (text.new.items ≡ text.old.items ++ flat_map printed_byte bytes.now) }
{
    'bytes: for byte in bytes {
        put_byte(text, *byte)?;
    }
    Ok(())
}

fn put_part(text: &mut Vec<u8>, part: &Part) -> Result<(), NoMemory>
    ensures { OnOk result (text.new.items ≡ text.old.items ++ printed_part part.now) }
{
    match part {
        Part::Text(bytes) => put_text(text, bytes.as_slice()),
        Part::Kid(kid) => {
            put(text, b"%")?;
            put_number(text, *kid as u64)
        }
        Part::Attribute => put(text, b"%a"),
        Part::Temp => put(text, b"%c"),
    }
}

fn put_template(text: &mut Vec<u8>, parts: &[Part]) -> Result<(), NoMemory>
    ensures { OnOk result (text.new.items ≡ text.old.items ++ printed_template parts.now) }
{
    'parts: for part in parts {
        put_part(text, part)?;
    }
    Ok(())
}

/// The second number behind a comma, unless it is 0.
fn put_second(text: &mut Vec<u8>, second: u16) -> Result<(), NoMemory>
    ensures { OnOk result (text.new.items ≡ text.old.items ++ spec.printed_second second) }
{
    if second == 0 {
        return Ok(());
    }
    put(text, b",")?;
    put_number(text, second as u64)
}

fn put_amount(text: &mut Vec<u8>, cost: RuleCost) -> Result<(), NoMemory>
    ensures { OnOk result (text.new.items ≡ text.old.items ++ spec.printed_amount cost) }
{
    if cost.second == 0 {
        return put_number(text, cost.first as u64);
    }
    put(text, b"(")?;
    put_number(text, cost.first as u64)?;
    put(text, b",")?;
    put_number(text, cost.second as u64)?;
    put(text, b")")
}

fn put_addend(text: &mut Vec<u8>, cost: RuleCost) -> Result<(), NoMemory>
    ensures { OnOk result (text.new.items ≡ text.old.items ++ spec.printed_addend cost) }
{
    if cost.first == 0 && cost.second == 0 {
        return Ok(());
    }
    put(text, b"+")?;
    put_amount(text, cost)
}

fn put_range(text: &mut Vec<u8>, range: Range) -> Result<(), NoMemory>
    ensures { OnOk result (text.new.items ≡ text.old.items ++ spec.printed_range range) }
{
    put(text, b"range(a,")?;
    put_signed(text, range.lo)?;
    put(text, b",")?;
    put_signed(text, range.hi)?;
    put(text, b")")
}

fn put_cost(text: &mut Vec<u8>, cost: RuleCost, range: Option<Range>) -> Result<(), NoMemory>
    ensures { OnOk result (text.new.items ≡ text.old.items ++ spec.printed_cost cost range) }
{
    let Some(range) = range else {
        return put_amount(text, cost);
    };
    put_range(text, range)?;
    put_addend(text, cost)
}

fn put_tail(text: &mut Vec<u8>, rule: &Rule) -> Result<(), NoMemory>
    ensures { OnOk result (text.new.items ≡ text.old.items ++ spec.printed_tail rule.now.external rule.now) }
{
    match rule.external {
        Some(external) => {
            put(text, b" = ")?;
            put_number(text, external as u64)?;
            put(text, b" (")?;
            put_number(text, rule.cost.first as u64)?;
            put_second(text, rule.cost.second)?;
            put(text, b");")
        }
        None => {
            put(text, b" \"")?;
            put_template(text, rule.template.parts.as_slice())?;
            put(text, b"\" ")?;
            put_cost(text, rule.cost, rule.range)
        }
    }
}

fn put_rule(text: &mut Vec<u8>, grammar: &Grammar, rule: &Rule) -> Result<(), NoMemory>
    ensures { OnOk result (text.new.items ≡ text.old.items ++ spec.printed_rule (spec.operator_names grammar.now.operators) grammar.now.nonterminals rule.now) }
{
    put(
        text,
        name_at(grammar.nonterminals.as_slice(), rule.left as usize),
    )?;
    put(text, b": ")?;
    put_pattern(text, grammar, &rule.pattern)?;
    put_tail(text, rule)?;
    put(text, b"\n")
}

fn put_operator(text: &mut Vec<u8>, operator: &Operator) -> Result<(), NoMemory>
    ensures { OnOk result (text.new.items ≡ text.old.items ++ spec.printed_operator operator.now) }
{
    put(text, b"%term ")?;
    put(text, operator.name.as_slice())?;
    put(text, b"=")?;
    put_number(text, operator.external as u64)?;
    put(text, b"\n")
}

fn put_operators(text: &mut Vec<u8>, operators: &[Operator]) -> Result<(), NoMemory>
    ensures { OnOk result (text.new.items ≡ text.old.items ++ flat_map spec.printed_operator operators.now) }
{
    'operators: for operator in operators {
        put_operator(text, operator)?;
    }
    Ok(())
}

fn put_rules(text: &mut Vec<u8>, grammar: &Grammar) -> Result<(), NoMemory>
    ensures { OnOk result (text.new.items ≡ text.old.items ++ flat_map (spec.printed_rule (spec.operator_names grammar.now.operators) grammar.now.nonterminals) grammar.now.rules) }
{
    'rules: for rule in grammar.rules.as_slice() {
        put_rule(text, grammar, rule)?;
    }
    Ok(())
}

/// The grammar's text: the start symbol, the operators with their numbers, `%%`, and a rule on each
/// line. A rule's place isn't in it.
pub fn print_grammar(alloc: Global, grammar: &Grammar) -> Result<List<u8>, NoMemory>
    ensures exact { IfOk result (λ text. text ≡ spec.printed grammar.now) }
    ensures again { IfOk result (λ text. (source : List ℕ) → SpellsGrammar source grammar.now → spec.SpellsAgain text grammar.now) }
{
    let mut text = Vec::new(alloc);
    put(&mut text, b"%start ")?;
    put(
        &mut text,
        name_at(grammar.nonterminals.as_slice(), grammar.start as usize),
    )?;
    put(&mut text, b"\n")?;
    put_operators(&mut text, grammar.operators.as_slice())?;
    put(&mut text, b"%%\n")?;
    put_rules(&mut text, grammar)?;
    Ok(List::from_vec(text))
}
