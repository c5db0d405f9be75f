// A grammar as text, field by field.
ghost use Rattle.sel_grammar.specs.Lawful.{IsLawful};

use crate::accepted::{grammar_of, text_of};
use crate::stop::Stop;
use sel_base::NoMemory;
use sel_grammar::{Grammar, Operator, Part, Pattern, Rule, Template};
use sel_grammar_print::print_grammar;
use sel_sheet::Row;
use std::alloc::Global;
use std::fmt::Write;

fn readable(bytes: &[u8]) -> &str {
    match std::str::from_utf8(bytes) {
        Ok(text) => text,
        Err(_) => "no text",
    }
}

// `depth` is more than a pattern of 63 names can have.
fn show_pattern(out: &mut String, pattern: &Pattern, depth: u8) -> Result<(), NoMemory> {
    if depth == 0 {
        return Ok(());
    }
    match pattern {
        Pattern::Leaf(nonterminal) => write!(out, "n{nonterminal}")?,
        Pattern::Nullary(operator) => write!(out, "o{operator}")?,
        Pattern::Unary(operator, kid) => {
            write!(out, "o{operator}(")?;
            show_pattern(out, kid.get(), depth - 1)?;
            write!(out, ")")?;
        }
        Pattern::Binary(operator, left, right) => {
            write!(out, "o{operator}(")?;
            show_pattern(out, left.get(), depth - 1)?;
            write!(out, ",")?;
            show_pattern(out, right.get(), depth - 1)?;
            write!(out, ")")?;
        }
    }
    Ok(())
}

fn show_template(out: &mut String, template: &Template) -> Result<(), NoMemory> {
    for part in template.parts.as_slice() {
        match part {
            Part::Text(text) => write!(out, " {:?}", readable(text.as_slice()))?,
            Part::Kid(kid) => write!(out, " %{kid}")?,
            Part::Attribute => write!(out, " %a")?,
            Part::Temp => write!(out, " %c")?,
        }
    }
    Ok(())
}

// `LEFT: PATTERN, its template's parts = EXTERNAL (COST) [LO to HI]`
fn show_rule(out: &mut String, rule: &Rule) -> Result<(), NoMemory> {
    write!(out, " n{}: ", rule.left)?;
    show_pattern(out, &rule.pattern, 64)?;
    show_template(out, &rule.template)?;
    if let Some(external) = rule.external {
        write!(out, " = {external}")?;
    }
    write!(out, " ({},{})", rule.cost.first, rule.cost.second)?;
    if let Some(range) = rule.range {
        write!(out, " [{} to {}]", range.lo, range.hi)?;
    }
    Ok(())
}

fn put_operator(out: &mut String, operator: &Operator) -> Result<(), NoMemory> {
    let name = readable(operator.name.as_slice());
    match operator.arity {
        Some(arity) => write!(out, " {name}={}/{arity}", operator.external)?,
        None => write!(out, " {name}={}/-", operator.external)?,
    }
    Ok(())
}

fn put_operators(out: &mut String, grammar: &Grammar) -> Result<(), NoMemory> {
    for operator in grammar.operators.as_slice() {
        put_operator(out, operator)?;
    }
    Ok(())
}

fn put_nonterminals(out: &mut String, grammar: &Grammar) -> Result<(), NoMemory> {
    for name in grammar.nonterminals.as_slice() {
        write!(out, " {}", readable(name.as_slice()))?;
    }
    Ok(())
}

fn put_place(out: &mut String, rule: &Rule, has_places: bool) -> Result<(), NoMemory> {
    if has_places {
        write!(out, "; {}:{}", rule.line, rule.column)?;
    } else {
        out.push_str(";")?;
    }
    Ok(())
}

fn put_rules(out: &mut String, grammar: &Grammar, has_places: bool) -> Result<(), NoMemory> {
    for rule in grammar.rules.as_slice() {
        put_place(out, rule, has_places)?;
        show_rule(out, rule)?;
    }
    Ok(())
}

fn put_grammar(out: &mut String, grammar: &Grammar, has_places: bool) -> Result<(), NoMemory> {
    write!(out, "n{};", grammar.start)?;
    put_operators(out, grammar)?;
    out.push_str(";")?;
    put_nonterminals(out, grammar)?;
    put_rules(out, grammar, has_places)
}

// `start; operators, each NAME=EXTERNAL/ARITY; nonterminals; rules, each behind its place`
fn shown(alloc: Global, grammar: &Grammar, has_places: bool) -> Result<String, NoMemory> {
    let mut out = String::new(alloc);
    put_grammar(&mut out, grammar, has_places)?;
    Ok(out)
}

fn is_shown_so(alloc: Global, grammar: &Grammar, wanted: &str) -> Result<bool, NoMemory> {
    let shown = shown(alloc, grammar, false)?;
    Ok(shown.as_str() == wanted)
}

fn are_same(alloc: Global, one: &Grammar, other: &Grammar) -> Result<bool, NoMemory> {
    let wanted = shown(alloc, one, false)?;
    is_shown_so(alloc, other, wanted.as_str())
}

// Whether the printed grammar is read as the same one but for places.
fn is_same_again(alloc: Global, grammar: &Grammar, printed: &[u8]) -> Result<bool, Stop> {
    let again = grammar_of(alloc, printed)?;
    Ok(are_same(alloc, grammar, &again)?)
}

// The grammar in print. Reading that gives the same grammar but for places.
fn printed(alloc: Global, grammar: &Grammar) -> Result<Vec<u8>, Stop>
    requires lawful { IsLawful grammar.now }
{
    let printed = print_grammar(alloc, grammar)?;
    if is_same_again(alloc, grammar, printed.as_slice())? {
        Ok(printed.into_vec())
    } else {
        Err(Stop::Unfit("what is printed is another grammar"))
    }
}

fn shown_line(alloc: Global, grammar: &Grammar) -> Result<String, NoMemory> {
    let mut text = shown(alloc, grammar, true)?;
    text.push_str("\n")?;
    Ok(text)
}

/// The grammar of the row's file `g`, field by field. It is printed and read again, too.
pub fn grammar(alloc: Global, row: &Row<'_>) -> Result<String, Stop> {
    let grammar = grammar_of(alloc, text_of(row, "g")?)?;
    let _ = printed(alloc, &grammar)?;
    Ok(shown_line(alloc, &grammar)?)
}

/// The grammar of the row's file `g`, printed. Reading that gives the same grammar but for places.
pub fn again(alloc: Global, row: &Row<'_>) -> Result<Vec<u8>, Stop> {
    let grammar = grammar_of(alloc, text_of(row, "g")?)?;
    printed(alloc, &grammar)
}
