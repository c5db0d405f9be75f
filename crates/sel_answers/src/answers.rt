// The answer of a tree, as text.
ghost use Rattle.std.specs.Prelude.{◌≡◌, ◌<◌, ◌+◌, ◌^◌, ◌++◌, length, OnOk, not, ◌==◌, decimal};
ghost use Rattle.std.specs.List.{list_all, list_any};
ghost use Rattle.sel_answers.specs.Output.{answer_text, answers_text, told_text, cost_line, cost_text, spaced, line_end_behind, is_covered, has_second_costs};

use itoa::Buffer;
use sel_base::text::{put, put_number};
use sel_base::{NoMemory, Pair};
use sel_grammar::Grammar;
use sel_work::Answer;

/// Puts a cost, or a sum of costs, of these two numbers.
pub fn put_cost(text: &mut Vec<u8>, second: bool, units: u128, ties: i128) -> Result<(), NoMemory>
    ensures { OnOk result (text.new.items ≡ text.old.items ++ cost_text second (record { first = units; second = ties })) }
{
    let mut buffer = Buffer::new();
    put(text, buffer.format(units).as_bytes())?;
    if second {
        let mut buffer = Buffer::new();
        put(text, b",")?;
        put(text, buffer.format(ties).as_bytes())?;
    }
    Ok(())
}

/// Puts a cost, up to the end of its line.
pub fn put_cost_line(text: &mut Vec<u8>, second: bool, cost: Pair) -> Result<(), NoMemory>
    ensures { OnOk result (text.new.items ≡ text.old.items ++ cost_line second cost) }
{
    put(text, b" cost ")?;
    put_cost(text, second, cost.first as u128, cost.second as i128)?;
    put(text, b"\n")?;
    Ok(())
}

// Puts the number of a rule, which mostly has one or two digits.
fn put_rule(text: &mut Vec<u8>, rule: u16) -> Result<(), NoMemory>
    ensures { OnOk result (text.new.items ≡ text.old.items ++ decimal rule) }
{
    if rule < 10 {
        text.push(b'0' + rule as u8)?;
        Ok(())
    } else if rule < 100 {
        text.push(b'0' + (rule / 10) as u8)?;
        text.push(b'0' + (rule % 10) as u8)?;
        Ok(())
    } else {
        put_number(text, rule as u64)
    }
}

fn put_rules(text: &mut Vec<u8>, rules: &[u16]) -> Result<(), NoMemory>
    ensures { OnOk result (text.new.items ≡ text.old.items ++ spaced rules.now) }
{
    let Some((first, rest)) = rules.split_first() else {
        return Ok(());
    };
    put_rule(text, *first)?;
    'rules: for rule in rest {
        text.push(b' ')?;
        put_rule(text, *rule)?;
    }
    Ok(())
}

/// The text of a tree, up to the end of its last line.
pub fn put_lines(text: &mut Vec<u8>, lines: &[u8]) -> Result<(), NoMemory>
    ensures { OnOk result (text.new.items ≡ text.old.items ++ (lines.now ++ line_end_behind lines.now)) }
{
    put(text, lines)?;
    match lines.last() {
        None | Some(b'\n') => Ok(()),
        Some(_) => put(text, b"\n"),
    }
}

fn put_told(text: &mut Vec<u8>, second: bool, answer: &Answer) -> Result<(), NoMemory>
    ensures { OnOk result (text.new.items ≡ text.old.items ++ told_text second answer.now) }
{
    match answer {
        Answer::NoCover => put(text, b" no cover\n"),
        Answer::Cover(cover) => {
            put_cost_line(text, second, cover.cost)?;
            put_rules(text, cover.rules.as_slice())?;
            put(text, b"\n")
        }
        Answer::Text { cost, text: lines } => {
            put_cost_line(text, second, *cost)?;
            put_lines(text, lines.as_slice())
        }
        Answer::TooLong { .. } => put(text, b" too long\n"),
    }
}

/// Puts the answer of the tree of this number.
pub fn put_answer(
    text: &mut Vec<u8>,
    second: bool,
    number: u64,
    answer: &Answer,
) -> Result<(), NoMemory>
    ensures { OnOk result (text.new.items ≡ text.old.items ++ answer_text second number answer.now) }
{
    put(text, b"; tree ")?;
    put_number(text, number)?;
    put_told(text, second, answer)
}

/// Puts the answers of trees that are numbered behind so many others.
pub fn put_answers(
    text: &mut Vec<u8>,
    second: bool,
    before: u32,
    answers: &[Answer],
) -> Result<(), NoMemory>
    requires few { before + length answers.now < 2 ^ 32 }
    ensures { OnOk result (text.new.items ≡ text.old.items ++ answers_text second (before + 1) answers.now) }
{
    let mut number = before as u64;
    'answers: for answer in answers {
        number += 1;
        put_answer(text, second, number, answer)?;
    }
    Ok(())
}

/// The answer is a cover or a text.
pub fn is_covered(answer: &Answer) -> bool
    ensures { result ≡ is_covered answer.now }
{
    match answer {
        Answer::Cover(_) | Answer::Text { .. } => true,
        Answer::NoCover | Answer::TooLong { .. } => false,
    }
}

/// Every answer is a cover or a text.
pub fn are_covered(answers: &[Answer]) -> bool
    ensures { result ≡ list_all is_covered answers.now }
{
    answers.iter().all(|answer| is_covered(answer))
}

/// Some rule has a second cost.
pub fn has_second_costs(grammar: &Grammar) -> bool
    ensures { result ≡ has_second_costs grammar.now }
{
    grammar
        .rules
        .as_slice()
        .iter()
        .any(|rule| rule.cost.second != 0)
}
