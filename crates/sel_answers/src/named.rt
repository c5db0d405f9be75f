// The texts of covers with the names of registers, one for each tree.
ghost use Rattle.std.specs.Prelude.{◌≡◌, ◌<◌, ◌≤◌, ◌+◌, ◌^◌, ◌++◌, IfOk, OnOk, length, map, codes, decimal};
ghost use Rattle.std.specs.List.{list_all};
ghost use Rattle.sel_work.specs.declared.answer.Goal.TheVariants as goals;
ghost use Rattle.sel_forest.specs.Valid.{IsValidTree};
ghost use Rattle.sel_count.specs.Things.{AreValid};
ghost use Rattle.sel_answers.specs.Output.{AreAnswers, IsTreesAnswer, IsTreesNamed, AreNamedAnswers, named_text, named_told_text, named_answer_text, named_answers_text, is_text, has_text, has_second_costs, AreNamed};

use crate::answers::{put_cost_line, put_lines};
use crate::output::Output;
use sel_base::text::{put, put_number};
use sel_base::{NoMemory, Pair};
use sel_expand::Expander;
use sel_forest::Tree;
use sel_grammar::Grammar;
use sel_named::{NamedText, best_named};
use sel_work::Answer;
use std::alloc::Global;

/// What becomes of a tree's text with the names of registers.
#[derive(Debug, Drop)]
pub enum NamedAnswer {
    /// Nothing derives the tree from the start symbol.
    NoCover,
    /// The cost of the best cover, and what becomes of its text.
    Named { cost: Pair, text: NamedText },
}

// The text of the tree's cover with these names of registers.
fn named_answer(
    alloc: Global,
    expander: &mut Expander,
    grammar: &Grammar,
    tree: &Tree,
    answer: &Answer,
    names: &[&str],
) -> Result<NamedAnswer, NoMemory>
    requires tree { IsValidTree grammar.now tree.now }
    requires answer { IsTreesAnswer grammar.now goals.Cover tree.now answer.now }
    requires some { 1 ≤ length names.now }
    requires few { length names.now < 2 ^ 32 }
    ensures { IfOk result (IsTreesNamed grammar.now (map (λ name. name.now) names.now) tree.now) }
{
    match answer {
        Answer::Cover(cover) => {
            let text = best_named(alloc, expander, grammar, tree, cover, names)?;
            Ok(NamedAnswer::Named {
                cost: cover.cost,
                text,
            })
        }
        Answer::NoCover | Answer::Text { .. } | Answer::TooLong { .. } => Ok(NamedAnswer::NoCover),
    }
}

// The texts of the trees' covers with these names of registers, in the order of the trees.
fn named_answers(
    alloc: Global,
    grammar: &Grammar,
    trees: &[Tree],
    answers: &[Answer],
    names: &[&str],
) -> Result<Vec<NamedAnswer>, NoMemory>
    requires trees { AreValid grammar.now trees.now }
    requires answers { AreAnswers grammar.now goals.Cover trees.now answers.now }
    requires some { 1 ≤ length names.now }
    requires few { length names.now < 2 ^ 32 }
    ensures { IfOk result (λ named. AreNamedAnswers grammar.now (map (λ name. name.now) names.now) trees.now named.items) }
{
    let mut expander = Expander::new(alloc);
    let mut named = Vec::new(alloc);
    let mut rest = answers;
    'trees: for tree in trees {
        let Some((answer, behind)) = rest.split_first() else {
            return Ok(named);
        };
        let next = named_answer(alloc, &mut expander, grammar, tree, answer, names)?;
        named.push(next)?;
        rest = behind;
    }
    Ok(named)
}

fn put_needs(text: &mut Vec<u8>, needs: u32) -> Result<(), NoMemory>
    ensures { OnOk result (text.new.items ≡ text.old.items ++ (codes " needs " ++ (decimal needs ++ codes " registers\n"))) }
{
    put(text, b" needs ")?;
    put_number(text, needs as u64)?;
    put(text, b" registers\n")?;
    Ok(())
}

fn put_named_text(
    text: &mut Vec<u8>,
    second: bool,
    cost: Pair,
    named: &NamedText,
) -> Result<(), NoMemory>
    ensures { OnOk result (text.new.items ≡ text.old.items ++ named_text second cost named.now) }
{
    match named {
        NamedText::Text(lines) => {
            put_cost_line(text, second, cost)?;
            put_lines(text, lines.as_slice())
        }
        NamedText::TooLong => put(text, b" too long\n"),
        NamedText::TooFew { needs } => put_needs(text, *needs),
    }
}

fn put_named_told(text: &mut Vec<u8>, second: bool, answer: &NamedAnswer) -> Result<(), NoMemory>
    ensures { OnOk result (text.new.items ≡ text.old.items ++ named_told_text second answer.now) }
{
    match answer {
        NamedAnswer::NoCover => put(text, b" no cover\n"),
        NamedAnswer::Named { cost, text: named } => put_named_text(text, second, *cost, named),
    }
}

fn put_named_answer(
    text: &mut Vec<u8>,
    second: bool,
    number: u64,
    answer: &NamedAnswer,
) -> Result<(), NoMemory>
    ensures { OnOk result (text.new.items ≡ text.old.items ++ named_answer_text second number answer.now) }
{
    put(text, b"; tree ")?;
    put_number(text, number)?;
    put_named_told(text, second, answer)
}

// Puts the texts of trees that are numbered behind so many others.
fn put_named_answers(
    text: &mut Vec<u8>,
    second: bool,
    before: u32,
    answers: &[NamedAnswer],
) -> Result<(), NoMemory>
    requires few { before + length answers.now < 2 ^ 32 }
    ensures { OnOk result (text.new.items ≡ text.old.items ++ named_answers_text second (before + 1) answers.now) }
{
    let mut number = before as u64;
    'answers: for answer in answers {
        number += 1;
        put_named_answer(text, second, number, answer)?;
    }
    Ok(())
}

fn is_text(text: &NamedText) -> bool
    ensures { result ≡ is_text text.now }
{
    match text {
        NamedText::Text(_) => true,
        NamedText::TooLong | NamedText::TooFew { .. } => false,
    }
}

fn has_text(answer: &NamedAnswer) -> bool
    ensures { result ≡ has_text answer.now }
{
    match answer {
        NamedAnswer::NoCover => false,
        NamedAnswer::Named { text, .. } => is_text(text),
    }
}

fn have_texts(answers: &[NamedAnswer]) -> bool
    ensures { result ≡ list_all has_text answers.now }
{
    answers.iter().all(|answer| has_text(answer))
}

/// The texts of the trees' covers with these names of registers, numbered behind so many others, and whether each
/// tree has one.
pub fn named_output(
    alloc: Global,
    grammar: &Grammar,
    second: bool,
    before: u32,
    trees: &[Tree],
    answers: &[Answer],
    names: &[&str],
) -> Result<Output, NoMemory>
    requires trees { AreValid grammar.now trees.now }
    requires answers { AreAnswers grammar.now goals.Cover trees.now answers.now }
    requires some { 1 ≤ length names.now }
    requires names_few { length names.now < 2 ^ 32 }
    requires few { before + length trees.now < 2 ^ 32 }
    requires second { second ≡ has_second_costs grammar.now }
    ensures { IfOk result (λ output. AreNamed grammar.now (map (λ name. name.now) names.now) before trees.now output.covered output.text.items) }
{
    let named = named_answers(alloc, grammar, trees, answers, names)?;
    let mut text = Vec::new(alloc);
    put_named_answers(&mut text, second, before, &named)?;
    let covered = have_texts(&named);
    Ok(Output { text, covered })
}
