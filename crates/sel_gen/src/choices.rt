// Rules among which one is drawn, with their sizes.
ghost use Rattle.std.specs.Prelude.{◌≡◌, ◌<◌, ◌≤◌, ◌%◌, ◌&&◌, length, map, count_by, true, IfOk};
ghost use Rattle.sel_grammar.specs.Lawful.{IsLawful, names_of};
ghost use Rattle.sel_grammar.specs.Limits.{most_names};
ghost use Rattle.sel_gen.specs.Made.{most_size, is_within, word, behind};
ghost use Rattle.sel_gen.specs.Lowering.{AreUpTo};
ghost use Rattle.sel_gen.specs.Drawing.{choice_of, is_open, nth_place};

use crate::draw::below;
use crate::sizes::{is_usable, rule_size};
use rand_pcg::Lcg128Xsl64;
use sel_base::NoMemory;
use sel_grammar::{Grammar, Rule};
use std::alloc::Global;

/// What is kept of a rule for drawing: its left side, and its size where it is used and has one.
#[derive(Clone, Copy, Debug, Drop)]
pub struct Choice {
    pub left: u16,
    pub size: Option<u32>,
}

fn choice_of(rule: &Rule, sizes: &[Option<u32>]) -> Choice
    requires sizes { AreUpTo most_size sizes.now }
    requires names { names_of rule.now.pattern ≤ most_names }
    ensures { result ≡ choice_of sizes.now rule.now }
{
    let size = if is_usable(&rule.range) {
        rule_size(rule, sizes)
    } else {
        None
    };
    Choice {
        left: rule.left,
        size,
    }
}

/// A choice for each rule, in the order of rules.
pub fn choices(
    alloc: Global,
    grammar: &Grammar,
    sizes: &[Option<u32>],
) -> Result<Vec<Choice>, NoMemory>
    requires lawful { IsLawful grammar.now }
    requires sizes { AreUpTo most_size sizes.now }
    ensures { IfOk result (λ choices. choices.items ≡ map (choice_of sizes.now) grammar.now.rules) }
{
    let mut choices = Vec::new(alloc);
    for rule in grammar.rules.as_slice() {
        choices.push(choice_of(rule, sizes))?;
    }
    Ok(choices)
}

fn is_within(size: Option<u32>, budget: u32) -> bool
    ensures { result ≡ is_within size budget }
{
    match size {
        Some(size) => size <= budget,
        None => false,
    }
}

/// Whether the choice's rule is a candidate of the nonterminal within the budget.
fn is_open(choice: &Choice, nonterminal: u16, budget: u32) -> bool
    ensures { result ≡ is_open nonterminal budget choice.now }
{
    choice.left == nonterminal && is_within(choice.size, budget)
}

fn count(choices: &[Choice], nonterminal: u16, budget: u32) -> usize
    ensures { result ≡ count_by (is_open nonterminal budget) choices.now }
{
    choices
        .iter()
        .filter(|choice| is_open(choice, nonterminal, budget))
        .count()
}

/// The place of the candidate with the number, from 0.
fn nth(choices: &[Choice], nonterminal: u16, budget: u32, number: usize) -> usize
    requires { number < count_by (is_open nonterminal budget) choices.now }
    ensures { result ≡ nth_place (is_open nonterminal budget) choices.now number }
{
    let mut left = number;
    for (at, choice) in choices.iter().enumerate() {
        if is_open(choice, nonterminal, budget) {
            if left == 0 {
                return at;
            }
            left -= 1;
        }
    }
    unreachable!()
}

/// The place of a candidate that is drawn by one word.
pub fn pick(choices: &[Choice], nonterminal: u16, budget: u32, words: &mut Lcg128Xsl64) -> usize
    requires { 0 < count_by (is_open nonterminal budget) choices.now }
    ensures place { result ≡ nth_place (is_open nonterminal budget) choices.now (word words.old % count_by (is_open nonterminal budget) choices.now) }
    ensures behind { words.new ≡ behind words.old }
{
    let count = count(choices, nonterminal, budget);
    let number = below(words, count as u64);
    nth(choices, nonterminal, budget, number as usize)
}
