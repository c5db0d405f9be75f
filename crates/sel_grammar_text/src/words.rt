//! Items of a grammar's text, as they stand. They borrow the text.

use crate::tokens::Piece;

/// A token and its place in the text, from 0.
#[derive(Clone, Copy)]
pub struct Spot<'t> {
    pub piece: Piece<'t>,
    pub at: usize,
}

/// A word of the text and where it begins, from 0.
#[derive(Clone, Copy)]
pub struct TextWord<'t> {
    pub bytes: &'t [u8],
    pub at: usize,
}

/// An amount: a number, and a second one where two stand in parentheses.
#[derive(Clone, Copy)]
pub struct WrittenAmount<'t> {
    pub first: TextWord<'t>,
    pub second: Option<TextWord<'t>>,
}

/// The cost of a one-line rule: none, an amount, or a range, with the place of the word `range`, the
/// bounds with their signs, and the addend.
#[derive(Clone, Copy)]
pub enum WrittenCost<'t> {
    Absent,
    Amount(WrittenAmount<'t>),
    Ranged(usize, TextWord<'t>, TextWord<'t>, Option<WrittenAmount<'t>>),
}

/// A rule's tail: the template's bytes from behind the quote on, with the cost, or the external
/// number and the cost.
#[derive(Clone, Copy)]
pub enum Tail<'t> {
    OneLine(TextWord<'t>, WrittenCost<'t>),
    Burg(TextWord<'t>, Option<WrittenAmount<'t>>),
}

/// A name of a pattern, and how many kids it has.
#[derive(Clone, Copy)]
pub struct Named<'t> {
    pub word: TextWord<'t>,
    pub kids: usize,
}

/// A rule. The names of its pattern are in preorder.
#[derive(Drop)]
pub struct RuleItem<'t> {
    pub left: TextWord<'t>,
    pub pattern: Vec<Named<'t>>,
    pub tail: Tail<'t>,
}

/// An item: the name behind `%start`, an entry's name and number, C text, `%%` at a place, or a rule.
#[derive(Drop)]
pub enum Item<'t> {
    Start(TextWord<'t>),
    Entry(TextWord<'t>, TextWord<'t>),
    Code,
    Percents(usize),
    Rule(RuleItem<'t>),
}
