//! What may be wrong with a token of a line.

ghost use Rattle.std.specs.Prelude.{◌≡◌, ℕ, List, Some, None, if◌then◌else◌};
ghost use Rattle.std.specs.Str.Parse.{AllDigits};
ghost use Rattle.sel_forest.specs.LineFaults as faults;
ghost use Rattle.sel_forest.specs.Limits as limits;
ghost use Rattle.sel_forest.specs.Tokens.{Open, Comma, Close, End};
ghost use Rattle.sel_forest.specs.OpenNodes.{first_parent};
ghost use Rattle.sel_forest.specs.Pieces.{view, IsLawful, IsNamedBy};
ghost use Rattle.sel_forest.specs.TreeText.{operator_number, without_sign};
ghost use Rattle.sel_forest.specs.declared.around.Parent.{Parent as AnyParent};

use crate::around::{Around, Parent};
use crate::limits::{
    ARITY, GREATEST_DEPTH, MOST_NODES, MOST_TREES, NUMBER_LARGE, TOO_DEEP, TOO_MANY_NODES,
    TOO_MANY_TREES, UNKNOWN_OPERATOR,
};
use crate::number::{FEW, number};
use crate::tokens::Piece;
use sel_grammar::Grammar;

fn least_kids(grammar: &Grammar, operator: u8) -> u8
    ensures { result ≡ faults.least_kids grammar.now operator }
{
    match grammar.operators.get(operator as usize) {
        None => 0,
        Some(operator) => match operator.arity {
            None => 0,
            Some(kids) => kids,
        },
    }
}

fn most_kids(grammar: &Grammar, operator: u8) -> u8
    ensures { result ≡ faults.most_kids grammar.now operator }
{
    match grammar.operators.get(operator as usize) {
        None => 2,
        Some(operator) => match operator.arity {
            None => 2,
            Some(kids) => kids,
        },
    }
}

fn takes_none(grammar: &Grammar, bare: Option<u8>) -> bool
    ensures { result ≡ faults.takes_none grammar.now bare }
{
    match bare {
        None => false,
        Some(operator) => most_kids(grammar, operator) == 0,
    }
}

fn wants_some(grammar: &Grammar, bare: Option<u8>) -> bool
    ensures { result ≡ faults.wants_some grammar.now bare }
{
    match bare {
        None => false,
        Some(operator) => least_kids(grammar, operator) > 0,
    }
}

fn takes_no_further(grammar: &Grammar, parent: Option<Parent>) -> bool
    ensures { (parents : List AnyParent) → first_parent parents ≡ parent → result ≡ faults.takes_no_further grammar.now parents }
{
    match parent {
        None => false,
        Some(parent) => most_kids(grammar, parent.operator) as u32 <= parent.kids as u32 + 1,
    }
}

fn wants_another(grammar: &Grammar, parent: Option<Parent>) -> bool
    ensures { (parents : List AnyParent) → first_parent parents ≡ parent → result ≡ faults.wants_another grammar.now parents }
{
    match parent {
        None => false,
        Some(parent) => least_kids(grammar, parent.operator) as u32 > parent.kids as u32 + 1,
    }
}

/// The kind where the number of kids is wrong.
fn arity_kind(wrong: bool) -> Option<u8>
    ensures { result ≡ (if wrong then Some limits.arity else None) }
{
    if wrong { Some(ARITY) } else { None }
}

fn open_is_wrong(grammar: &Grammar, around: &Around) -> bool
    ensures { result ≡ faults.has_wrong_arity grammar.now around.now Open }
{
    takes_none(grammar, around.bare())
}

fn comma_is_wrong(grammar: &Grammar, around: &Around) -> bool
    ensures { result ≡ faults.has_wrong_arity grammar.now around.now Comma }
{
    wants_some(grammar, around.bare()) || takes_no_further(grammar, around.innermost())
}

fn close_is_wrong(grammar: &Grammar, around: &Around) -> bool
    ensures { result ≡ faults.has_wrong_arity grammar.now around.now Close }
{
    wants_some(grammar, around.bare()) || wants_another(grammar, around.innermost())
}

fn end_is_wrong(grammar: &Grammar, around: &Around) -> bool
    ensures { result ≡ faults.has_wrong_arity grammar.now around.now End }
{
    wants_some(grammar, around.bare())
}

fn name_kind(grammar: &Grammar, trees: usize, around: &Around, operator: usize) -> Option<u8>
    ensures { (name : List ℕ) → operator_number grammar.now name ≡ operator → result ≡ faults.name_kind grammar.now trees around.now name }
{
    if around.names() == 0 && trees >= MOST_TREES {
        Some(TOO_MANY_TREES)
    } else if around.depth() >= GREATEST_DEPTH {
        Some(TOO_DEEP)
    } else if around.names() >= MOST_NODES {
        Some(TOO_MANY_NODES)
    } else if grammar.operators.get(operator).is_none() {
        Some(UNKNOWN_OPERATOR)
    } else {
        None
    }
}

/// The kind where the number is too large.
#[inline(always)]
#[tactic(auto, using(crate::proofs::Numerals::few_digits))]
fn number_kind(bytes: &[u8]) -> Option<u8>
    requires { AllDigits 10 (without_sign bytes.now) }
    ensures { result ≡ (if faults.is_too_large bytes.now then Some limits.number_large else None) }
{
    if bytes.len() <= FEW {
        return None;
    }
    match number(bytes) {
        None => Some(NUMBER_LARGE),
        Some(_) => None,
    }
}

/// The kind of what is wrong with a token with which some line of the form goes on. The operator is
/// that which the token names.
#[inline(always)]
pub fn kind_of(
    grammar: &Grammar,
    trees: usize,
    around: &Around,
    operator: usize,
    piece: &Piece<'_>,
) -> Option<u8>
    requires lawful { IsLawful (view piece.now) }
    requires named { IsNamedBy grammar.now operator (view piece.now) }
    ensures { result ≡ faults.kind_of grammar.now trees around.now (view piece.now) }
{
    match piece {
        Piece::Name(_) => name_kind(grammar, trees, around, operator),
        Piece::Number(bytes) => number_kind(bytes),
        Piece::Open => arity_kind(open_is_wrong(grammar, around)),
        Piece::Comma => arity_kind(comma_is_wrong(grammar, around)),
        Piece::Close => arity_kind(close_is_wrong(grammar, around)),
        Piece::End => arity_kind(end_is_wrong(grammar, around)),
        Piece::Symbol(_) | Piece::Colon | Piece::Bad(_) => None,
    }
}
