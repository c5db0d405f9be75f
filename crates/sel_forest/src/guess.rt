//! Operators found by their names.

ghost use Rattle.std.specs.Prelude.{◌≡◌, ◌<◌, ◌≤◌, length, bytes_eq, IfOk};
ghost use Rattle.sel_grammar.specs.Limits.{most_operators};
ghost use Rattle.sel_forest.specs.Guesses.{AreGuesses, guess_places};
ghost use Rattle.sel_forest.specs.Pieces.{view, IsNamedBy};
ghost use Rattle.sel_forest.specs.TreeText.{operator_number};

use crate::tokens::Piece;
use sel_base::NoMemory;
use sel_grammar::{Grammar, Operator};
use std::alloc::Global;

/// How many guesses there are.
const PLACES: usize = 4_096;

/// A number that no operator has.
const NO_OPERATOR: u8 = 255;

fn is_named(operator: &Operator, name: &[u8]) -> bool
    ensures { result ≡ bytes_eq operator.now.name name.now }
{
    operator.name.as_slice() == name
}

/// The number of the operator with this name, or the number of operators.
fn operator_number(grammar: &Grammar, name: &[u8]) -> usize
    ensures number { result ≡ operator_number grammar.now name.now }
    ensures fits { result ≤ length grammar.now.operators }
{
    let operators = grammar.operators.as_slice();
    operators
        .iter()
        .take_while(|operator| !is_named(operator, name))
        .count()
}

/// Where the guess at a name's operator stands: names that differ may share it. Four of the bytes and
/// the length tell most names apart.
#[inline(always)]
fn place(name: &[u8]) -> usize
    ensures { result < guess_places }
{
    let len = name.len();
    if len < 2 {
        return len;
    }
    let front = name[0] as usize * 37 + name[len / 2] as usize * 101;
    let back = name[len - 2] as usize * 11 + name[len - 1] as usize * 53;
    (front + back + len % PLACES) % PLACES
}

/// The place behind another one. The first is behind the last.
fn next_place(place: usize) -> usize
    requires { place < guess_places }
    ensures { result < guess_places }
{
    (place + 1) % PLACES
}

/// The first place from that of the name on where there is no guess yet, if there is one.
fn free_place(guesses: &[u8], name: &[u8]) -> usize
    requires { length guesses.now ≡ guess_places }
    ensures { result < guess_places }
{
    let mut at = place(name);
    'places: for _ in 0..PLACES {
        if guesses[at] == NO_OPERATOR {
            return at;
        }
        at = next_place(at);
    }
    at
}

/// For each place a guess: the number of an operator, if any. That of a name stands at the name's place
/// or behind it, with no place between without a guess, so that a name is mostly found with one comparison.
pub fn guesses_of(alloc: Global, grammar: &Grammar) -> Result<Vec<u8>, NoMemory>
    requires { length grammar.now.operators ≤ most_operators }
    ensures { IfOk result (λ guesses. AreGuesses grammar.now guesses.items) }
{
    let mut guesses = vec![in alloc; NO_OPERATOR; PLACES]?;
    'operators: for operator in grammar.operators.as_slice() {
        let name = operator.name.as_slice();
        let at = free_place(&guesses, name);
        guesses[at] = operator_number(grammar, name) as u8;
    }
    Ok(guesses)
}

/// The number of the operator with this name, or the number of operators.
#[inline(always)]
fn operator_of(grammar: &Grammar, guesses: &[u8], name: &[u8]) -> usize
    requires { AreGuesses grammar.now guesses.now }
    ensures number { result ≡ operator_number grammar.now name.now }
    ensures fits { result ≤ length grammar.now.operators }
{
    let mut at = place(name);
    'places: for _ in 0..PLACES {
        let guess = guesses[at] as usize;
        let Some(operator) = grammar.operators.get(guess) else {
            return operator_number(grammar, name);
        };
        if is_named(operator, name) {
            return guess;
        }
        at = next_place(at);
    }
    operator_number(grammar, name)
}

/// The number of the operator that the token names.
#[inline(always)]
pub fn operator_named(grammar: &Grammar, guesses: &[u8], piece: &Piece<'_>) -> usize
    requires { AreGuesses grammar.now guesses.now }
    ensures named { IsNamedBy grammar.now result (view piece.now) }
    ensures fits { result ≤ length grammar.now.operators }
{
    match piece {
        Piece::Name(name) => operator_of(grammar, guesses, name),
        _ => 0,
    }
}
