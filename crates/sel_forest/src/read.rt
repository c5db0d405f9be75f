//! Forests read from text.

ghost use Rattle.std.specs.Prelude.{◌≡◌, ℕ, List, Option, [], ◌∷◌, ◌++◌, ◌<◌, ◌≤◌, ◌+◌, ◌-◌, ◌^◌, length, IfOk, IfErr, OnOk, IfSome, OnSome, not, ◌==◌, option_to_list, drop};
ghost use Rattle.std.specs.List.{prefix_len};
ghost use Rattle.sel_grammar.specs.Limits.{IsWithinLimits};
ghost use Rattle.sel_forest.specs.ForestText.{lines_of, SpellsForest, IsForestRefusal, IsLineResult, IsLineRefusal};
ghost use Rattle.sel_forest.specs.Guesses.{AreGuesses};
ghost use Rattle.sel_forest.specs.Limits.{most_trees};
ghost use Rattle.sel_forest.specs.Pieces.{lines_behind};
ghost use Rattle.sel_forest.specs.Valid.{IsValidForest};
ghost use Rattle.sel_forest.specs.declared.forest.Tree.{Tree as AnyTree};

use crate::around::Around;
use crate::build::TreeBuilder;
use crate::faults::kind_of;
use crate::forest::Forest;
use crate::guess::{guesses_of, operator_named};
use crate::limits::TOKEN;
use crate::line::{State, step, wants_attribute};
use crate::refusal::{ForestFault, ForestRefusal};
use crate::taker::Taker;
use crate::tokens::next_token;
use sel_base::text::{behind, line_len};
use sel_grammar::Grammar;
use std::alloc::Global;

/// A line, and what stands behind its line feed, if it has one.
#[derive(Clone, Copy, Debug)]
struct Cut<'a> {
    line: &'a [u8],
    rest: Option<&'a [u8]>,
}

/// The first line of a text.
#[tactic(auto, using(crate::proofs::ForestLoop::last_cut, crate::proofs::ForestLoop::first_cut))]
fn first_line(bytes: &[u8]) -> Cut<'_>
    ensures lines { lines_of bytes.now ≡ result.line.now ∷ lines_behind result.rest }
    ensures inside { length result.line.now ≤ length bytes.now }
    ensures shorter { IfSome result.rest (λ rest. length rest.now < length bytes.now) }
{
    let len = line_len(bytes);
    if len < bytes.len() {
        return Cut {
            line: &bytes[..len],
            rest: Some(behind(bytes, len + 1)),
        };
    }
    Cut {
        line: &bytes[..len],
        rest: None,
    }
}

fn fault(kind: u8, number: u32, line: &[u8], from: &[u8]) -> ForestRefusal
    requires within { length from.now ≤ length line.now }
    requires short { length line.now + 1 < 2 ^ 32 }
    ensures { result ≡ ForestRefusal.Fault (record { kind = kind; line = number; column = (length line.now - length from.now) + 1 }) }
{
    ForestRefusal::Fault(ForestFault {
        kind,
        line: number,
        column: (line.len() - from.len()) as u32 + 1,
    })
}

/// Reads a line, and hands its tokens on, up to the first with a fault. The answer is how many trees
/// there are then.
fn read_line<T: Taker>(
    grammar: &Grammar,
    guesses: &[u8],
    trees: usize,
    number: u32,
    line: &[u8],
    around: &mut Around,
    taker: &mut T,
) -> Result<usize, ForestRefusal>
    requires within { IsWithinLimits grammar.now }
    requires guesses { AreGuesses grammar.now guesses.now }
    requires short { length line.now + 1 < 2 ^ 32 }
    requires so_far { (taken : List AnyTree) × T.took taker.old grammar.now taken [] }
    ensures line { (taken : List AnyTree) → T.took taker.old grammar.now taken [] → IfOk result (λ count. (tree : Option AnyTree) × IsLineResult grammar.now line.now tree
        × OnSome tree (trees < most_trees) × (count ≡ trees + length (option_to_list tree)) × T.took taker.new grammar.now (taken ++ option_to_list tree) []) }
    ensures refusal { IfErr result (λ refusal. IsLineRefusal grammar.now trees line.now number refusal) }
{
    around.restart();
    let mut state = State::Start;
    let mut plain = true;
    let mut rest = line;
    'tokens: loop {
        let found = next_token(wants_attribute(state), plain, rest);
        let Some(next) = step(state, &found.piece) else {
            return Err(fault(TOKEN, number, line, found.from));
        };
        let operator = operator_named(grammar, guesses, &found.piece);
        if let Some(kind) = kind_of(grammar, trees, around, operator, &found.piece) {
            return Err(fault(kind, number, line, found.from));
        }
        if let State::Ended = next {
            if around.names() == 0 {
                return Ok(trees);
            }
            taker.end(line, found.plain)?;
            return Ok(trees + 1);
        }
        taker.take(operator as u8, &found.piece)?;
        around.follow(operator as u8, &found.piece)?;
        state = next;
        plain = found.plain;
        rest = found.behind;
    }
}

/// Hands on the tokens of the trees that the text spells under the grammar, in their order.
pub fn read_trees<T: Taker>(
    alloc: Global,
    grammar: &Grammar,
    bytes: &[u8],
    taker: &mut T,
) -> Result<(), ForestRefusal>
    requires within { IsWithinLimits grammar.now }
    requires short { length bytes.now < 4294967295 }
    requires none { T.took taker.old grammar.now [] [] }
    ensures ok { OnOk result ((trees : List AnyTree) × SpellsForest grammar.now bytes.now (record { trees = trees }) × T.took taker.new grammar.now trees []) }
    ensures fault { IfErr result (λ refusal. IsForestRefusal grammar.now bytes.now refusal) }
{
    let guesses = guesses_of(alloc, grammar)?;
    let mut around = Around::new(alloc);
    let mut trees = 0;
    let mut number = 1;
    let mut rest = bytes;
    'lines: loop {
        let cut = first_line(rest);
        trees = read_line(
            grammar,
            &guesses,
            trees,
            number,
            cut.line,
            &mut around,
            taker,
        )?;
        let Some(behind) = cut.rest else {
            return Ok(());
        };
        rest = behind;
        number += 1;
    }
}

/// The forest that the text spells under the grammar. Each line has one tree, or blanks alone. A tree
/// is its operator's name, then its attribute, if any, behind a `:`, and then its kids, if any, in
/// parentheses and with commas between them. Blanks are space, tab, carriage return and form feed, and
/// may stand between any two tokens. The last line may lack its line feed.
///
/// A fault is at the first token that has one, and the line's end is a token. At one token the kinds
/// come in this order: `TOKEN`, `TOO_MANY_TREES`, `TOO_DEEP`, `TOO_MANY_NODES`, `UNKNOWN_OPERATOR`,
/// `ARITY`, `NUMBER_LARGE`.
pub fn read_forest(alloc: Global, grammar: &Grammar, bytes: &[u8]) -> Result<Forest, ForestRefusal>
    requires within { IsWithinLimits grammar.now }
    requires short { length bytes.now < 4294967295 }
    ensures ok { IfOk result (λ forest. SpellsForest grammar.now bytes.now forest) }
    ensures valid { IfOk result (λ forest. IsValidForest grammar.now forest) }
    ensures fault { IfErr result (λ refusal. IsForestRefusal grammar.now bytes.now refusal) }
{
    let mut builder = TreeBuilder::new(alloc);
    read_trees(alloc, grammar, bytes, &mut builder)?;
    Ok(Forest {
        trees: builder.into_trees(),
    })
}
