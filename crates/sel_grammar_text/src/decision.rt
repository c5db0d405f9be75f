//! Which fault of form a token has.

ghost use Rattle.std.specs.Prelude.{◌≡◌, ◌+◌, ◌<◌, ◌^◌, [], length, IfOk, IfErr, Some, None};
ghost use Rattle.sel_grammar.specs.Limits as limits;
ghost use Rattle.sel_grammar_text.specs.CostText.{wrong_cost};
ghost use Rattle.sel_grammar_text.specs.Faults as faults;
ghost use Rattle.sel_grammar_text.specs.FormDecision as decision;
ghost use Rattle.sel_grammar_text.specs.FormFaults.{bad_byte};
ghost use Rattle.sel_grammar_text.specs.ItemNumbers.{HasDigits};
ghost use Rattle.sel_grammar_text.specs.Machine as machine;
ghost use Rattle.sel_grammar_text.specs.Pieces.{view};
ghost use Rattle.sel_grammar_text.specs.Tokens as tokens;
ghost use Rattle.sel_grammar_text.specs.Tokens.{width};

use crate::cost::wrong_cost_at;
use crate::fault::Fault;
use crate::form::{State, step, wants_cost};
use crate::strings::{bad_byte_at, is_cost_list};
use crate::tokens::{Found, Piece};
use sel_grammar::limits::{COST_FORM, MOST_NAMES, TEMPLATE_FORM, TOKEN, TOO_MANY};

/// What is wrong with a template, whose quote stands at a place, or with what stands behind it on its
/// line.
fn string_fault(at: usize, inside: &[u8], line: &[u8]) -> Option<Fault>
    requires { at + (length inside.now + length line.now + 2) < 2 ^ 63 }
    ensures { result ≡ faults.or_fault (faults.fault_at limits.template_form (bad_byte (at + 1) inside.now)) (faults.fault_at limits.cost_form (wrong_cost (at + length inside.now + 2) line.now)) }
{
    if let Some(at) = bad_byte_at(at + 1, inside) {
        return Some(Fault {
            kind: TEMPLATE_FORM,
            at,
        });
    }
    let at = wrong_cost_at(at + inside.len() + 2, line)?;
    Some(Fault {
        kind: COST_FORM,
        at,
    })
}

/// What is wrong with a token with which some text goes on. So many names stand in its pattern, and
/// `cost` says whether a parenthesis opens a cost.
fn accepted_fault(names: usize, cost: bool, at: usize, found: &Found<'_>) -> Option<Fault>
    requires { at + width (view found.now.piece) < 2 ^ 63 }
    ensures { result ≡ decision.accepted_fault names cost at found.now.behind.now (view found.now.piece) }
{
    match found.piece {
        Piece::Name(_) if names == MOST_NAMES => Some(Fault { kind: TOO_MANY, at }),
        Piece::Quoted(inside, line) => string_fault(at, inside, line),
        Piece::Open if cost && is_cost_list(found.behind) => Some(Fault {
            kind: COST_FORM,
            at,
        }),
        _ => None,
    }
}

/// The fault of a quote that isn't closed on its line.
fn open_string_fault(state: State, at: usize) -> Fault
    requires { machine.open_count state < 2 ^ 63 }
    ensures { result ≡ decision.open_string_fault (machine.step state (tokens.Quoted [] [])) at }
{
    match step(state, &Piece::Quoted(b"".as_slice(), b"".as_slice())) {
        None => Fault { kind: TOKEN, at },
        Some(_) => Fault {
            kind: TEMPLATE_FORM,
            at,
        },
    }
}

/// Where a stray token is told: C text that isn't closed at the text's end, where it may stand, and
/// all else at itself.
fn stray_place(all: usize, state: State, at: usize, piece: &Piece<'_>) -> usize
    requires { machine.open_count state < 2 ^ 63 }
    ensures { result ≡ decision.stray_place all (machine.step state (tokens.Code 0)) (record { token = view piece.now; at = at }) }
{
    let Piece::OpenCode = piece else {
        return at;
    };
    match step(state, &Piece::Code(0)) {
        None => at,
        Some(_) => all,
    }
}

fn is_unclosed(piece: &Piece<'_>) -> bool
    ensures { result ≡ decision.is_unclosed (view piece.now) }
{
    match piece {
        Piece::Unclosed => true,
        _ => false,
    }
}

/// The state behind a token, which stands at a place in a text of so many bytes, or its fault of form.
pub fn accept(
    all: usize,
    state: State,
    names: usize,
    at: usize,
    found: &Found<'_>,
) -> Result<State, Fault>
    requires shallow { machine.open_count state < 2 ^ 63 }
    requires digits { HasDigits (view found.now.piece) }
    requires within { at + width (view found.now.piece) < 2 ^ 63 }
    ensures accepted { IfOk result (λ _. decision.decided_fault all state names (machine.wants_cost state) (record { token = view found.now.piece; at = at }) found.now.behind.now ≡ None) }
    ensures stepped { IfOk result (λ next. machine.step state (view found.now.piece) ≡ Some next) }
    ensures fault { IfErr result (λ fault. decision.decided_fault all state names (machine.wants_cost state) (record { token = view found.now.piece; at = at }) found.now.behind.now ≡ Some fault) }
{
    if is_unclosed(&found.piece) {
        return Err(open_string_fault(state, at));
    }
    let Some(next) = step(state, &found.piece) else {
        return Err(Fault {
            kind: TOKEN,
            at: stray_place(all, state, at, &found.piece),
        });
    };
    match accepted_fault(names, wants_cost(state), at, found) {
        None => Ok(next),
        Some(fault) => Err(fault),
    }
}
