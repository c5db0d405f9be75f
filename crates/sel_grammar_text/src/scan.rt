//! Where an item ends.

ghost use Rattle.std.specs.Prelude.{◌≡◌, ℕ, ◌+◌, ◌<◌, ◌≤◌, ◌^◌, List, length, true, if◌then◌else◌, IfOk, IfErr};
ghost use Rattle.sel_grammar_text.specs.Extents.{StandsAtItem, HasExtent};
ghost use Rattle.sel_grammar_text.specs.GrammarText.{HasFirstFault};
ghost use Rattle.sel_grammar_text.specs.Machine as machine;
ghost use Rattle.sel_grammar_text.specs.Pieces.{view};

use crate::decision::accept;
use crate::fault::Fault;
use crate::form::{State, is_border};
use crate::tokens::{Piece, next_token};

/// The tokens of an item: how many they are, the state behind them, where the last one stands, and
/// what is left behind them.
#[derive(Clone, Copy)]
pub struct Extent<'t> {
    pub count: usize,
    pub state: State,
    pub last: usize,
    pub behind: &'t [u8],
}

/// How many names there are with one token more.
fn with_name(names: usize, piece: &Piece<'_>) -> usize
    requires { names < 2 ^ 63 }
    ensures { result ≡ names + (if machine.is_name (view piece.now) then 1 else 0) }
{
    match piece {
        Piece::Name(_) => names + 1,
        _ => names,
    }
}

/// The tokens of the next item, where this much is left of a text of so many bytes, or the first
/// fault of form among them. The text's end counts as an item's end.
pub fn next_extent(all: usize, start: State, text: &[u8]) -> Result<Extent<'_>, Fault>
    requires short { all < 2 ^ 63 }
    requires within { length text.now ≤ all }
    requires begins { machine.is_border start ≡ true }
    ensures extent { IfOk result (λ extent. (bytes : List ℕ) (n : ℕ) → length bytes ≡ all → StandsAtItem bytes n start text.now → HasExtent bytes n text.now extent) }
    ensures border { IfOk result (λ extent. machine.is_border extent.state ≡ true) }
    ensures within { IfOk result (λ extent. length extent.behind.now ≤ length text.now) }
    ensures shorter { IfOk result (λ extent. (extent.state ≡ State.Ended → ⊥) → length extent.behind.now < length text.now) }
    ensures fault { IfErr result (λ fault. (bytes : List ℕ) (n : ℕ) → length bytes ≡ all → StandsAtItem bytes n start text.now → HasFirstFault bytes fault) }
{
    let mut state = start;
    let mut count = 0;
    let mut names: usize = 0;
    let mut rest = text;
    'tokens: loop {
        let found = next_token(rest);
        let last = all - found.from.len();
        let next = match accept(all, state, names.saturating_sub(1), last, &found) {
            Ok(next) => next,
            Err(fault) => return Err(fault),
        };
        count += 1;
        if is_border(next) {
            return Ok(Extent {
                count,
                state: next,
                last,
                behind: found.behind,
            });
        }
        names = with_name(names, &found.piece);
        state = next;
        rest = found.behind;
    }
}
