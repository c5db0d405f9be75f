//! The form of a line.

ghost use Rattle.std.specs.Prelude.{◌≡◌, ◌<◌, ◌^◌, ℕ, List};
ghost use Rattle.sel_forest.specs.Tokens.{Name, Number, Symbol, Colon, Open, Comma, Close, End};
ghost use Rattle.sel_forest.specs.Machine as machine;
ghost use Rattle.sel_forest.specs.Pieces.{view};

use crate::tokens::Piece;

/// What came last on a line, and how many parentheses are open.
#[derive(Clone, Copy, Debug)]
pub enum State {
    Start,
    Wanted(usize),
    Named(usize),
    Colonned(usize),
    Attributed(usize),
    Closed(usize),
    Ended,
}

fn after_name(state: State) -> Option<State>
    ensures { (bytes : List ℕ) → result ≡ machine.step state (Name bytes) }
{
    match state {
        State::Start => Some(State::Named(0)),
        State::Wanted(depth) => Some(State::Named(depth)),
        _ => None,
    }
}

fn after_colon(state: State) -> Option<State>
    ensures { result ≡ machine.step state Colon }
{
    match state {
        State::Named(depth) => Some(State::Colonned(depth)),
        _ => None,
    }
}

fn after_attribute(state: State) -> Option<State>
    ensures number { (bytes : List ℕ) → result ≡ machine.step state (Number bytes) }
    ensures symbol { (bytes : List ℕ) → result ≡ machine.step state (Symbol bytes) }
{
    match state {
        State::Colonned(depth) => Some(State::Attributed(depth)),
        _ => None,
    }
}

fn after_open(state: State) -> Option<State>
    requires { machine.open_count state < 2 ^ 63 }
    ensures { result ≡ machine.step state Open }
{
    match state {
        State::Named(depth) | State::Attributed(depth) => Some(State::Wanted(depth + 1)),
        _ => None,
    }
}

fn after_comma(state: State) -> Option<State>
    ensures { result ≡ machine.step state Comma }
{
    match state {
        State::Named(depth) | State::Attributed(depth) | State::Closed(depth) if depth > 0 => Some(
            State::Wanted(depth),
        ),
        _ => None,
    }
}

fn after_close(state: State) -> Option<State>
    ensures { result ≡ machine.step state Close }
{
    match state {
        State::Named(depth) | State::Attributed(depth) | State::Closed(depth) if depth > 0 => Some(
            State::Closed(depth - 1),
        ),
        _ => None,
    }
}

fn after_end(state: State) -> Option<State>
    ensures { result ≡ machine.step state End }
{
    match state {
        State::Start | State::Named(0) | State::Attributed(0) | State::Closed(0) => Some(
            State::Ended,
        ),
        _ => None,
    }
}

/// The state behind the token, or none where no line goes on with it.
pub fn step(state: State, piece: &Piece<'_>) -> Option<State>
    requires { machine.open_count state < 2 ^ 63 }
    ensures { result ≡ machine.step state (view piece.now) }
{
    match piece {
        Piece::Name(_) => after_name(state),
        Piece::Colon => after_colon(state),
        Piece::Number(_) | Piece::Symbol(_) => after_attribute(state),
        Piece::Open => after_open(state),
        Piece::Comma => after_comma(state),
        Piece::Close => after_close(state),
        Piece::End => after_end(state),
        Piece::Bad(_) => None,
    }
}

pub fn wants_attribute(state: State) -> bool
    ensures { result ≡ machine.wants_attribute state }
{
    matches!(state, State::Colonned(_))
}
