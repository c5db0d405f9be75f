//! The form of a text, token by token.

ghost use Rattle.std.specs.Prelude.{◌≡◌, ◌<◌, ◌^◌};
ghost use Rattle.std.specs.Str.Parse.{AllDigits};
ghost use Rattle.sel_grammar_text.specs.Form as form;
ghost use Rattle.sel_grammar_text.specs.Machine as machine;
ghost use Rattle.sel_grammar_text.specs.ItemNumbers.{HasDigits};
ghost use Rattle.sel_grammar_text.specs.Pieces.{view};

use crate::tokens::Piece;
use sel_base::digits::number;
use sel_grammar::limits::GREATEST_EXTERNAL;

/// What came last in a text. A flag `started` says whether a start symbol is declared, and a number
/// how many parentheses are open.
#[derive(Clone, Copy)]
pub enum State {
    /// A declaration, or nothing yet. The second flag says whether entries may follow.
    Declaring(bool, bool),
    /// `%start`.
    Starting,
    /// An entry's name.
    Entering(bool),
    /// An entry's equals sign.
    Equating(bool),
    /// `%%`, or a rule.
    Ruling,
    /// A rule's left name.
    LeftName,
    /// A colon, an opening parenthesis or a comma, behind which a name is wanted.
    Wanted(usize),
    /// A name of a pattern.
    Named(usize),
    /// A closing parenthesis.
    Closed(usize),
    /// The equals sign behind a pattern.
    External,
    /// The external number.
    Numbered,
    /// The opening parenthesis of a cost.
    Pricing,
    /// The first number of a cost.
    Priced,
    /// The comma behind the first number of a cost.
    Pairing,
    /// The second number of a cost.
    Paired,
    /// The closing parenthesis of a cost.
    Finishing,
    /// The text's end.
    Ended,
}

/// Whether the number may be an operator's or a rule's.
fn is_small(digits: &[u8]) -> bool
    requires { AllDigits 10 digits.now }
    ensures { result ≡ form.is_small digits.now }
{
    number(digits, GREATEST_EXTERNAL as u64).is_some()
}

fn after_pattern(depth: usize, piece: &Piece<'_>) -> Option<State>
    ensures { result ≡ machine.after_pattern depth (view piece.now) }
{
    match piece {
        Piece::Comma if depth > 0 => Some(State::Wanted(depth)),
        Piece::Close if depth > 0 => Some(State::Closed(depth - 1)),
        Piece::Quoted(_, _) if depth == 0 => Some(State::Ruling),
        Piece::Equals if depth == 0 => Some(State::External),
        _ => None,
    }
}

fn declare(started: bool, entries: bool, piece: &Piece<'_>) -> Option<State>
    ensures { result ≡ machine.declare started entries (view piece.now) }
{
    match piece {
        Piece::Start if !started => Some(State::Starting),
        Piece::Term => Some(State::Declaring(started, true)),
        Piece::Name(_) if entries => Some(State::Entering(started)),
        Piece::Code(_) => Some(State::Declaring(started, false)),
        Piece::Percents => Some(State::Ruling),
        _ => None,
    }
}

/// The state behind the token, or none where no text goes on with it.
pub fn step(state: State, piece: &Piece<'_>) -> Option<State>
    requires shallow { machine.open_count state < 2 ^ 63 }
    requires digits { HasDigits (view piece.now) }
    ensures { result ≡ machine.step state (view piece.now) }
{
    match (state, piece) {
        (State::Declaring(started, entries), piece) => declare(started, entries, piece),
        (State::Starting, Piece::Name(_)) => Some(State::Declaring(true, false)),
        (State::Entering(started), Piece::Equals) => Some(State::Equating(started)),
        (State::Equating(started), Piece::Integer(digits)) if is_small(digits) => {
            Some(State::Declaring(started, true))
        }
        (State::Ruling, Piece::Name(_)) => Some(State::LeftName),
        (State::Ruling, Piece::Percents | Piece::End) => Some(State::Ended),
        (State::LeftName, Piece::Colon) => Some(State::Wanted(0)),
        (State::Wanted(depth), Piece::Name(_)) => Some(State::Named(depth)),
        (State::Named(depth), Piece::Open) => Some(State::Wanted(depth + 1)),
        (State::Named(depth) | State::Closed(depth), piece) => after_pattern(depth, piece),
        (State::External, Piece::Integer(digits)) if is_small(digits) => Some(State::Numbered),
        (State::Numbered, Piece::Open) => Some(State::Pricing),
        (State::Numbered, Piece::Semi) => Some(State::Ruling),
        (State::Pricing, Piece::Integer(_)) => Some(State::Priced),
        (State::Priced, Piece::Close) => Some(State::Finishing),
        (State::Priced, Piece::Comma) => Some(State::Pairing),
        (State::Pairing, Piece::Integer(_)) => Some(State::Paired),
        (State::Paired, Piece::Close) => Some(State::Finishing),
        (State::Finishing, Piece::Semi) => Some(State::Ruling),
        _ => None,
    }
}

/// Whether an item ends there, or the text.
pub fn is_border(state: State) -> bool
    ensures { result ≡ machine.is_border state }
{
    match state {
        State::Declaring(_, _) | State::Ruling | State::Ended => true,
        _ => false,
    }
}

/// Whether a parenthesis there opens a cost.
pub fn wants_cost(state: State) -> bool
    ensures { result ≡ machine.wants_cost state }
{
    match state {
        State::Numbered => true,
        _ => false,
    }
}
