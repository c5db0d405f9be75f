//! Forests printed while they are read.

ghost use Rattle.std.specs.Prelude.{◌≡◌, bytes_eq, codes, ◌++◌, ◌<◌, [], List, length, true, false, All, flat_map, IfOk, IfErr, OnOk};
ghost use Rattle.std.specs.Fmt.{signed_decimal};
ghost use Rattle.std.specs.Str.Parse.{AllDigits};
ghost use Rattle.sel_grammar.specs.declared.grammar.Grammar.{Grammar as AnyGrammar};
ghost use Rattle.sel_grammar.specs.Limits.{IsWithinLimits};
ghost use Rattle.sel_forest.specs.declared.forest.Tree.{Tree as AnyTree};
ghost use Rattle.sel_forest.specs.ForestText.{IsForestRefusal};
ghost use Rattle.sel_forest.specs.LineFaults.{is_too_large};
ghost use Rattle.sel_forest.specs.Pieces.{view, IsLawful};
ghost use Rattle.sel_forest.specs.Printed.{HasNames, IsPrinted};
ghost use Rattle.sel_forest.specs.Reprinted.{IsReprinted, SpellsTheSame};
ghost use Rattle.sel_forest.specs.Reprinting.{is_above_zero, is_in_print, token_text, IsSmall, HasReprinted};
ghost use Rattle.sel_forest.specs.Taking.{IsLineOf};
ghost use Rattle.sel_forest.specs.Tokens.{Token as AnyToken, source, IsCutInto};
ghost use Rattle.sel_forest.specs.TreeText.{without_sign, value_of};

use crate::number::number;
use crate::read::read_trees;
use crate::refusal::ForestRefusal;
use crate::taker::Taker;
use crate::tokens::{Piece, is_colon, next_token};
use sel_base::text::{put, put_signed};
use sel_base::{List, NoMemory};
use sel_grammar::Grammar;
use std::alloc::Global;

/// Up to this length a word is put byte by byte: to call for a copy would take longer.
const SHORT: usize = 8;

/// Puts a name, a number in print or a symbol behind the text.
fn put_word(text: &mut Vec<u8>, bytes: &[u8]) -> Result<(), NoMemory>
    ensures { OnOk result (text.new.items ≡ text.old.items ++ bytes.now) }
{
    if bytes.len() > SHORT {
        put(text, bytes)?;
        return Ok(());
    }
    'bytes: for byte in bytes {
        text.push(*byte)?;
    }
    Ok(())
}

fn is_above_zero(digits: &[u8]) -> bool
    ensures { result ≡ is_above_zero digits.now }
{
    match digits.first() {
        None => false,
        Some(digit) => *digit > b'0',
    }
}

/// Whether the bytes of a number are its print: they aren't 0, and have no needless zero.
fn is_in_print(bytes: &[u8]) -> bool
    ensures { result ≡ is_in_print bytes.now }
{
    match bytes.split_first() {
        None => false,
        Some((first, rest)) => is_above_zero(if *first == b'-' { rest } else { bytes }),
    }
}

fn is_zero(bytes: &[u8]) -> bool
    ensures { result ≡ bytes_eq bytes.now (codes "0") }
{
    bytes == b"0".as_slice()
}

/// Whether the bytes of a number are its print, 0 among them.
#[tactic(auto, using(crate::proofs::Numerals::in_print, crate::proofs::Numerals::zero_in_print))]
fn is_own_print(bytes: &[u8]) -> bool
    requires { AllDigits 10 (without_sign bytes.now) }
    ensures { result ≡ true → is_too_large bytes.now ≡ false → bytes.now ≡ signed_decimal (value_of bytes.now) }
{
    is_in_print(bytes) || is_zero(bytes)
}

/// Puts a number in print behind the text.
#[tactic(auto, using(crate::proofs::Numerals::in_print))]
fn put_numeral(text: &mut Vec<u8>, bytes: &[u8]) -> Result<(), NoMemory>
    requires { AllDigits 10 (without_sign bytes.now) }
    ensures { is_too_large bytes.now ≡ false → OnOk result (text.new.items ≡ text.old.items ++ signed_decimal (value_of bytes.now)) }
{
    if is_in_print(bytes) {
        put_word(text, bytes)?;
        return Ok(());
    }
    if let Some(number) = number(bytes) {
        put_signed(text, number)?;
    }
    Ok(())
}

/// Puts a token in print behind the text.
fn put_token(text: &mut Vec<u8>, piece: &Piece<'_>) -> Result<(), NoMemory>
    requires { IsLawful (view piece.now) }
    ensures { IsSmall (view piece.now) → OnOk result (text.new.items ≡ text.old.items ++ token_text (view piece.now)) }
{
    match piece {
        Piece::Name(bytes) | Piece::Symbol(bytes) => put_word(text, bytes)?,
        Piece::Number(bytes) => put_numeral(text, bytes)?,
        Piece::Colon => text.push(b':')?,
        Piece::Open => text.push(b'(')?,
        Piece::Comma => text.push(b',')?,
        Piece::Close => text.push(b')')?,
        Piece::Bad(_) | Piece::End => {}
    }
    Ok(())
}

/// Whether a token's bytes are its print.
#[inline(always)]
fn is_printed(piece: &Piece<'_>) -> bool
    requires { IsLawful (view piece.now) }
    ensures { result ≡ true → IsSmall (view piece.now) → source (view piece.now) ≡ token_text (view piece.now) }
{
    match piece {
        Piece::Number(bytes) => is_own_print(bytes),
        Piece::Bad(_) => false,
        _ => true,
    }
}

/// Whether tokens are their own print, and this one behind them.
#[inline(always)]
fn stays_in_print(in_print: bool, piece: &Piece<'_>) -> bool
    requires { IsLawful (view piece.now) }
    ensures { result ≡ true → (in_print ≡ true) × (IsSmall (view piece.now) → source (view piece.now) ≡ token_text (view piece.now)) }
{
    in_print && is_printed(piece)
}

/// Puts a line's tokens in print behind the text.
fn put_tokens(text: &mut Vec<u8>, line: &[u8]) -> Result<(), NoMemory>
    ensures { (ts : List AnyToken) → IsCutInto line.now ts → All IsSmall ts → OnOk result (text.new.items ≡ text.old.items ++ flat_map token_text ts) }
{
    let mut attribute = false;
    let mut rest = line;
    'tokens: loop {
        let found = next_token(attribute, false, rest);
        if let Piece::End = found.piece {
            return Ok(());
        }
        put_token(text, &found.piece)?;
        attribute = is_colon(&found.piece);
        rest = found.behind;
    }
}

/// Puts a line in print behind the text: as it stands, where that is its print, and else token by token.
fn put_line(text: &mut Vec<u8>, line: &[u8], plain: bool, in_print: bool) -> Result<(), NoMemory>
    ensures { (ts : List AnyToken) → IsLineOf ts line.now plain → All IsSmall ts → (in_print ≡ true → flat_map token_text ts ≡ flat_map source ts)
        → OnOk result (text.new.items ≡ text.old.items ++ flat_map token_text ts) }
{
    if plain && in_print {
        put(text, line)?;
        return Ok(());
    }
    put_tokens(text, line)?;
    Ok(())
}

/// Prints lines when they are whole: a printed tree is its tokens in print, without blanks.
#[derive(Drop)]
struct Reprinter {
    text: Vec<u8>,
    in_print: bool,
}

impl Taker for Reprinter {
    ghost took = { λ reprinter g trees ts. HasReprinted g reprinter.text.items reprinter.in_print trees ts };

    fn take(&mut self, _: u8, piece: &Piece<'_>) -> Result<(), NoMemory> {
        self.in_print = stays_in_print(self.in_print, piece);
        Ok(())
    }

    fn end(&mut self, line: &[u8], plain: bool) -> Result<(), NoMemory> {
        put_line(&mut self.text, line, plain, self.in_print)?;
        self.text.push(b'\n')?;
        self.in_print = true;
        Ok(())
    }
}

/// The forest that the text spells under the grammar, in print: what `print_forest` makes of what
/// `read_forest` gives. No tree is held.
pub fn reprint_forest(
    alloc: Global,
    grammar: &Grammar,
    bytes: &[u8],
) -> Result<List<u8>, ForestRefusal>
    requires within { IsWithinLimits grammar.now }
    requires short { length bytes.now < 4294967295 }
    ensures ok { IfOk result (λ text. IsReprinted grammar.now bytes.now text) }
    ensures again { HasNames grammar.now → IfOk result (λ text. SpellsTheSame grammar.now bytes.now text) }
    ensures fault { IfErr result (λ refusal. IsForestRefusal grammar.now bytes.now refusal) }
{
    let mut reprinter = Reprinter {
        text: Vec::new(alloc),
        in_print: true,
    };
    read_trees(alloc, grammar, bytes, &mut reprinter)?;
    Ok(List::from_vec(reprinter.text))
}
