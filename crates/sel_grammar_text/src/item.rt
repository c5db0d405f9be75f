//! What the tokens of an item say.

ghost use Rattle.std.specs.Prelude.{◌≡◌, ◌≤◌, ◌<◌, ◌+◌, ◌^◌, ◌∷◌, [], ℕ, List, map, length, IfOk, MatchOption, option_map};
ghost use Rattle.std.specs.List.{AllByRecursion};
ghost use Rattle.sel_grammar_text.specs.Cutting as cutting;
ghost use Rattle.sel_grammar_text.specs.ItemNumbers.{HasNumbers, IsSpot};
ghost use Rattle.sel_grammar_text.specs.Items.{word};
ghost use Rattle.sel_grammar_text.specs.Pieces.{view};
ghost use Rattle.sel_grammar_text.specs.Spots as spots;
ghost use Rattle.sel_grammar_text.specs.Tokens as tokens;
ghost use Rattle.sel_grammar_text.specs.Words as words;

use crate::cost::cost;
use crate::tokens::{Piece, next_token};
use crate::words::{Item, Named, RuleItem, Spot, Tail, TextWord, WrittenAmount, WrittenCost};
use sel_base::NoMemory;
use std::alloc::Global;

/// The next tokens, where `left` is what is left of a text with `all` bytes.
pub fn spots_of<'t>(
    alloc: Global,
    all: usize,
    left: &'t [u8],
    count: usize,
) -> Result<Vec<Spot<'t>>, NoMemory>
    requires text { all < 2 ^ 63 }
    requires left { length left.now ≤ all }
    ensures are { IfOk result (λ v. map words.view_spot v.items ≡ spots.first all count left.now) }
    ensures lexical { IfOk result (λ v. AllByRecursion IsSpot (map words.view_spot v.items)) }
{
    let mut spots = Vec::new(alloc);
    let mut rest = left;
    'tokens: for _ in 0..count {
        let found = next_token(rest);
        spots.push(Spot {
            piece: found.piece,
            at: all - found.from.len(),
        })?;
        rest = found.behind;
    }
    Ok(spots)
}

/// How many commas stand on this level before the parenthesis that closes it.
fn commas(spots: &[Spot<'_>]) -> usize
    ensures count { result ≡ cutting.commas 0 (map words.view_spot spots.now) }
    ensures few { result ≤ length spots.now }
{
    let mut depth: usize = 0;
    let mut count: usize = 0;
    let mut rest = spots;
    'spots: while let [spot, behind @ ..] = rest {
        match spot.piece {
            Piece::Open => depth += 1,
            Piece::Close => {
                if depth == 0 {
                    return count;
                }
                depth -= 1;
            }
            Piece::Comma => {
                if depth == 0 {
                    count += 1;
                }
            }
            _ => {}
        }
        rest = behind;
    }
    count
}

/// How many kids a name has, by the tokens behind it.
fn kids_behind(spots: &[Spot<'_>]) -> usize
    ensures { result ≡ cutting.kids_behind (map words.view_spot spots.now) }
{
    let Some((spot, behind)) = spots.split_first() else {
        return 0;
    };
    match spot.piece {
        Piece::Open => 1 + commas(behind),
        _ => 0,
    }
}

/// The names of a pattern, up to the template or the equals sign.
fn pattern_in<'t>(alloc: Global, spots: &[Spot<'t>]) -> Result<Vec<Named<'t>>, NoMemory>
    ensures { IfOk result (λ v. map words.view_named v.items ≡ cutting.pattern_in (map words.view_spot spots.now)) }
{
    let mut names = Vec::new(alloc);
    let mut rest = spots;
    'spots: while let [spot, behind @ ..] = rest {
        match spot.piece {
            Piece::Name(bytes) => {
                let word = TextWord { bytes, at: spot.at };
                let kids = kids_behind(behind);
                names.push(Named { word, kids })?;
            }
            Piece::Quoted(_, _) | Piece::Equals => return Ok(names),
            _ => {}
        }
        rest = behind;
    }
    Ok(names)
}

/// No word.
fn no_word<'t>() -> TextWord<'t>
    ensures { words.view_word result ≡ word 0 [] }
{
    TextWord {
        bytes: b"".as_slice(),
        at: 0,
    }
}

/// The first number, and the tokens behind it.
fn next_number<'s, 't>(spots: &'s [Spot<'t>]) -> Option<(TextWord<'t>, &'s [Spot<'t>])>
    ensures { MatchOption result (cutting.numbers_in (map words.view_spot spots.now) ≡ []) (λ x. cutting.numbers_in (map words.view_spot spots.now) ≡ words.view_word x.0 ∷ cutting.numbers_in (map words.view_spot x.1.now)) }
{
    let mut rest = spots;
    'spots: while let [spot, behind @ ..] = rest {
        if let Piece::Integer(bytes) = spot.piece {
            return Some((TextWord { bytes, at: spot.at }, behind));
        }
        rest = behind;
    }
    None
}

/// The cost whose numbers stand behind the external one: none, one number, or two.
fn amount_in<'t>(spots: &[Spot<'t>]) -> Option<WrittenAmount<'t>>
    ensures { option_map words.view_amount result ≡ cutting.amount_of (cutting.numbers_in (map words.view_spot spots.now)) }
{
    let (first, behind) = next_number(spots)?;
    let second = match next_number(behind) {
        None => None,
        Some((number, _)) => Some(number),
    };
    Some(WrittenAmount { first, second })
}

/// The tail whose numbers stand behind its equals sign.
fn burg_tail<'t>(spots: &[Spot<'t>]) -> Tail<'t>
    ensures { words.view_tail result ≡ cutting.burg_of (cutting.numbers_in (map words.view_spot spots.now)) }
{
    let Some((external, behind)) = next_number(spots) else {
        return Tail::Burg(no_word(), None);
    };
    Tail::Burg(external, amount_in(behind))
}

/// The tail that a template begins at a place, with what stands behind it on its line.
fn one_line_tail<'t>(at: usize, inside: &'t [u8], behind: &'t [u8]) -> Tail<'t>
    requires { at + (length inside.now + length behind.now + 2) < 2 ^ 63 }
    ensures { words.view_tail result ≡ cutting.tail_in (record { token = tokens.Quoted inside.now behind.now; at = at } ∷ []) }
{
    let template = TextWord {
        bytes: inside,
        at: at + 1,
    };
    match cost(at + inside.len() + 2, behind) {
        None => Tail::OneLine(template, WrittenCost::Absent),
        Some(cost) => Tail::OneLine(template, cost),
    }
}

/// The tail behind a pattern.
fn tail_in<'t>(spots: &[Spot<'t>]) -> Tail<'t>
    requires { AllByRecursion IsSpot (map words.view_spot spots.now) }
    ensures { words.view_tail result ≡ cutting.tail_in (map words.view_spot spots.now) }
{
    let mut rest = spots;
    'spots: while let [spot, behind @ ..] = rest {
        match spot.piece {
            Piece::Quoted(inside, line) => return one_line_tail(spot.at, inside, line),
            Piece::Equals => return burg_tail(behind),
            _ => {}
        }
        rest = behind;
    }
    Tail::Burg(no_word(), None)
}

/// The name behind `%start`.
fn start_item<'t>(spots: &[Spot<'t>]) -> Option<Item<'t>>
    ensures { words.view_items result ≡ cutting.start_item (map words.view_spot spots.now) }
{
    let (spot, _) = spots.split_first()?;
    let bytes = match spot.piece {
        Piece::Name(bytes) => bytes,
        _ => no_word().bytes,
    };
    Some(Item::Start(TextWord { bytes, at: spot.at }))
}

/// An entry: its number stands behind the equals sign.
fn entry_item<'t>(name: TextWord<'t>, spots: &[Spot<'t>]) -> Option<Item<'t>>
    ensures { words.view_items result ≡ cutting.entry_in (words.view_word name.entry) (map words.view_spot spots.now) }
{
    let (spot, _) = spots.split_first()?;
    let bytes = match spot.piece {
        Piece::Integer(bytes) => bytes,
        _ => no_word().bytes,
    };
    Some(Item::Entry(name, TextWord { bytes, at: spot.at }))
}

/// What begins with a name: an entry, or a rule.
fn named_item<'t>(
    alloc: Global,
    name: TextWord<'t>,
    spots: &[Spot<'t>],
) -> Result<Option<Item<'t>>, NoMemory>
    requires { AllByRecursion IsSpot (map words.view_spot spots.now) }
    ensures { IfOk result (λ i. words.view_items i ≡ cutting.named_item (words.view_word name.entry) (map words.view_spot spots.now)) }
{
    let Some((spot, behind)) = spots.split_first() else {
        return Ok(None);
    };
    if let Piece::Equals = spot.piece {
        return Ok(entry_item(name, behind));
    }
    let pattern = pattern_in(alloc, behind)?;
    let tail = tail_in(behind);
    Ok(Some(Item::Rule(RuleItem {
        left: name,
        pattern,
        tail,
    })))
}

/// The item that the tokens are, where they are one. `%term` is none.
pub fn item<'t>(alloc: Global, spots: &[Spot<'t>]) -> Result<Option<Item<'t>>, NoMemory>
    requires { AllByRecursion IsSpot (map words.view_spot spots.now) }
    ensures says { IfOk result (λ i. words.view_items i ≡ cutting.item_of (map words.view_spot spots.now)) }
    ensures numbers { IfOk result (λ i. AllByRecursion HasNumbers (words.view_items i)) }
{
    let Some((spot, behind)) = spots.split_first() else {
        return Ok(None);
    };
    match spot.piece {
        Piece::Start => Ok(start_item(behind)),
        Piece::Code(_) => Ok(Some(Item::Code)),
        Piece::Percents => Ok(Some(Item::Percents(spot.at))),
        Piece::Name(bytes) => named_item(alloc, TextWord { bytes, at: spot.at }, behind),
        _ => Ok(None),
    }
}
