//! Grammars read from text.

ghost use Rattle.std.specs.Prelude.{◌≡◌, ℕ, ◌+◌, ◌-◌, ◌<◌, ◌≤◌, ◌^◌, List, ◌++◌, length, take, IfOk, IfErr, OnOk};
ghost use Rattle.std.specs.List.{AllByRecursion};
ghost use Rattle.sel_grammar.specs.Complete.{IsComplete};
ghost use Rattle.sel_grammar.specs.Lawful.{IsLawful};
ghost use Rattle.sel_grammar_text.specs.Extents.{StandsAtItem, HasExtent};
ghost use Rattle.sel_grammar_text.specs.GrammarText.{SpellsGrammar, GrammarRefusedFor};
ghost use Rattle.sel_grammar_text.specs.Places.{IsMark, IsPlaceBehind};
ghost use Rattle.sel_grammar_text.specs.Reading.{IsReading, IsTaken, StopsFor};
ghost use Rattle.sel_grammar_text.specs.declared.read.Stop.TheVariants as Stop;

use crate::checks::check;
use crate::fault::Fault;
use crate::finish::{end_fault, grammar_of};
use crate::form::State;
use crate::item::{item, spots_of};
use crate::mark::{Mark, add_mark, place_of};
use crate::place::{Place, advance};
use crate::scan::{Extent, next_extent};
use crate::tables::Tables;
use crate::tokens::skip;
use sel_base::NoMemory;
use sel_grammar::{Grammar, GrammarFault, GrammarRefusal};
use std::alloc::Global;

/// Why reading stops.
#[derive(Clone, Copy)]
pub enum Stop {
    Fault(Fault),
    NoMemory,
}

impl From<NoMemory> for Stop {
    ghost from_gives = { λ _ e. e ≡ Stop.NoMemory };

    fn from(_: NoMemory) -> Stop {
        Stop::NoMemory
    }
}

/// Where an item begins: the state behind the items before it, what is left of the text, and its place.
#[derive(Clone, Copy)]
pub struct Position<'t> {
    pub state: State,
    pub left: &'t [u8],
    pub place: Place,
}

/// Checks and takes the item that begins at a position, and whose tokens reach so far.
fn take_item<'t>(
    alloc: Global,
    bytes: &'t [u8],
    tables: &mut Tables<'t>,
    from: Position<'t>,
    extent: &Extent<'t>,
) -> Result<(), Stop>
    requires short { length bytes.now < 4294967295 }
    requires reading { IsReading bytes.now tables.old from }
    requires extent { (n : ℕ) → StandsAtItem bytes.now n from.state from.left.now → HasExtent bytes.now n from.left.now extent.now }
    ensures taken { OnOk result (IsTaken bytes.now tables.new extent.now) }
    ensures stop { IfErr result (λ stop. StopsFor bytes.now stop) }
{
    let spots = spots_of(alloc, bytes.len(), from.left, extent.count)?;
    let Some(item) = item(alloc, spots.as_slice())? else {
        return Ok(());
    };
    if let Some(fault) = check(tables, &item) {
        return Err(Stop::Fault(fault));
    }
    let blanks = from.left.len() - skip(from.left).len();
    let place = advance(from.place, &from.left[..blanks]);
    tables.add(alloc, &item, place.line, place.column)?;
    Ok(())
}

/// The position behind an item.
fn behind_item<'t>(from: Position<'t>, extent: &Extent<'t>) -> Position<'t>
    requires within { length extent.now.behind.now ≤ length from.left.now }
    requires line_fits { from.place.line + length from.left.now < 2 ^ 32 }
    requires column_fits { from.place.column + length from.left.now < 2 ^ 32 }
    ensures state { result.state ≡ extent.now.state }
    ensures left { result.left.now ≡ extent.now.behind.now }
    ensures place { (before : List ℕ) → IsPlaceBehind before from.entry.place → IsPlaceBehind (before ++ take (length from.entry.left.now - length extent.now.behind.now) from.entry.left.now) result.place }
{
    let len = from.left.len() - extent.behind.len();
    Position {
        state: extent.state,
        left: extent.behind,
        place: advance(from.place, &from.left[..len]),
    }
}

/// The grammar that the tables hold behind the text's last token, or the last fault.
fn finish(bytes: &[u8], tables: Tables<'_>, extent: &Extent<'_>) -> Result<Grammar, Stop>
    requires taken { IsTaken bytes.now tables extent.now }
    requires ended { extent.now.state ≡ State.Ended }
    ensures grammar { IfOk result (λ grammar. SpellsGrammar bytes.now grammar) }
    ensures stop { IfErr result (λ stop. StopsFor bytes.now stop) }
{
    if let Some(fault) = end_fault(&tables, extent.last) {
        return Err(Stop::Fault(fault));
    }
    Ok(grammar_of(tables))
}

/// Reads a text's items, and adds a mark where each begins.
fn read_items(alloc: Global, bytes: &[u8], marks: &mut Vec<Mark>) -> Result<Grammar, Stop>
    requires short { length bytes.now < 4294967295 }
    requires marks { AllByRecursion (IsMark bytes.now) marks.old.items }
    ensures grammar { IfOk result (λ grammar. SpellsGrammar bytes.now grammar) }
    ensures stop { IfErr result (λ stop. StopsFor bytes.now stop) }
    ensures marks { AllByRecursion (IsMark bytes.now) marks.new.items }
{
    let mut tables = Tables::new(alloc);
    let mut from = Position {
        state: State::Declaring(false, false),
        left: bytes,
        place: Place { line: 1, column: 1 },
    };
    'items: loop {
        let at = bytes.len() - from.left.len();
        let place = from.place;
        add_mark(marks, Mark { at, place })?;
        let extent = match next_extent(bytes.len(), from.state, from.left) {
            Ok(extent) => extent,
            Err(fault) => return Err(Stop::Fault(fault)),
        };
        take_item(alloc, bytes, &mut tables, from, &extent)?;
        if let State::Ended = extent.state {
            return finish(bytes, tables, &extent);
        }
        from = behind_item(from, &extent);
    }
}

/// The grammar that the text spells, or its first fault, by the rules of a grammar's text: declarations,
/// `%%`, rules, and, where they stand, a second `%%` and what is passed over behind it.
pub fn read_grammar(alloc: Global, bytes: &[u8]) -> Result<Grammar, GrammarRefusal>
    requires short { length bytes.now < 4294967295 }
    ensures ok { IfOk result (λ grammar. SpellsGrammar bytes.now grammar) }
    ensures lawful { IfOk result (λ grammar. IsLawful grammar) }
    ensures complete { IfOk result (λ grammar. IsComplete grammar) }
    ensures fault { IfErr result (λ refusal. GrammarRefusedFor bytes.now refusal) }
{
    let mut marks = Vec::new(alloc);
    match read_items(alloc, bytes, &mut marks) {
        Ok(grammar) => Ok(grammar),
        Err(Stop::NoMemory) => Err(GrammarRefusal::NoMemory),
        Err(Stop::Fault(fault)) => {
            let place = place_of(bytes, marks.as_slice(), fault.at);
            Err(GrammarRefusal::Fault(GrammarFault {
                kind: fault.kind,
                line: place.line,
                column: place.column,
            }))
        }
    }
}
