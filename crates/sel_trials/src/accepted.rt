// The texts of a row, read.
ghost use Rattle.std.specs.Prelude.{IfOk};
ghost use Rattle.sel_grammar.specs.Lawful.{IsLawful};
ghost use Rattle.sel_forest.specs.Valid.{IsValidForest};
ghost use Rattle.sel_items.specs.Laws.{IsAcceptedForm};

use crate::stop::Stop;
use sel_forest::{Forest, read_forest};
use sel_grammar::Grammar;
use sel_grammar_text::read_grammar;
use sel_normal::Normal;
use sel_sheet::Row;
use std::alloc::Global;

// one byte more than a text may have
const TOO_LONG: usize = 4_294_967_295;

/// A grammar that is accepted, and its normal form.
#[derive(Drop)]
pub struct Accepted {
    pub grammar: Grammar,
    pub normal: Normal,
}

/// An accepted grammar, and a forest under it.
#[derive(Drop)]
pub struct Subject {
    pub accepted: Accepted,
    pub forest: Forest,
}

/// The text of the row's file of this name.
pub fn text_of<'r>(row: &'r Row<'_>, name: &str) -> Result<&'r [u8], Stop> {
    row.file(name).ok_or(Stop::Unfit("the row lacks a file"))
}

/// The grammar that the text spells.
pub fn grammar_of(alloc: Global, text: &[u8]) -> Result<Grammar, Stop>
    ensures { IfOk result (λ grammar. IsLawful grammar) }
{
    if text.len() >= TOO_LONG {
        return Err(Stop::Unfit("the grammar is too long"));
    }
    Ok(read_grammar(alloc, text)?)
}

fn accepted_of(alloc: Global, text: &[u8]) -> Result<Accepted, Stop>
    ensures { IfOk result (λ accepted. IsAcceptedForm accepted.grammar accepted.normal) }
{
    let grammar = grammar_of(alloc, text)?;
    let normal = Normal::of(alloc, &grammar)?;
    Ok(Accepted { grammar, normal })
}

/// The grammar of the row's file `g`, with its normal form.
pub fn accept(alloc: Global, row: &Row<'_>) -> Result<Accepted, Stop>
    ensures { IfOk result (λ accepted. IsAcceptedForm accepted.grammar accepted.normal) }
{
    accepted_of(alloc, text_of(row, "g")?)
}

/// The forest that the text spells.
pub fn forest_in(alloc: Global, grammar: &Grammar, text: &[u8]) -> Result<Forest, Stop>
    requires lawful { IsLawful grammar.now }
    ensures { IfOk result (λ forest. IsValidForest grammar.now forest) }
{
    if text.len() >= TOO_LONG {
        return Err(Stop::Unfit("the forest is too long"));
    }
    Ok(read_forest(alloc, grammar, text)?)
}

/// The forest of the row's file `f`.
pub fn forest_of(alloc: Global, grammar: &Grammar, row: &Row<'_>) -> Result<Forest, Stop>
    requires lawful { IsLawful grammar.now }
    ensures { IfOk result (λ forest. IsValidForest grammar.now forest) }
{
    forest_in(alloc, grammar, text_of(row, "f")?)
}

/// The grammar and the forest of the row's files `g` and `f`.
pub fn subject_of(alloc: Global, row: &Row<'_>) -> Result<Subject, Stop>
    ensures form { IfOk result (λ subject. IsAcceptedForm subject.accepted.grammar subject.accepted.normal) }
    ensures valid { IfOk result (λ subject. IsValidForest subject.accepted.grammar subject.forest) }
{
    let accepted = accept(alloc, row)?;
    let forest = forest_of(alloc, &accepted.grammar, row)?;
    Ok(Subject { accepted, forest })
}
