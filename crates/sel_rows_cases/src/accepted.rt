// The texts of a row, read.
ghost use Rattle.std.specs.Prelude.{IfOk};
ghost use Rattle.sel_grammar.specs.Lawful.{IsLawful};
ghost use Rattle.sel_forest.specs.Valid.{IsValidForest};
ghost use Rattle.sel_items.specs.Laws.{IsAcceptedForm};

use crate::stop::Stop;
use sel_forest::{Forest, read_forest};
use sel_grammar::Grammar;
use sel_grammar_text::read_grammar;
use sel_normal::Normal;
use sel_sheet::Row;
use std::alloc::Global;

// one byte more than a text may have
const TOO_LONG: usize = 4_294_967_295;

/// A grammar that is accepted, and its normal form.
#[derive(Drop)]
pub struct Accepted {
    pub grammar: Grammar,
    pub normal: Normal,
}

/// The text of the row's file of this name.
pub fn text_of<'r>(row: &'r Row<'_>, name: &str) -> Result<&'r [u8], Stop> {
    row.file(name).ok_or(Stop::Unfit("the row lacks a file"))
}

/// The grammar of the row's file `g`, with its normal form.
pub fn accept(alloc: Global, row: &Row<'_>) -> Result<Accepted, Stop>
    ensures { IfOk result (λ accepted. IsAcceptedForm accepted.grammar accepted.normal) }
{
    let text = text_of(row, "g")?;
    if text.len() >= TOO_LONG {
        return Err(Stop::Unfit("the grammar is too long"));
    }
    let grammar = read_grammar(alloc, text)?;
    let normal = Normal::of(alloc, &grammar)?;
    Ok(Accepted { grammar, normal })
}

/// The forest of the row's file `f`.
pub fn forest_of(alloc: Global, grammar: &Grammar, row: &Row<'_>) -> Result<Forest, Stop>
    requires lawful { IsLawful grammar.now }
    ensures { IfOk result (λ forest. IsValidForest grammar.now forest) }
{
    let text = text_of(row, "f")?;
    if text.len() >= TOO_LONG {
        return Err(Stop::Unfit("the forest is too long"));
    }
    Ok(read_forest(alloc, grammar, text)?)
}
