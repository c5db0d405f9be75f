//! The text of a cover with the names of registers.
ghost use Rattle.std.specs.Prelude.{◌≡◌, ◌≤◌, ◌<◌, ◌^◌, IfOk, length, map};
ghost use Rattle.sel_grammar.specs.PlainTrees.{PlainTree};
ghost use Rattle.sel_forest.specs.Covers.{IsBestCover};
ghost use Rattle.sel_forest.specs.Postorder.{IsTree, IsPostorderOf};
ghost use Rattle.sel_forest.specs.Valid.{IsValidTree};
ghost use Rattle.sel_expand.specs.Expanding.{IsCovered};
ghost use Rattle.sel_expand.specs.Pieces.{pieces_text};
ghost use Rattle.sel_named.specs.NamedTexts.{IsAllotted, IsNamedText, IsBestNamed};

use crate::lines::{temps_by_line, temps_of};
use crate::names::bytes_by_name;
use sel_base::{List, NoMemory};
use sel_expand::{Expander, Piece};
use sel_forest::{Cover, Tree};
use sel_grammar::Grammar;
use sel_regs::{Assignment, assign};
use std::alloc::Global;

/// What becomes of a cover's text.
#[derive(Debug, Drop)]
pub enum NamedText {
    /// The text with the name of its register in place of each temporary.
    Text(List<u8>),
    /// The text with the numbers of its temporaries has more than 1,048,576 bytes.
    TooLong,
    /// So many temporaries are live on one line, which are more than there are registers.
    TooFew { needs: u32 },
}

/// What becomes of a text in pieces.
fn named_pieces(alloc: Global, pieces: &[Piece], names: &[&str]) -> Result<NamedText, NoMemory>
    requires some { 1 ≤ length names.now }
    requires few { length names.now < 2 ^ 32 }
    ensures { IfOk result (λ answer. IsAllotted (pieces_text pieces.now) (map (λ name. name.now) names.now) answer) }
{
    let lines = temps_by_line(alloc, pieces)?;
    let temps = temps_of(pieces);
    match assign(alloc, lines.as_slice(), temps, names.len() as u32)? {
        Assignment::Assigned(registers) => {
            let text = bytes_by_name(alloc, names, registers.as_slice(), pieces)?;
            Ok(NamedText::Text(text))
        }
        Assignment::TooFew { needs } => Ok(NamedText::TooFew { needs }),
    }
}

/// The text of `expand` with the name of its register in place of each temporary, or `TooLong` exactly
/// where `expand` answers so. The lines are cut at line ends, and what stands behind the last one is a
/// line where it isn't empty. A temporary is live from the first line that names it to the last, both
/// included; `TooFew` comes exactly where more are live on some line than there are names. Names that
/// the text has besides are not protected.
pub fn named_text(
    alloc: Global,
    expander: &mut Expander,
    grammar: &Grammar,
    tree: &Tree,
    cover: &Cover,
    names: &[&str],
) -> Result<NamedText, NoMemory>
    requires tree { IsTree tree.now }
    requires covered { IsCovered grammar.now tree.now cover.now.rules }
    requires some { 1 ≤ length names.now }
    requires few { length names.now < 2 ^ 32 }
    ensures { IfOk result (λ answer. IsNamedText grammar.now tree.now cover.now.rules (map (λ name. name.now) names.now) answer) }
{
    match expander.pieces(alloc, grammar, tree, cover)? {
        Some(pieces) => named_pieces(alloc, pieces.as_slice(), names),
        None => Ok(NamedText::TooLong),
    }
}

/// As `named_text`, of the best cover of a tree.
pub fn best_named(
    alloc: Global,
    expander: &mut Expander,
    grammar: &Grammar,
    tree: &Tree,
    cover: &Cover,
    names: &[&str],
) -> Result<NamedText, NoMemory>
    requires tree { IsValidTree grammar.now tree.now }
    requires best { (t : PlainTree) → IsPostorderOf tree.now t → IsBestCover grammar.now t cover.now }
    requires some { 1 ≤ length names.now }
    requires few { length names.now < 2 ^ 32 }
    ensures { IfOk result (λ answer. (t : PlainTree) → IsPostorderOf tree.now t → IsBestNamed grammar.now t (map (λ name. name.now) names.now) cover.now.cost answer) }
{
    named_text(alloc, expander, grammar, tree, cover, names)
}
