ghost use Rattle.std.specs.Prelude.{◌≡◌, ◌++◌, ℕ, List, IfOk, IfSome, IsNone, None, Some};
ghost use Rattle.sel_grammar.specs.Expansions.{Text};
ghost use Rattle.sel_forest.specs.Postorder.{IsTree};
ghost use Rattle.sel_expand.specs.Values.{IsReduced, AreTexts, text_at, lines_of};
ghost use Rattle.sel_expand.specs.Printing.{HasTexts};
ghost use Rattle.sel_expand.specs.Expanding.{IsCovered, IsText, IsTooLong, IsEmitted};
ghost use Rattle.sel_expand.specs.Pieces.{pieces_text, AreNumbered};
ghost use Rattle.sel_expand.specs.declared.cutting.Piece.{Piece};

use crate::cutting::{Piece, cut};
use crate::places::{Task, list_all};
use crate::printing::{Frame, print_all};
use crate::reductions::Reductions;
use crate::sheet::Span;
use sel_base::{List, NoMemory};
use sel_forest::{Cover, Goal, Tree};
use sel_grammar::{Emitted, Grammar};
use std::alloc::Global;

/// How many bytes the text of one expansion may have.
pub const LONGEST_TEXT: u64 = 1_048_576;

/// The text of a cover, where it isn't too long.
#[derive(Debug, Drop)]
pub enum Expansion {
    Text(List<u8>),
    TooLong,
}

/// Room to expand covers in, which is kept from tree to tree, and also after want of memory. It holds
/// nothing that another text rests on: temporaries begin at `t1` in each.
#[derive(Debug, Drop)]
pub struct Expander {
    goals: Vec<Goal>,
    tasks: Vec<Task>,
    reductions: Reductions,
    left: Vec<usize>,
    spans: Vec<Option<Span>>,
    frames: Vec<Frame>,
    bytes: Vec<u8>,
    text: Vec<Emitted>,
}

impl Expander {
    /// No room yet. It asks for no memory.
    pub fn new(alloc: Global) -> Expander {
        Expander {
            goals: Vec::new(alloc),
            tasks: Vec::new(alloc),
            reductions: Reductions::new(alloc),
            left: Vec::new(alloc),
            spans: Vec::new(alloc),
            frames: Vec::new(alloc),
            bytes: Vec::new(alloc),
            text: Vec::new(alloc),
        }
    }

    /// Lists the reductions of the cover's derivation, and tells which one is the whole's.
    fn reduce(&mut self, grammar: &Grammar, tree: &Tree, cover: &Cover) -> Result<usize, NoMemory>
        requires tree { IsTree tree.now }
        requires covered { IsCovered grammar.now tree.now cover.now.rules }
        ensures { IfOk result (IsReduced grammar.now tree.now cover.now.rules self.new.reductions) }
    {
        let root = Goal {
            at: tree.nodes.len() - 1,
            nonterminal: grammar.start,
        };
        list_all(
            grammar,
            tree.nodes.as_slice(),
            root,
            cover.rules.as_slice(),
            &mut self.goals,
            &mut self.tasks,
            &mut self.reductions,
            &mut self.left,
        )?;
        match self.left.first().copied() {
            Some(last) => Ok(last),
            None => unreachable!(),
        }
    }

    /// Makes the text of the cover, and tells which reduction is the whole's, or None where the text has
    /// too many bytes.
    fn emit(
        &mut self,
        grammar: &Grammar,
        tree: &Tree,
        cover: &Cover,
    ) -> Result<Option<usize>, NoMemory>
        requires tree { IsTree tree.now }
        requires covered { IsCovered grammar.now tree.now cover.now.rules }
        ensures reduced { IfOk result (λ last. IfSome last (IsReduced grammar.now tree.now cover.now.rules self.new.reductions)) }
        ensures text { IfOk result (λ last. IfSome last (λ _. IsText grammar.now tree.now cover.now.rules self.new.bytes.items)) }
        ensures too_long { IfOk result (λ last. IsNone last → IsTooLong grammar.now tree.now cover.now.rules) }
    {
        let last = self.reduce(grammar, tree, cover)?;
        self.bytes.clear();
        let too_long = print_all(
            grammar,
            tree.nodes.as_slice(),
            &self.reductions,
            last,
            &mut self.spans,
            &mut self.frames,
            &mut self.bytes,
        )?;
        if too_long {
            return Ok(None);
        }
        Ok(Some(last))
    }

    /// Makes the text of the cover once more, with its temporaries apart. It isn't too long.
    fn emit_apart(&mut self, grammar: &Grammar, tree: &Tree, last: usize) -> Result<(), NoMemory>
        requires texts { HasTexts grammar.now tree.now.nodes self.old.reductions }
        ensures { IfOk result (λ _. (texts : List Text) → AreTexts grammar.now tree.now.nodes self.old.reductions texts → self.new.text.items ≡ lines_of grammar.now tree.now.nodes texts self.old.reductions ++ text_at texts last) }
    {
        self.text.clear();
        let too_long = print_all(
            grammar,
            tree.nodes.as_slice(),
            &self.reductions,
            last,
            &mut self.spans,
            &mut self.frames,
            &mut self.text,
        )?;
        if too_long {
            unreachable!()
        }
        Ok(())
    }

    /// As the function `expand`, in the room of the expander.
    pub fn expand(
        &mut self,
        alloc: Global,
        grammar: &Grammar,
        tree: &Tree,
        cover: &Cover,
    ) -> Result<Expansion, NoMemory>
        requires tree { IsTree tree.now }
        requires covered { IsCovered grammar.now tree.now cover.now.rules }
        ensures text { IfOk result (λ expansion. (bytes : List ℕ) → expansion ≡ Expansion.Text bytes → IsText grammar.now tree.now cover.now.rules bytes) }
        ensures too_long { IfOk result (λ expansion. expansion ≡ Expansion.TooLong → IsTooLong grammar.now tree.now cover.now.rules) }
    {
        match self.emit(grammar, tree, cover)? {
            Some(_) => {
                let bytes = self.bytes.as_slice().to_vec(alloc)?;
                Ok(Expansion::Text(List::from_vec(bytes)))
            }
            None => Ok(Expansion::TooLong),
        }
    }

    /// As the function `pieces`, in the room of the expander.
    pub fn pieces(
        &mut self,
        alloc: Global,
        grammar: &Grammar,
        tree: &Tree,
        cover: &Cover,
    ) -> Result<Option<List<Piece>>, NoMemory>
        requires tree { IsTree tree.now }
        requires covered { IsCovered grammar.now tree.now cover.now.rules }
        ensures some { IfOk result (λ answer. (ps : List Piece) → answer ≡ Some ps → IsEmitted grammar.now tree.now cover.now.rules (pieces_text ps)) }
        ensures numbered { IfOk result (λ answer. (ps : List Piece) → answer ≡ Some ps → AreNumbered (pieces_text ps)) }
        ensures none { IfOk result (λ answer. answer ≡ None → IsTooLong grammar.now tree.now cover.now.rules) }
    {
        match self.emit(grammar, tree, cover)? {
            Some(last) => {
                self.emit_apart(grammar, tree, last)?;
                let pieces = cut(alloc, self.text.as_slice())?;
                Ok(Some(pieces))
            }
            None => Ok(None),
        }
    }
}

/// The text that the cover's derivation expands to, or `TooLong` exactly where that has more than
/// `LONGEST_TEXT` bytes. The cover's rules are the list of a derivation of the tree from the start
/// symbol, as `check_cover` tells. Its cost isn't read.
///
/// The kids of a derivation are emitted first, from left to right, and then its rule. A template
/// whose last byte is a line end is an instruction: what it prints is added to the lines, and where
/// it has `%c` it takes the next temporary, `t1` first, whose name `%c` prints and which is then the
/// derivation's value; without `%c` the value is empty. Any other template adds no line, and what it
/// prints is the value. `%0` to `%9` print the kids' values, and `%a` the attribute of the node at
/// the rule's root: a decimal number, a symbol, or nothing. The text is all lines, and then the value
/// of the whole. So the lines of a kid stand in it once, however often its value is printed.
///
/// It takes time for the parts of each rule's template and for the bytes of the text: a value is
/// made where it is first printed and copied from there, and one that isn't printed is never made.
/// A text that is too long is given up at the first part behind its `LONGEST_TEXT` bytes.
pub fn expand(
    alloc: Global,
    grammar: &Grammar,
    tree: &Tree,
    cover: &Cover,
) -> Result<Expansion, NoMemory>
    requires tree { IsTree tree.now }
    requires covered { IsCovered grammar.now tree.now cover.now.rules }
    ensures text { IfOk result (λ expansion. (bytes : List ℕ) → expansion ≡ Expansion.Text bytes → IsText grammar.now tree.now cover.now.rules bytes) }
    ensures too_long { IfOk result (λ expansion. expansion ≡ Expansion.TooLong → IsTooLong grammar.now tree.now cover.now.rules) }
{
    let mut expander = Expander::new(alloc);
    expander.expand(alloc, grammar, tree, cover)
}

/// The text of `expand` with its temporaries apart, or None exactly where `expand` answers `TooLong`.
pub fn pieces(
    alloc: Global,
    grammar: &Grammar,
    tree: &Tree,
    cover: &Cover,
) -> Result<Option<List<Piece>>, NoMemory>
    requires tree { IsTree tree.now }
    requires covered { IsCovered grammar.now tree.now cover.now.rules }
    ensures some { IfOk result (λ answer. (ps : List Piece) → answer ≡ Some ps → IsEmitted grammar.now tree.now cover.now.rules (pieces_text ps)) }
    ensures numbered { IfOk result (λ answer. (ps : List Piece) → answer ≡ Some ps → AreNumbered (pieces_text ps)) }
    ensures none { IfOk result (λ answer. answer ≡ None → IsTooLong grammar.now tree.now cover.now.rules) }
{
    let mut expander = Expander::new(alloc);
    expander.pieces(alloc, grammar, tree, cover)
}
