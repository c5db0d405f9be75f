// The one tree of a line of text.
ghost use Rattle.std.specs.Prelude.{◌≡◌, ◌≤◌, IfOk, IfErr};
ghost use Rattle.sel_forest.specs.Valid.{IsValidTree};
ghost use Rattle.sel_grammar.specs.Limits.{IsWithinLimits};
ghost use Rattle.sel_work.specs.declared.answer.Goal.TheVariants as goals;
ghost use Rattle.sel_c.specs.Usable.{IsUsable, settled};
ghost use Rattle.sel_c.specs.Answers.{SpellsOneTree, IsUnread, told_unread, TellsOfLine, TellsText, TellsRules};

use crate::accepted::Accepted;
use crate::answering::{tell_rules, tell_text};
use crate::told::{BAD_FOREST, NO_MEMORY, NOT_ONE, TOO_BIG, Told};
use sel_forest::{ForestFault, ForestRefusal, Tree, read_forest};
use sel_grammar::Grammar;
use std::alloc::Global;

/// The greatest length of a forest's text, in bytes.
const FOREST_LIMIT: usize = 67_108_864;

/// Why no tree was read.
#[derive(Clone, Copy)]
pub enum Unread {
    Fault(ForestFault),
    /// The text spells no tree, or several.
    NotOne,
    TooBig,
    NoMemory,
}

// The one tree that the text spells.
fn one_tree(alloc: Global, grammar: &Grammar, text: &[u8]) -> Result<Tree, Unread>
    requires within { IsWithinLimits grammar.now }
    ensures spelled { IfOk result (SpellsOneTree grammar.now text.now) }
    ensures valid { IfOk result (IsValidTree grammar.now) }
    ensures refused { IfErr result (IsUnread grammar.now text.now) }
{
    if FOREST_LIMIT < text.len() {
        return Err(Unread::TooBig);
    }
    let forest = match read_forest(alloc, grammar, text) {
        Ok(forest) => forest,
        Err(ForestRefusal::Fault(fault)) => return Err(Unread::Fault(fault)),
        Err(ForestRefusal::NoMemory) => return Err(Unread::NoMemory),
    };
    if forest.trees.len() != 1 {
        return Err(Unread::NotOne);
    }
    match forest.trees.into_vec().pop() {
        Some(tree) => Ok(tree),
        None => Err(Unread::NotOne),
    }
}

// How that is told.
fn tell_unread(why: Unread) -> Told
    ensures { result ≡ told_unread why }
{
    match why {
        Unread::Fault(fault) => { Told::of_fault(BAD_FOREST, fault.kind, fault.line, fault.column) }
        Unread::NotOne => Told::of_code(NOT_ONE),
        Unread::TooBig => Told::of_code(TOO_BIG),
        Unread::NoMemory => Told::of_code(NO_MEMORY),
    }
}

/// Writes the text of the cheapest cover of the line's one tree.
pub fn line_text(alloc: Global, table: &mut Accepted, line: &[u8], out: &mut [u8]) -> Told
    requires usable { IsUsable table.old }
    ensures told { TellsOfLine table.old.grammar goals.Text line.now out.old out.new result (TellsText out.old out.new result) }
    ensures settled { settled table.new ≡ settled table.old }
    ensures usable { IsUsable table.new }
{
    match one_tree(alloc, &table.grammar, line) {
        Ok(tree) => tell_text(alloc, table, &tree, out),
        Err(why) => tell_unread(why),
    }
}

/// Writes its rules.
pub fn line_rules(alloc: Global, table: &mut Accepted, line: &[u8], out: &mut [u16]) -> Told
    requires usable { IsUsable table.old }
    ensures told { TellsOfLine table.old.grammar goals.Cover line.now out.old out.new result (TellsRules out.old out.new result) }
    ensures settled { settled table.new ≡ settled table.old }
    ensures usable { IsUsable table.new }
{
    match one_tree(alloc, &table.grammar, line) {
        Ok(tree) => tell_rules(alloc, table, &tree, out),
        Err(why) => tell_unread(why),
    }
}
