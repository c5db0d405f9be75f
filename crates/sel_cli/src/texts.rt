// The texts, and the grammar that is accepted.
ghost use Rattle.std.specs.Prelude.{◌≡◌, ◌≤◌, Option, Some, None, length, IfOk, IfErr};
ghost use Rattle.sel_grammar_text.specs.GrammarText.{SpellsGrammar};
ghost use Rattle.sel_items.specs.Laws.{IsAcceptedForm};
ghost use Rattle.sel_words.specs.Names.{task_for, source_for, IsShort};
ghost use Rattle.sel_words.specs.Words.{Task, grammar_name};
ghost use Rattle.sel_cli.specs.Texts.{MayBe, HasGrammarText, AcceptsGrammar, grammar_limit, request_of};
ghost use Rattle.sel_cli.specs.Ends.{StopsFor};
ghost use Rattle.sel_cli.specs.Parts.{FetchesFor, ReadsText, JudgedFor};

use crate::status::Status;
use sel_base::text::put;
use sel_base::{NoMemory, Shelf, ShelfFault};
use sel_grammar::{Grammar, GrammarRefusal};
use sel_grammar_text::read_grammar;
use sel_normal::Normal;
use sel_words::{Command, GrammarSource};
use std::alloc::Global;

/// The greatest length of a grammar's text, in bytes.
const GRAMMAR_LIMIT: usize = 16_777_216;

/// The text of this name, of at most so many bytes.
pub fn fetch<S: Shelf>(
    alloc: Global,
    shelf: &mut S,
    name: &str,
    limit: usize,
) -> Result<Vec<u8>, Status>
    ensures text { IfOk result (λ text. MayBe ((S.told shelf.old).held name.now) text.items) }
    ensures within { IfOk result (λ text. length text.items ≤ limit) }
    ensures refused { IfErr result (FetchesFor name.now limit (S.told shelf.old) (S.told shelf.new)) }
    ensures reads { (wanted : Option Task) → ReadsText wanted (Some name.now) result (S.told shelf.old) (S.told shelf.new) }
{
    match shelf.read(alloc, name, limit) {
        Ok(text) => Ok(text),
        Err(ShelfFault::Failed) => Err(Status::ReadFault),
        Err(ShelfFault::TooBig) => Err(Status::TooBig),
        Err(ShelfFault::NoMemory) => Err(Status::NoMemory),
    }
}

fn copied(alloc: Global, text: &str) -> Result<Vec<u8>, NoMemory>
    ensures { IfOk result (λ bytes. bytes.items ≡ text.now) }
{
    let mut bytes = Vec::new(alloc);
    put(&mut bytes, text.as_bytes())?;
    Ok(bytes)
}

// The text of the command's grammar: a shipped one, or else one that is read.
fn grammar_text<S: Shelf>(
    alloc: Global,
    shelf: &mut S,
    command: Command<'_>,
) -> Result<Vec<u8>, Status>
    requires short { IsShort (source_for command.source) }
    ensures text { IfOk result (λ text. HasGrammarText MayBe (request_of (Some (task_for command.entry)) (S.told shelf.old)) (task_for command.entry) text.items) }
    ensures within { IfOk result (λ text. length text.items ≤ grammar_limit) }
    ensures refused { IfErr result (StopsFor (request_of (Some (task_for command.entry)) (S.told shelf.old)) (S.told shelf.old) (S.told shelf.new) command.entry.grammar.now) }
    ensures reads { ReadsText (Some (task_for command.entry)) (grammar_name (task_for command.entry)) result (S.told shelf.old) (S.told shelf.new) }
    ensures untouched { grammar_name (task_for command.entry) ≡ None → shelf.new ≡ shelf.old }
{
    match command.source {
        GrammarSource::Held => fetch(alloc, shelf, command.grammar, GRAMMAR_LIMIT),
        GrammarSource::Shipped(text) => match copied(alloc, text) {
            Ok(text) => Ok(text),
            Err(NoMemory) => Err(Status::NoMemory),
        },
    }
}

/// A grammar that is accepted, and its normal form.
#[derive(Drop)]
pub struct Accepted {
    pub grammar: Grammar,
    pub normal: Normal,
}

/// The grammar that the bytes spell, whose normal form nothing is wrong with.
fn judged(alloc: Global, bytes: &[u8]) -> Result<Accepted, GrammarRefusal>
    requires short { length bytes.now ≤ grammar_limit }
    ensures spelled { IfOk result (λ accepted. SpellsGrammar bytes.now accepted.grammar) }
    ensures form { IfOk result (λ accepted. IsAcceptedForm accepted.grammar accepted.normal) }
    ensures refused { IfErr result (JudgedFor bytes.now) }
{
    let grammar = read_grammar(alloc, bytes)?;
    match Normal::of(alloc, &grammar) {
        Ok(normal) => Ok(Accepted { grammar, normal }),
        Err(refusal) => Err(refusal),
    }
}

/// The grammar that the text of the command's grammar spells, where it is accepted. Nothing is read for a shipped one.
pub fn accept_grammar<S: Shelf>(
    alloc: Global,
    shelf: &mut S,
    command: Command<'_>,
) -> Result<Accepted, Status>
    requires short { IsShort (source_for command.source) }
    ensures accepted { IfOk result (λ accepted. AcceptsGrammar MayBe (request_of (Some (task_for command.entry)) (S.told shelf.old)) (task_for command.entry) accepted.grammar) }
    ensures form { IfOk result (λ accepted. IsAcceptedForm accepted.grammar accepted.normal) }
    ensures refused { IfErr result (StopsFor (request_of (Some (task_for command.entry)) (S.told shelf.old)) (S.told shelf.old) (S.told shelf.new) command.entry.grammar.now) }
    ensures reads { ReadsText (Some (task_for command.entry)) (grammar_name (task_for command.entry)) result (S.told shelf.old) (S.told shelf.new) }
    ensures untouched { grammar_name (task_for command.entry) ≡ None → shelf.new ≡ shelf.old }
{
    let text = match grammar_text(alloc, shelf, command) {
        Ok(text) => text,
        Err(status) => return Err(status),
    };
    match judged(alloc, &text) {
        Ok(accepted) => Ok(accepted),
        Err(GrammarRefusal::Fault(fault)) => Err(Status::BadGrammar(fault)),
        Err(GrammarRefusal::NoMemory) => Err(Status::NoMemory),
    }
}
