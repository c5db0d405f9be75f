// A grammar is taken up.
ghost use Rattle.std.specs.Prelude.{◌≡◌, ◌≤◌, IfOk, IfErr, bytes_eq, option_map};
ghost use Rattle.sel_c.specs.Usable.{IsUsable};
ghost use Rattle.sel_c.specs.Openings.{IsNewSelector, IsUnopened, shipped_text, text_taken, unopened_by, told_unopened};

use crate::accepted::Accepted;
use crate::told::{BAD_GRAMMAR, NO_MEMORY, TOO_BIG, Told};
use sel_expand::Expander;
use sel_grammar::{GrammarFault, GrammarRefusal};
use sel_grammar_text::read_grammar;
use sel_normal::Normal;
use sel_targets::target;
use std::alloc::Global;

/// The greatest length of a grammar's text, in bytes.
const GRAMMAR_LIMIT: usize = 16_777_216;

/// How many states and transitions are kept, where nothing else was asked for.
const STATES: u32 = 4_096;

const ROWS: u32 = 65_536;

/// Why no grammar was taken up.
#[derive(Clone, Copy)]
pub enum Unopened {
    Fault(GrammarFault),
    TooBig,
    NoMemory,
}

fn why_not(refusal: GrammarRefusal) -> Unopened
    ensures { result ≡ unopened_by refusal }
{
    match refusal {
        GrammarRefusal::Fault(fault) => Unopened::Fault(fault),
        GrammarRefusal::NoMemory => Unopened::NoMemory,
    }
}

fn judged(alloc: Global, text: &[u8]) -> Result<Accepted, Unopened>
    ensures new { IfOk result (IsNewSelector text.now) }
    ensures usable { IfOk result IsUsable }
    ensures refused { IfErr result (IsUnopened text.now) }
{
    if GRAMMAR_LIMIT < text.len() {
        return Err(Unopened::TooBig);
    }
    let grammar = match read_grammar(alloc, text) {
        Ok(grammar) => grammar,
        Err(refusal) => return Err(why_not(refusal)),
    };
    match Normal::of(alloc, &grammar) {
        Ok(normal) => Ok(Accepted {
            grammar,
            normal,
            parked: None,
            states: STATES,
            rows: ROWS,
            expander: Expander::new(alloc),
        }),
        Err(refusal) => Err(why_not(refusal)),
    }
}

fn is(text: &[u8], word: &str) -> bool
    ensures { result ≡ bytes_eq text.now word.now }
{
    text == word.as_bytes()
}

/// The shipped grammar's text that this names.
fn shipped(text: &[u8]) -> Option<&'static str>
    ensures { option_map (λ shipped. shipped.now) result ≡ shipped_text text.now }
{
    if is(text, "@rv64i") {
        return target("rv64i");
    }
    if is(text, "@aarch64") {
        return target("aarch64");
    }
    if is(text, "@x86-64") {
        return target("x86-64");
    }
    None
}

/// The text that is taken up.
fn taken(text: &[u8]) -> &[u8]
    ensures { result.now ≡ text_taken text.now }
{
    match shipped(text) {
        Some(shipped) => shipped.as_bytes(),
        None => text,
    }
}

/// A selector for the grammar that the text spells, or that is shipped under the name.
pub fn accept(alloc: Global, text: &[u8]) -> Result<Box<Accepted, Global>, Unopened>
    ensures new { IfOk result (λ table. IsNewSelector (text_taken text.now) table.value) }
    ensures usable { IfOk result (λ table. IsUsable table.value) }
    ensures refused { IfErr result (IsUnopened (text_taken text.now)) }
{
    let table = judged(alloc, taken(text))?;
    match Box::new(alloc, table) {
        Ok(table) => Ok(table),
        Err(_) => Err(Unopened::NoMemory),
    }
}

/// How that is told.
pub fn tell_unopened(why: Unopened) -> Told
    ensures { result ≡ told_unopened why }
{
    match why {
        Unopened::Fault(fault) => {
            Told::of_fault(BAD_GRAMMAR, fault.kind, fault.line, fault.column)
        }
        Unopened::TooBig => Told::of_code(TOO_BIG),
        Unopened::NoMemory => Told::of_code(NO_MEMORY),
    }
}
