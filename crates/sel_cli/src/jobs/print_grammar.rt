// The accepted grammar in print.
ghost use Rattle.std.specs.Prelude.{None};
ghost use Rattle.sel_words.specs.Words.{PrintGrammar};
ghost use Rattle.sel_answers.specs.Output.{IsOutput, TableMarks};
ghost use Rattle.sel_cli.specs.Parts.{Writes};

use crate::jobs::writing::write_output;
use crate::status::Status;
use sel_answers::grammar_output;
use sel_base::{NoMemory, Sink};
use sel_grammar::Grammar;
use std::alloc::Global;

/// Prints the accepted grammar.
pub fn print_grammar<K: Sink>(alloc: Global, grammar: &Grammar, out: &mut K) -> Status
    ensures done { (marks : TableMarks) → Writes (IsOutput PrintGrammar grammar.now None marks) (K.told out.old) (K.told out.new) result }
{
    match grammar_output(alloc, grammar) {
        Ok(output) => write_output(out, &output),
        Err(NoMemory) => Status::NoMemory,
    }
}
