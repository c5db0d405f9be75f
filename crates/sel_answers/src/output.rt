// What a job writes.
ghost use Rattle.std.specs.Prelude.{None, IfOk};
ghost use Rattle.sel_words.specs.Words.{PrintGrammar};
ghost use Rattle.sel_answers.specs.Output.{IsOutput, TableMarks};

use sel_base::NoMemory;
use sel_grammar::Grammar;
use sel_grammar_print::print_grammar;
use std::alloc::Global;

/// The bytes that are written, and whether every tree is covered, and its text not too long.
#[derive(Drop)]
pub struct Output {
    pub text: Vec<u8>,
    pub covered: bool,
}

/// The grammar in print.
pub fn grammar_output(alloc: Global, grammar: &Grammar) -> Result<Output, NoMemory>
    ensures { IfOk result (λ output. (marks : TableMarks) → IsOutput PrintGrammar grammar.now None marks output.covered output.text.items) }
{
    let text = print_grammar(alloc, grammar)?;
    Ok(Output {
        text: text.into_vec(),
        covered: true,
    })
}
