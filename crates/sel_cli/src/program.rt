// The program, from its words to its exit status.
ghost use Rattle.std.specs.Prelude.{◌≡◌, map, string_bytes, IfOk, OnErr, codes};
ghost use Rattle.sel_words.specs.Words.{command};
ghost use Rattle.sel_cli.specs.Code.{ExitsFor};
ghost use Rattle.sel_cli.specs.Ends.{NeedsNoText, TellsLine};
ghost use Rattle.sel_cli.specs.declared.status.Status.TheVariants.{NoMemory as no_memory};

use crate::lines::tell;
use crate::run::run;
use crate::status::Status;
use sel_base::{Gate, NoMemory, Shelf, Sink};
use std::alloc::Global;
use std::thread::Threads;

/// Does what the words behind the program's name ask for, where there was memory to collect them, and gives the
/// exit status.
pub fn run_program<S: Shelf, K: Sink, E: Sink, G: Gate, Rt: Threads + Sync>(
    rt: &Rt,
    alloc: Global,
    words: Result<Vec<String>, NoMemory>,
    shelf: &mut S,
    out: &mut K,
    err: &mut E,
    gate: &G,
) -> u8
    // It is the number of the status with which `run` ends.
    ensures run { IfOk words (λ words. ExitsFor (command (map string_bytes words.items))
        (S.told shelf.old) (S.told shelf.new) (K.told out.old) (K.told out.new) (E.told err.old) (E.told err.new) result) }
    ensures untouched { IfOk words (λ words. NeedsNoText (command (map string_bytes words.items)) → shelf.new ≡ shelf.old) }
    // Without memory for the words it is 7, and the line is `no memory`.
    ensures no_memory { OnErr words (result ≡ 7) }
    ensures line { OnErr words (TellsLine (codes "") no_memory (E.told err.old) (E.told err.new)) }
    ensures still { OnErr words ((shelf.new ≡ shelf.old) × (out.new ≡ out.old)) }
{
    match words {
        Ok(words) => run(rt, alloc, &words, shelf, out, err, gate).0.code(),
        Err(NoMemory) => {
            tell(alloc, "", Status::NoMemory, err);
            Status::NoMemory.code()
        }
    }
}
