// The forest in print, token by token, with no tree held.
ghost use Rattle.std.specs.Prelude.{◌≤◌, Bool, List, ℕ, length};
ghost use Rattle.sel_forest.specs.declared.forest.Forest.{Forest as AnyForest};
ghost use Rattle.sel_items.specs.Laws.{IsAcceptedForm};
ghost use Rattle.sel_cli.specs.Texts.{forest_limit};
ghost use Rattle.sel_cli.specs.Parts.{WritesOver, IsForestInPrint};

use crate::jobs::writing::write_output;
use crate::status::Status;
use crate::texts::Accepted;
use sel_answers::Output;
use sel_base::Sink;
use sel_forest::{ForestRefusal, reprint_forest};
use std::alloc::Global;

/// Prints the forest that the text spells.
pub fn print_forest<K: Sink>(
    alloc: Global,
    accepted: &Accepted,
    text: Vec<u8>,
    out: &mut K,
) -> Status
    requires form { IsAcceptedForm accepted.now.grammar accepted.now.normal }
    requires short { length text.items ≤ forest_limit }
    ensures done { WritesOver (IsForestInPrint accepted.now.grammar) accepted.now.grammar text.items (K.told out.old) (K.told out.new) result }
{
    match reprint_forest(alloc, &accepted.grammar, &text) {
        Ok(printed) => {
            let output = Output {
                text: printed.into_vec(),
                covered: true,
            };
            write_output(out, &output)
        }
        Err(ForestRefusal::Fault(fault)) => Status::BadForest(fault),
        Err(ForestRefusal::NoMemory) => Status::NoMemory,
    }
}
