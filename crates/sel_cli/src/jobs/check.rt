// A text of certificates is read, and checked against a forest.
ghost use Rattle.std.specs.Prelude.{◌≡◌, ◌≤◌, Some, List, ℕ, length};
ghost use Rattle.sel_forest.specs.Valid.{IsValidForest};
ghost use Rattle.sel_grammar.specs.Lawful.{IsLawful};
ghost use Rattle.sel_items.specs.Laws.{IsAcceptedForm};
ghost use Rattle.sel_words.specs.Names.{task_for};
ghost use Rattle.sel_words.specs.Words.{Check};
ghost use Rattle.sel_cli.specs.Texts.{MayBe, AcceptsForest, AcceptsGrammar, certificate_limit, request_of};
ghost use Rattle.sel_cli.specs.Parts.{ChecksOver, Serves};

use crate::jobs::Ended;
use crate::jobs::over_forest::{FOREST_LIMIT, forest_in};
use crate::jobs::writing::write_output;
use crate::status::Status;
use crate::texts::{Accepted, fetch};
use sel_answers::{has_second_costs, least_output};
use sel_base::{NoMemory, Shelf, Sink};
use sel_check::{CheckRefusal, check};
use sel_forest::Forest;
use sel_grammar::Grammar;
use sel_words::Command;
use std::alloc::Global;

/// The greatest length of a text of certificates, in bytes.
const CERTIFICATE_LIMIT: usize = 268_435_456;

// Writes the least costs of the forest's trees, which the text of certificates proves.
fn check_text<K: Sink>(
    alloc: Global,
    grammar: &Grammar,
    forest: &Forest,
    text: &[u8],
    out: &mut K,
) -> Status
    requires lawful { IsLawful grammar.now }
    requires valid { IsValidForest grammar.now forest.now }
    requires short { length text.now ≤ certificate_limit }
    ensures { ChecksOver grammar.now forest.now text.now (K.told out.old) (K.told out.new) result }
{
    let costs = match check(alloc, grammar, forest, text) {
        Ok(costs) => costs,
        Err(CheckRefusal::Fault(fault)) => return Status::BadCertificate(fault),
        Err(CheckRefusal::NoMemory) => return Status::NoMemory,
    };
    match least_output(alloc, has_second_costs(grammar), costs.as_slice()) {
        Ok(output) => write_output(out, &output),
        Err(NoMemory) => Status::NoMemory,
    }
}

// Reads the text of certificates of this name, and checks them against the accepted forest.
fn serve_certificate<'a, S: Shelf, K: Sink>(
    alloc: Global,
    command: Command<'a>,
    name: &'a str,
    accepted: &Accepted,
    forest: &Forest,
    shelf: &mut S,
    out: &mut K,
) -> Ended<'a>
    requires lawful { IsLawful accepted.now.grammar }
    requires valid { IsValidForest accepted.now.grammar forest.now }
    requires forest { AcceptsForest MayBe (request_of (Some (task_for command)) (S.told shelf.old)) (task_for command) accepted.now.grammar forest.now }
    requires job { (over : List ℕ) × ((task_for command).job ≡ Check over name.now) }
    ensures served { Serves (Some (task_for command.entry)) (S.told shelf.old) (S.told shelf.new) (K.told out.old) (K.told out.new) result.name.now result.status result.report }
{
    match fetch(alloc, shelf, name, CERTIFICATE_LIMIT) {
        Ok(text) => {
            let status = check_text(alloc, &accepted.grammar, forest, &text, out);
            Ended::without(status, name)
        }
        Err(status) => Ended::without(status, name),
    }
}

/// Reads the forest and the text of certificates of these names under the accepted grammar, and checks the certificates.
pub fn serve_check<'a, S: Shelf, K: Sink>(
    alloc: Global,
    command: Command<'a>,
    name: &'a str,
    certificate: &'a str,
    accepted: &Accepted,
    shelf: &mut S,
    out: &mut K,
) -> Ended<'a>
    requires grammar { AcceptsGrammar MayBe (request_of (Some (task_for command)) (S.told shelf.old)) (task_for command) accepted.now.grammar }
    requires form { IsAcceptedForm accepted.now.grammar accepted.now.normal }
    requires job { (task_for command).job ≡ Check name.now certificate.now }
    ensures served { Serves (Some (task_for command.entry)) (S.told shelf.old) (S.told shelf.new) (K.told out.old) (K.told out.new) result.name.now result.status result.report }
{
    let text = match fetch(alloc, shelf, name, FOREST_LIMIT) {
        Ok(text) => text,
        Err(status) => return Ended::without(status, name),
    };
    match forest_in(alloc, accepted, text) {
        Ok(forest) => {
            serve_certificate(alloc, command, certificate, accepted, &forest, shelf, out)
        }
        Err(status) => Ended::without(status, name),
    }
}
