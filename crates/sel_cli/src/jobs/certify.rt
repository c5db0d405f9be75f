// The certificates of a forest's trees, written batch by batch.
ghost use Rattle.std.specs.Prelude.{◌≡◌, ◌<◌, ◌≤◌, ◌+◌, ◌^◌, length, IfOk};
ghost use Rattle.sel_forest.specs.Limits.{most_trees};
ghost use Rattle.sel_forest.specs.Valid.{IsValidForest};
ghost use Rattle.sel_grammar.specs.Lawful.{IsLawful};
ghost use Rattle.sel_normal.specs.NormalFaults.{IsAccepted};
ghost use Rattle.sel_count.specs.Things.{AreValid};
ghost use Rattle.sel_answers.specs.Output.{AreCertifiedBehind};
ghost use Rattle.sel_cli.specs.Parts.{EndsBatch, IsCertifiedForest, Writes};

use crate::jobs::writing::write_piece;
use crate::status::{Status, finished};
use sel_answers::Output;
use sel_base::{NoMemory, Sink};
use sel_check::{CertifiedTrees, certify_trees};
use sel_closing::laws::forests_are_valid;
use sel_forest::{Forest, Tree};
use sel_grammar::Grammar;
use sel_items::laws::items_exist;
use std::alloc::Global;

/// How many trees are certified before their certificates are written. A certificate may be a thousand times as
/// long as its tree, so these are few.
const BATCH: usize = 16;

// The certificates of a batch of trees, which are numbered behind so many others.
fn batch_output(
    alloc: Global,
    grammar: &Grammar,
    batch: &[Tree],
    before: u32,
) -> Result<Output, NoMemory>
    requires accepted { IsAccepted grammar.now }
    requires lawful { IsLawful grammar.now }
    requires trees { AreValid grammar.now batch.now }
    requires few { before + 1 + length batch.now < 2 ^ 32 }
    ensures { IfOk result (λ output. AreCertifiedBehind grammar.now before batch.now output.covered output.text.items) }
{
    let CertifiedTrees { text, covered } = certify_trees(alloc, grammar, batch, before + 1)?;
    Ok(Output { text, covered })
}

// Writes the certificates of a batch. Ok tells whether each tree has a cover.
fn write_batch<K: Sink>(
    alloc: Global,
    grammar: &Grammar,
    batch: &[Tree],
    before: u32,
    out: &mut K,
) -> Result<bool, Status>
    requires accepted { IsAccepted grammar.now }
    requires lawful { IsLawful grammar.now }
    requires trees { AreValid grammar.now batch.now }
    requires few { before + 1 + length batch.now < 2 ^ 32 }
    ensures done { EndsBatch (AreCertifiedBehind grammar.now before batch.now) (K.told out.old) (K.told out.new) result }
{
    match batch_output(alloc, grammar, batch, before) {
        Ok(output) => write_piece(out, &output),
        Err(NoMemory) => Err(Status::NoMemory),
    }
}

// Writes the certificates of the trees, those of each batch before the next one is begun.
fn write_batches<K: Sink>(
    alloc: Global,
    grammar: &Grammar,
    trees: &[Tree],
    out: &mut K,
) -> Result<bool, Status>
    requires accepted { IsAccepted grammar.now }
    requires lawful { IsLawful grammar.now }
    requires trees { AreValid grammar.now trees.now }
    requires few { length trees.now ≤ most_trees }
    ensures done { EndsBatch (AreCertifiedBehind grammar.now 0 trees.now) (K.told out.old) (K.told out.new) result }
{
    items_exist();
    let mut covered = true;
    let mut before = 0;
    let mut rest = trees;
    'batches: while !rest.is_empty() {
        let (batch, more) = rest.split_at(rest.len().min(BATCH));
        match write_batch(alloc, grammar, batch, before, out) {
            Ok(all) => covered &= all,
            Err(status) => return Err(status),
        }
        before += batch.len() as u32;
        rest = more;
    }
    Ok(covered)
}

/// Writes the certificate of each of the forest's trees.
pub fn certify_forest<K: Sink>(
    alloc: Global,
    grammar: &Grammar,
    forest: &Forest,
    out: &mut K,
) -> Status
    requires accepted { IsAccepted grammar.now }
    requires lawful { IsLawful grammar.now }
    requires valid { IsValidForest grammar.now forest.now }
    ensures done { Writes (IsCertifiedForest grammar.now forest.now) (K.told out.old) (K.told out.new) result }
{
    forests_are_valid();
    match write_batches(alloc, grammar, forest.trees.as_slice(), out) {
        Ok(covered) => finished(covered),
        Err(status) => status,
    }
}
