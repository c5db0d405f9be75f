// What a pass says of a tree that it labels.
ghost use Rattle.std.specs.Prelude.{◌≡◌};
ghost use Rattle.sel_forest.specs.Valid.{IsValidForest, IsValidTree};
ghost use Rattle.sel_items.specs.Laws.{IsAcceptedForm};
ghost use Rattle.sel_rows.specs.Told.{standing_of, told_of_pass};

use crate::accepted::Accepted;
use crate::stop::Stop;
use sel_base::{NoMemory, Steps};
use sel_forest::{Forest, Tree};
use sel_items::Label;
use sel_label::{Labels, label_tree};
use sel_rows::Pass;
use std::alloc::Global;
use std::fmt::Write;
use std::sync::ledger::Ledger;

fn plain_count(labels: &Labels) -> usize {
    let mut count: usize = 0;
    for label in labels.of.as_slice() {
        let is_plain = matches!(label, Label::Plain(_));
        count = count.saturating_add(is_plain as usize);
    }
    count
}

// The number of the root, or a dash for a plain one.
fn put_root(text: &mut String, labels: &Labels) -> Result<(), NoMemory> {
    match labels.of.as_slice().last() {
        Some(Label::Numbered(number)) => write!(text, "root {number}")?,
        _ => write!(text, "root -")?,
    }
    Ok(())
}

fn put_pass(text: &mut String, pass: &Pass<'_>, labels: &Labels) -> Result<(), NoMemory> {
    put_root(text, labels)?;
    write!(text, " plain {}", plain_count(labels))?;
    write!(text, " evaluated {}", pass.evaluated())?;
    let used_up = if pass.used_up() { "yes" } else { "no" };
    let row_full = if pass.row_full() { "yes" } else { "no" };
    write!(text, " used_up {used_up} row_full {row_full}\n")?;
    Ok(())
}

pub fn turn<L: Ledger>(
    pass: &mut Pass<'_>,
    alloc: Global,
    accepted: &Accepted,
    tree: &Tree,
    text: &mut String,
    steps: &mut Steps<L>,
) -> Result<(), Stop>
    requires normal { (told_of_pass pass.old).normal ≡ accepted.now.normal }
    requires form { IsAcceptedForm accepted.now.grammar accepted.now.normal }
    requires tree { IsValidTree accepted.now.grammar tree.now }
    ensures normal { (told_of_pass pass.new).normal ≡ (told_of_pass pass.old).normal }
    ensures standing { standing_of pass.new ≡ standing_of pass.old }
{
    let labels = label_tree(pass, alloc, &accepted.normal, tree, steps)?;
    put_pass(text, pass, &labels)?;
    Ok(())
}

/// The trees are labelled in their order, each by the pass that its byte names: `P` is the first, and any other
/// byte the second.
pub fn take_turns<L: Ledger>(
    first: &mut Pass<'_>,
    second: &mut Pass<'_>,
    alloc: Global,
    accepted: &Accepted,
    forest: &Forest,
    turns: &[u8],
    text: &mut String,
    steps: &mut Steps<L>,
) -> Result<(), Stop>
    requires first { (told_of_pass first.old).normal ≡ accepted.now.normal }
    requires second { (told_of_pass second.old).normal ≡ accepted.now.normal }
    requires form { IsAcceptedForm accepted.now.grammar accepted.now.normal }
    requires valid { IsValidForest accepted.now.grammar forest.now }
    ensures first { standing_of first.new ≡ standing_of first.old }
    ensures second { standing_of second.new ≡ standing_of second.old }
{
    let mut at: usize = 0;
    'trees: for tree in forest.trees.as_slice() {
        if turns.get(at) == Some(&b'P') {
            turn(first, alloc, accepted, tree, text, steps)?;
        } else {
            turn(second, alloc, accepted, tree, text, steps)?;
        }
        at = at.saturating_add(1);
    }
    Ok(())
}
