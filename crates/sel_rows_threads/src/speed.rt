// How long labels take where each key is known: by a pass, and by one owner's automaton, in turns.
ghost use Rattle.std.specs.Prelude.{◌≡◌, ◌≤◌, ◌<◌};
ghost use Rattle.sel_grammar.specs.declared.grammar.Grammar.{Grammar};
ghost use Rattle.sel_forest.specs.Valid.{IsValidForest};
ghost use Rattle.sel_items.specs.Laws.{IsAcceptedForm};

use sel_auto::PrivateAutomaton;
use sel_base::{NoMemory, Steps};
use sel_forest::Forest;
use sel_items::Automaton;
use sel_label::label_tree;
use sel_normal::Normal;
use sel_rows::{Pass, Rows};
use std::alloc::Global;
use std::sync::ledger::{Blank, Ledger};
use std::time::Instant;

// Labels all trees.
fn label_forest<A: Automaton, L: Ledger>(
    automaton: &mut A,
    alloc: Global,
    normal: &Normal,
    forest: &Forest,
    steps: &mut Steps<L>,
) -> Result<(), NoMemory>
    requires normal { (A.told automaton.old).normal ≡ normal.now }
    requires forest { (g : Grammar) × IsAcceptedForm g normal.now × IsValidForest g forest.now }
    ensures normal { (A.told automaton.new).normal ≡ normal.now }
{
    'trees: for tree in forest.trees.as_slice() {
        let _labels = label_tree(automaton, alloc, normal, tree, steps)?;
    }
    Ok(())
}

// Labels all trees, and gives the nanoseconds that it took.
fn time_labels<A: Automaton, L: Ledger>(
    rt: &HostRuntime,
    automaton: &mut A,
    normal: &Normal,
    forest: &Forest,
    steps: &mut Steps<L>,
) -> Result<u64, NoMemory>
    requires normal { (A.told automaton.old).normal ≡ normal.now }
    requires forest { (g : Grammar) × IsAcceptedForm g normal.now × IsValidForest g forest.now }
    ensures normal { (A.told automaton.new).normal ≡ normal.now }
{
    let began = Instant::now(rt);
    label_forest(automaton, rt.alloc(), normal, forest, steps)?;
    let Ok(began) = began else {
        return Ok(0);
    };
    let Ok(passed) = began.elapsed(rt) else {
        return Ok(0);
    };
    Ok(passed.as_nanos().min(1_000_000_000_000) as u64)
}

/// The nanoseconds of so many turns by one owner's automaton, and by a pass, where each key is known.
pub fn measure<L: Ledger>(
    rt: &HostRuntime,
    blank: Blank,
    normal: &Normal,
    forest: &Forest,
    turns: u32,
) -> Result<(u64, u64), NoMemory>
    requires name { blank.name ≡ L.name }
    requires parts { blank.parts ≡ L.parts }
    requires one { 0 < blank.parts }
    requires forest { (g : Grammar) × IsAcceptedForm g normal.now × IsValidForest g forest.now }
{
    let alloc = rt.alloc();
    let mut steps = Steps::<L>::new(blank);
    let mut own = PrivateAutomaton::new(alloc, normal, 32_768, 1_048_576)?;
    let (rows, parts) = Rows::new(alloc, normal, 4_096, 65_536, 1)?;
    let mut parts = parts.into_vec();
    let Some(part) = parts.pop() else {
        return Err(NoMemory);
    };
    let mut pass = Pass::new(&rows, normal, part);
    let mut by_owner: u64 = 0;
    let mut by_pass: u64 = 0;
    'turns: for turn in 0..turns {
        let owner = time_labels(rt, &mut own, normal, forest, &mut steps)?;
        let shared = time_labels(rt, &mut pass, normal, forest, &mut steps)?;
        if turn > 0 {
            by_owner = by_owner.saturating_add(owner);
            by_pass = by_pass.saturating_add(shared);
        }
    }
    Ok((by_owner, by_pass))
}
