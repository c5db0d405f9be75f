// Trees made by chance have the same cover by labels as by plain dynamic programming: the same cost, the
// same list, or both none.
ghost use Rattle.std.specs.Prelude.{◌≡◌, ◌<◌, ◌≤◌};
ghost use Rattle.sel_forest.specs.Valid.{IsValidForest, IsValidTree};
ghost use Rattle.sel_items.specs.Laws.{IsAcceptedForm};

use crate::accepted::{Accepted, accept, forest_in, text_of};
use crate::covers::{by_labels, is_by_costs};
use crate::making::{Material, made_trees};
use crate::stop::Stop;
use sel_auto::PrivateAutomaton;
use sel_base::Steps;
use sel_forest::{Forest, Tree};
use sel_sheet::Row;
use std::alloc::Global;
use std::marker::Brand;
use std::sync::ledger::{Blank, Ledger};

// How many trees of each grammar are made.
const TREES: u32 = 400;

// How many of them shall have a cover at least, and how many none.
const ENOUGH: usize = 80;

// How many trees have a cover and how many have none, and what the automaton tells behind them.
#[derive(Clone, Copy, PartialEq)]
struct Outcome {
    covered: usize,
    uncovered: usize,
    used_up: bool,
    row_full: bool,
}

// Compares the covers of the tree, and says whether it has one.
fn has_cover<L: Ledger>(
    alloc: Global,
    accepted: &Accepted,
    tree: &Tree,
    automaton: &mut PrivateAutomaton,
    steps: &mut Steps<L>,
) -> Result<bool, Stop>
    requires normal { automaton.old.normal ≡ accepted.now.normal }
    requires form { IsAcceptedForm accepted.now.grammar accepted.now.normal }
    requires tree { IsValidTree accepted.now.grammar tree.now }
    ensures normal { automaton.new.normal ≡ automaton.old.normal }
{
    let cover = by_labels(automaton, alloc, accepted, tree, steps)?;
    if is_by_costs(alloc, accepted, tree, &cover)? {
        Ok(cover.is_some())
    } else {
        Err(Stop::Unfit("a tree has another cover by labels"))
    }
}

// Compares the covers of each tree, all by one automaton.
fn compare_each<L: Ledger>(
    alloc: Global,
    accepted: &Accepted,
    forest: &Forest,
    automaton: &mut PrivateAutomaton,
    steps: &mut Steps<L>,
) -> Result<Outcome, Stop>
    requires normal { automaton.old.normal ≡ accepted.now.normal }
    requires form { IsAcceptedForm accepted.now.grammar accepted.now.normal }
    requires valid { IsValidForest accepted.now.grammar forest.now }
{
    let mut covered: usize = 0;
    'trees: for tree in forest.trees.as_slice() {
        let is_covered = has_cover(alloc, accepted, tree, automaton, steps)?;
        covered = covered.saturating_add(is_covered as usize);
    }
    Ok(Outcome {
        covered,
        uncovered: forest.trees.len().saturating_sub(covered),
        used_up: automaton.used_up(),
        row_full: automaton.row_full(),
    })
}

// Compares the covers of each tree by an automaton with room for so many states and keys, whose steps are
// counted over the blank.
fn compare_counted<L: Ledger>(
    blank: Blank,
    alloc: Global,
    accepted: &Accepted,
    forest: &Forest,
    states: u32,
    rows: u32,
) -> Result<Outcome, Stop>
    requires name { blank.name ≡ L.name }
    requires parts { blank.parts ≡ L.parts }
    requires one { 0 < blank.parts }
    requires states { states ≤ 32768 }
    requires rows { rows ≤ 1048576 }
    requires form { IsAcceptedForm accepted.now.grammar accepted.now.normal }
    requires valid { IsValidForest accepted.now.grammar forest.now }
{
    let mut steps = Steps::<L>::new(blank);
    let mut automaton = PrivateAutomaton::new(alloc, &accepted.normal, states, rows)?;
    compare_each(alloc, accepted, forest, &mut automaton, &mut steps)
}

fn compare_in(
    alloc: Global,
    accepted: &Accepted,
    forest: &Forest,
    states: u32,
    rows: u32,
) -> Result<Outcome, Stop>
    requires states { states ≤ 32768 }
    requires rows { rows ≤ 1048576 }
    requires form { IsAcceptedForm accepted.now.grammar accepted.now.normal }
    requires valid { IsValidForest accepted.now.grammar forest.now }
{
    compare_counted::<Brand>(Blank::new(1), alloc, accepted, forest, states, rows)
}

// Enough trees have a cover, enough have none, and there was ample room.
fn is_ample(ample: Outcome) -> Result<(), Stop> {
    if ample.covered < ENOUGH || ample.uncovered < ENOUGH {
        Err(Stop::Unfit("few trees have a cover, or few have none"))
    } else if ample.used_up || ample.row_full {
        Err(Stop::Unfit("there was a mark"))
    } else {
        Ok(())
    }
}

fn is_wanted(outcome: Outcome, wanted: Outcome, why: &'static str) -> Result<(), Stop> {
    if outcome == wanted {
        Ok(())
    } else {
        Err(Stop::Unfit(why))
    }
}

// With few keys.
fn compare_few_keys(
    alloc: Global,
    accepted: &Accepted,
    forest: &Forest,
    ample: Outcome,
) -> Result<(), Stop>
    requires form { IsAcceptedForm accepted.now.grammar accepted.now.normal }
    requires valid { IsValidForest accepted.now.grammar forest.now }
{
    let few_keys = compare_in(alloc, accepted, forest, 32_768, 2)?;
    let wanted = Outcome {
        row_full: true,
        ..ample
    };
    is_wanted(few_keys, wanted, "few keys change an answer")
}

// With few states.
fn compare_few_states(
    alloc: Global,
    accepted: &Accepted,
    forest: &Forest,
    ample: Outcome,
) -> Result<(), Stop>
    requires form { IsAcceptedForm accepted.now.grammar accepted.now.normal }
    requires valid { IsValidForest accepted.now.grammar forest.now }
{
    let few_states = compare_in(alloc, accepted, forest, 2, 2)?;
    if few_states.covered == ample.covered && few_states.used_up {
        Ok(())
    } else {
        Err(Stop::Unfit("few states change an answer"))
    }
}

// With no room.
fn compare_no_room(
    alloc: Global,
    accepted: &Accepted,
    forest: &Forest,
    ample: Outcome,
) -> Result<(), Stop>
    requires form { IsAcceptedForm accepted.now.grammar accepted.now.normal }
    requires valid { IsValidForest accepted.now.grammar forest.now }
{
    let no_room = compare_in(alloc, accepted, forest, 0, 0)?;
    let wanted = Outcome {
        used_up: true,
        ..ample
    };
    is_wanted(no_room, wanted, "no room changes an answer")
}

// Compares the covers with ample room, with few keys, with few states and with no room, and says what isn't so.
fn compare_all(alloc: Global, accepted: &Accepted, forest: &Forest) -> Result<(), Stop>
    requires form { IsAcceptedForm accepted.now.grammar accepted.now.normal }
    requires valid { IsValidForest accepted.now.grammar forest.now }
{
    let ample = compare_in(alloc, accepted, forest, 32_768, 1_048_576)?;
    is_ample(ample)?;
    compare_few_keys(alloc, accepted, forest, ample)?;
    compare_few_states(alloc, accepted, forest, ample)?;
    compare_no_room(alloc, accepted, forest, ample)
}

// The line that is the row's file.
fn line_of<'r>(row: &'r Row<'_>, name: &str) -> Result<&'r str, Stop> {
    match std::str::from_utf8(text_of(row, name)?) {
        Ok(line) => Ok(line),
        Err(_) => Err(Stop::Unfit("no text")),
    }
}

fn trees_of(alloc: Global, row: &Row<'_>, seed: u64) -> Result<Vec<u8>, Stop> {
    let leaves = line_of(row, "leaves")?;
    let unary = line_of(row, "unary")?;
    let binary = line_of(row, "binary")?;
    let attributes = line_of(row, "attributes")?;
    let material = Material {
        leaves,
        unary,
        binary,
        attributes,
    };
    Ok(made_trees(alloc, seed, &material, TREES)?)
}

// Makes trees of the row's operators, and compares their covers.
fn compare_made(
    alloc: Global,
    row: &Row<'_>,
    accepted: &Accepted,
    seed: u64,
) -> Result<String, Stop>
    requires form { IsAcceptedForm accepted.now.grammar accepted.now.normal }
{
    let text = trees_of(alloc, row, seed)?;
    let forest = forest_in(alloc, &accepted.grammar, text.as_slice())?;
    compare_all(alloc, accepted, &forest)?;
    Ok(format!(in alloc; "{} trees, covered in the same way\n", forest.trees.len())?)
}

/// Makes trees of the row's operators by its word, a seed, and compares their covers.
pub fn compare(alloc: Global, row: &Row<'_>) -> Result<String, Stop> {
    let accepted = accept(alloc, row)?;
    match row.words.parse::<u64>() {
        Ok(seed) => compare_made(alloc, row, &accepted, seed),
        Err(_) => Err(Stop::Unfit("no seed")),
    }
}
