// The item sets of a tree's nodes, by any automaton.
ghost use Rattle.std.specs.Prelude.{◌≡◌, ℕ, Some, slice_get, IfOk};
ghost use Rattle.sel_grammar.specs.declared.grammar.Grammar.{Grammar};
ghost use Rattle.sel_forest.specs.Valid.{IsValidForest, IsValidTree};
ghost use Rattle.sel_items.specs.declared.items.Items.{Items};
ghost use Rattle.sel_items.specs.Automata.{KeepsMeanings};
ghost use Rattle.sel_items.specs.Laws.{IsAcceptedForm};

use sel_base::{NoMemory, Steps};
use sel_forest::{Forest, Tree};
use sel_items::{Automaton, Item, Label};
use sel_label::label_tree;
use sel_normal::Normal;
use std::alloc::Global;
use std::sync::ledger::Ledger;

/// The entries of the item sets of a tree's nodes, one set behind the other.
pub type Entries = Vec<Option<Item>>;

// Adds the entries of the label's item set.
fn add_items<A: Automaton>(
    automaton: &mut A,
    normal: &Normal,
    label: Label,
    entries: &mut Entries,
) -> Result<(), NoMemory>
    requires normal { (A.told automaton.old).normal ≡ normal.now }
    requires means { (i : Items) × (A.told automaton.old).means label i }
    ensures normal { (A.told automaton.new).normal ≡ normal.now }
    ensures fixed { A.fixed automaton.new ≡ A.fixed automaton.old }
    ensures keeps { KeepsMeanings (A.told automaton.old).means (A.told automaton.new).means }
{
    'entries: for nonterminal in 0..normal.nonterminals() {
        entries.push(automaton.item(label, nonterminal))?;
    }
    Ok(())
}

// Adds the entries of the item sets that the labels mean.
fn add_all<A: Automaton>(
    automaton: &mut A,
    normal: &Normal,
    labels: &[Label],
    entries: &mut Entries,
) -> Result<(), NoMemory>
    requires normal { (A.told automaton.old).normal ≡ normal.now }
    requires means { (k : ℕ) (l : Label) → slice_get labels.now k ≡ Some l → (i : Items) × (A.told automaton.old).means l i }
    ensures normal { (A.told automaton.new).normal ≡ normal.now }
    ensures fixed { A.fixed automaton.new ≡ A.fixed automaton.old }
{
    'labels: for label in labels {
        add_items(automaton, normal, *label, entries)?;
    }
    Ok(())
}

/// Labels the tree, and reads the item sets.
pub fn read_tree<A: Automaton, L: Ledger>(
    automaton: &mut A,
    alloc: Global,
    normal: &Normal,
    tree: &Tree,
    steps: &mut Steps<L>,
) -> Result<Entries, NoMemory>
    requires normal { (A.told automaton.old).normal ≡ normal.now }
    requires tree { (g : Grammar) × IsAcceptedForm g normal.now × IsValidTree g tree.now }
    ensures normal { (A.told automaton.new).normal ≡ normal.now }
    ensures fixed { A.fixed automaton.new ≡ A.fixed automaton.old }
{
    let labels = label_tree(automaton, alloc, normal, tree, steps)?;
    let mut entries = Vec::new(alloc);
    add_all(automaton, normal, labels.of.as_slice(), &mut entries)?;
    Ok(entries)
}

/// The entries of all trees.
pub fn read_forest<A: Automaton, L: Ledger>(
    automaton: &mut A,
    alloc: Global,
    normal: &Normal,
    forest: &Forest,
    steps: &mut Steps<L>,
) -> Result<Vec<Entries>, NoMemory>
    requires normal { (A.told automaton.old).normal ≡ normal.now }
    requires forest { (g : Grammar) × IsAcceptedForm g normal.now × IsValidForest g forest.now }
    ensures normal { (A.told automaton.new).normal ≡ normal.now }
    ensures fixed { A.fixed automaton.new ≡ A.fixed automaton.old }
{
    let mut trees = Vec::with_capacity(alloc, forest.trees.len())?;
    'trees: for tree in forest.trees.as_slice() {
        trees.push(read_tree(automaton, alloc, normal, tree, steps)?)?;
    }
    Ok(trees)
}
