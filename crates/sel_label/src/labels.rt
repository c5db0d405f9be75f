// The labels of a tree's nodes.
ghost use Rattle.std.specs.Prelude.{◌≡◌, ◌+◌, ◌<◌, ◌≤◌, ◌^◌, ◌∷◌, ◌++◌, [], length, count_by, IfOk};
ghost use Rattle.sel_grammar.specs.declared.grammar.Grammar.{Grammar};
ghost use Rattle.sel_forest.specs.Valid.{IsValidTree};
ghost use Rattle.sel_items.specs.Automata.{Grows, Keeps, IsHit};
ghost use Rattle.sel_items.specs.Labels.{is_plain};
ghost use Rattle.sel_items.specs.Laws.{IsAcceptedForm};
ghost use Rattle.sel_label.specs.Labelling.{AreLabelled, AddsNumberedKeys, AddsOfTree, AreAllNumbered, AreAllReady};
ghost use Rattle.sel_label.specs.Fronts.{AreLabelledTo, AddsBefore};

use crate::kids::{class_of_node, first_label, second_label};
use sel_base::{List, NoMemory, Steps};
use sel_forest::Tree;
use sel_items::{Automaton, Label};
use sel_normal::Normal;
use std::alloc::Global;
use std::sync::ledger::Ledger;

/// The labels of a tree's nodes, in postorder.
#[derive(Debug, Drop)]
pub struct Labels {
    pub of: List<Label>,
}

fn is_plain(label: Label) -> bool
    ensures { result ≡ is_plain label }
{
    match label {
        Label::Numbered(_) => false,
        Label::Plain(_) => true,
    }
}

impl Labels {
    /// How many of the labels are plain.
    pub fn plain(&self) -> usize
        ensures { result ≡ count_by is_plain self.now.of }
    {
        let labels = self.of.as_slice();
        labels.iter().filter(|label| is_plain(**label)).count()
    }
}

/// A label for the tree's first node that has none yet, where `labels` are those of the nodes before it.
fn label_node<A: Automaton, L: Ledger>(
    automaton: &mut A,
    alloc: Global,
    normal: &Normal,
    tree: &Tree,
    labels: &[Label],
    steps: &mut Steps<L>,
) -> Result<Label, NoMemory>
    requires normal { (A.told automaton.old).normal ≡ normal.now }
    requires labels { (g : Grammar) × IsAcceptedForm g normal.now × IsValidTree g tree.now × AreLabelledTo g tree.now.nodes (A.told automaton.old) labels.now }
    requires more { length labels.now < length tree.now.nodes }
    requires room { (A.told automaton.old).plain_labels < 2 ^ 32 }
    ensures fixed { A.fixed automaton.new ≡ A.fixed automaton.old }
    ensures labelled { IfOk result (λ l. (g : Grammar) → IsAcceptedForm g normal.now → IsValidTree g tree.now
        → AreLabelledTo g tree.now.nodes (A.told automaton.old) labels.now → AreLabelledTo g tree.now.nodes (A.told automaton.new) (labels.now ++ l ∷ [])) }
    ensures adds { (g : Grammar) → IsAcceptedForm g normal.now → IsValidTree g tree.now → AreLabelledTo g tree.now.nodes (A.told automaton.old) labels.now
        → AddsBefore g tree.now.nodes labels.now (length labels.now + 1) (A.told automaton.old) (A.told automaton.new) }
    ensures grows { Grows (A.told automaton.old) (A.told automaton.new) result }
    ensures hit { (g : Grammar) → IsAcceptedForm g normal.now → IsValidTree g tree.now → AreLabelledTo g tree.now.nodes (A.told automaton.old) labels.now → AreAllNumbered labels.now
        → AreAllReady g tree.now.nodes (A.told automaton.old) → IsHit (A.told automaton.old) (A.told automaton.new) result steps.old steps.new }
    ensures steps { steps.old ≤ steps.new }
{
    let nodes = tree.nodes.as_slice();
    let at = labels.len();
    let node = &nodes[at];
    let class = class_of_node(normal.classes(), node);
    let kids = (first_label(labels, node), second_label(labels, node));
    automaton.label(alloc, node.operator, class, kids, steps)
}

/// Begins a tree and labels each of its nodes, the kids first. `normal` is the automaton's normal form.
/// Each label means the item set of the node's subtree until the automaton begins another tree.
///
/// It takes memory for the labels once, before it labels the first node; what the automaton takes
/// comes beside it. After `NoMemory` the automaton stands as the labels that were given leave it.
pub fn label_tree<A: Automaton, L: Ledger>(
    automaton: &mut A,
    alloc: Global,
    normal: &Normal,
    tree: &Tree,
    steps: &mut Steps<L>,
) -> Result<Labels, NoMemory>
    requires normal { (A.told automaton.old).normal ≡ normal.now }
    requires grammar { (g : Grammar) × IsAcceptedForm g normal.now × IsValidTree g tree.now }
    ensures fixed { A.fixed automaton.new ≡ A.fixed automaton.old }
    ensures labelled { IfOk result (λ labels. (g : Grammar) → IsAcceptedForm g normal.now → IsValidTree g tree.now → AreLabelled g tree.now.nodes (A.told automaton.new) labels.of) }
    ensures numbered { IfOk result (λ labels. (g : Grammar) → IsAcceptedForm g normal.now → IsValidTree g tree.now
        → AddsNumberedKeys g tree.now.nodes labels.of (A.told automaton.old).asked (A.told automaton.new).asked) }
    ensures adds { (g : Grammar) → IsAcceptedForm g normal.now → IsValidTree g tree.now → AddsOfTree g tree.now.nodes (A.told automaton.old) (A.told automaton.new) }
    ensures keeps { Keeps (A.told automaton.old) (A.told automaton.new) }
    ensures hit { (g : Grammar) → IsAcceptedForm g normal.now → IsValidTree g tree.now → AreAllReady g tree.now.nodes (A.told automaton.old)
        → (steps.new ≡ steps.old) × IfOk result (λ labels. AreAllNumbered labels.of) }
    ensures steps { steps.old ≤ steps.new }
{
    automaton.begin_tree();
    let count = tree.nodes.len();
    let mut labels: Vec<Label> = Vec::with_capacity(alloc, count)?;
    for _at in 0..count {
        let label = label_node(automaton, alloc, normal, tree, labels.as_slice(), steps)?;
        labels.push(label)?;
    }
    Ok(Labels {
        of: List::from_vec(labels),
    })
}
