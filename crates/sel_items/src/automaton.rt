// What labels nodes with numbers that mean item sets.
ghost use Rattle.std.specs.Prelude.{◌≡◌, ◌<◌, ◌≤◌, ℕ, List, IfOk};
ghost use Rattle.sel_items.specs.declared.items.Items.{Items};
ghost use Rattle.sel_items.specs.declared.label.Label.{Label};
ghost use Rattle.sel_items.specs.Entries.{item_at};
ghost use Rattle.sel_items.specs.Labels.{KidsAre};
ghost use Rattle.sel_items.specs.Automata.{Told, MayLabel, IsLabelled, Grows, AddsOwn, IsReady, IsHit, BeginsTree, IsRead};

use crate::items::Item;
use crate::label::Label;
use sel_base::{NoMemory, Steps};
use std::alloc::Global;
use std::sync::ledger::Ledger;

/// A tree-parsing automaton over one normal form, whose states are made when a tree first needs them
/// (Ertl, Casey and Gregg). It labels the nodes of one tree after the other, the kids before their
/// node. A label means an item set. A numbered label is a state's and keeps its meaning; a plain one
/// is for a node that has no state, and means something until the next tree begins.
///
/// What an implementation tells beside the meanings of labels is for those who rest on its tables:
/// the keys that it was asked for, those that it knows, and those that are ready; the item sets that
/// it holds; and two marks. It is used up where a state had no number left, and row full where a
/// known state's key found no room. It counts the plain labels that it gives, to bound what `label`
/// may be asked. What no call changes, as the place where its tables stand, is `fixed`.
pub trait Automaton {
    ghost use Rattle.std.specs.Prelude.{◌≡◌};
    ghost use Rattle.sel_items.specs.declared.items.Items.{Items};
    ghost use Rattle.sel_items.specs.declared.label.Label.{Label};
    ghost use Rattle.sel_items.specs.Automata.{Told};

    /// what it tells of itself
    ghost told: { Self → Told };

    ghost Fixed: { Type 0 };

    /// what is the same after each call
    ghost fixed: { Self → Fixed };

    /// Begins a tree: numbered labels keep their meaning, and no plain label has one.
    fn begin_tree(&mut self)
        ensures fixed { fixed self.new ≡ fixed self.old }
        ensures begins { BeginsTree (told self.old) (told self.new) };

    /// A label for a node with this operator, the class of its attribute (0 with kids) and the labels
    /// of its kids, of which one is the first. It means the item set that follows from the kids'.
    /// Where the node's key is ready it is numbered, and takes no step and no memory. Without memory
    /// no label is given; what was asked, known and held may have grown all the same.
    fn label<L: Ledger>(
        &mut self,
        alloc: Global,
        operator: u8,
        class: u16,
        kids: (Option<Label>, Option<Label>),
        steps: &mut Steps<L>,
    ) -> Result<Label, NoMemory>
        requires may { MayLabel (told self.old) operator class kids.0 kids.1 }
        ensures fixed { fixed self.new ≡ fixed self.old }
        ensures labelled { IfOk result (λ l. (is : List Items) → KidsAre (told self.old).means kids.0 kids.1 is → IsLabelled (told self.new) operator class kids.0 kids.1 is l) }
        ensures grows { Grows (told self.old) (told self.new) result }
        ensures adds { AddsOwn (told self.old) (told self.new) operator class kids.0 kids.1 }
        ensures hit { IsReady (told self.old) operator class kids.0 kids.1 → IsHit (told self.old) (told self.new) result steps.old steps.new }
        ensures steps { steps.old ≤ steps.new };

    /// The entry that the label's item set has for the normal nonterminal.
    fn item(&mut self, label: Label, nonterminal: u16) -> Option<Item>
        requires label { (i : Items) × (told self.old).means label i }
        requires nonterminal { nonterminal < (told self.old).normal.nonterminals }
        ensures fixed { fixed self.new ≡ fixed self.old }
        ensures entry { (i : Items) → (told self.old).means label i → result ≡ item_at i.entries nonterminal }
        ensures read { IsRead (told self.old) (told self.new) };

    /// a label means one item set
    ghost one: { (s : Self) (l : Label) (i j : Items) → (told s).means l i → (told s).means l j → i ≡ j };
}
