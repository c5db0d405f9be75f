// The private automaton as an `Automaton`.
ghost use Rattle.std.specs.Prelude.{◌≡◌, ◌<◌, ◌^◌, ℕ, List, [], Ok, length, IfOk, MatchResult};
ghost use Rattle.sel_items.specs.declared.items.Items.{Items};
ghost use Rattle.sel_items.specs.declared.label.Label.{Label};
ghost use Rattle.sel_items.specs.Entries.{item_at};
ghost use Rattle.sel_items.specs.Labels.{KidsAre, AreKidSets, IsClassOver};
ghost use Rattle.sel_items.specs.Automata.{IsLabelled, Grows, AddsOwn, IsReady, IsHit, BeginsTree, IsRead};
ghost use Rattle.sel_auto.specs.Tables.{Means, told_of, limits_of};
ghost use Rattle.sel_auto.specs.TableChanges.{IsKeptFor, IsChanged, IsRefused, IsCounted};

use crate::private::PrivateAutomaton;
use sel_base::{NoMemory, Steps};
use sel_items::laws::follows_is_one;
use sel_items::{Automaton, Item, Label};
use std::alloc::Global;
use std::sync::ledger::Ledger;

impl<'n> Automaton for PrivateAutomaton<'n> {
    ghost use Rattle.std.specs.Prelude.{ℕ};
    ghost use Rattle.sel_auto.specs.Tables.{told_of, limits_of};
    ghost use Rattle.sel_auto.specs.Meanings.{one_meaning};

    ghost told = { told_of };

    ghost Fixed = { ℕ × ℕ };

    ghost fixed = { limits_of };

    /// Begins a tree: the item sets of plain labels are forgotten, and all else stays.
    fn begin_tree(&mut self)
        ensures tables { self.new ≡ record self.old { plain = [] } }
        ensures fixed { limits_of self.new ≡ limits_of self.old }
        ensures begins { BeginsTree (told_of self.old) (told_of self.new) }
    {
        self.forget_plain();
    }

    /// A label for a node over its kids' labels. Where a number is kept for the node's key it is the label,
    /// with no step and no memory. Else an item set is evaluated. The label is plain exactly where a kid's is,
    /// or where each number is given and the item set is that of none.
    fn label<L: Ledger>(
        &mut self,
        alloc: Global,
        operator: u8,
        class: u16,
        kids: (Option<Label>, Option<Label>),
        steps: &mut Steps<L>,
    ) -> Result<Label, NoMemory>
        requires kids { (is : List Items) × KidsAre (Means self.old) kids.0 kids.1 is × AreKidSets self.old.normal is }
        requires class { IsClassOver self.old.normal class kids.0 }
        requires room { length self.old.plain < 2 ^ 32 }
        ensures hit { (n : ℕ) → IsKeptFor self.old operator class kids.0 kids.1 n → (result ≡ Ok (Label.Numbered n)) × (self.new ≡ self.old) × (steps.new ≡ steps.old) }
        ensures leaves { MatchResult result (λ l. IsChanged self.old self.new operator class kids.0 kids.1 l) (λ _. IsRefused self.old self.new operator class kids.0 kids.1) }
        ensures counted { IsCounted self.old self.new operator class kids.0 kids.1 steps.old steps.new }
        ensures fixed { limits_of self.new ≡ limits_of self.old }
        ensures labelled { IfOk result (λ l. (is : List Items) → KidsAre (Means self.old) kids.0 kids.1 is → IsLabelled (told_of self.new) operator class kids.0 kids.1 is l) }
        ensures grows { Grows (told_of self.old) (told_of self.new) result }
        ensures adds { AddsOwn (told_of self.old) (told_of self.new) operator class kids.0 kids.1 }
        ensures ready { IsReady (told_of self.old) operator class kids.0 kids.1 → IsHit (told_of self.old) (told_of self.new) result steps.old steps.new }
    {
        follows_is_one();
        let _ = self.states();
        let _ = self.keys();
        self.answer(alloc, operator, class, kids, steps)
    }

    /// The entry that the label's item set has for the normal nonterminal.
    fn item(&mut self, label: Label, nonterminal: u16) -> Option<Item>
        requires label { (i : Items) × Means self.old label i }
        ensures tables { self.new ≡ self.old }
        ensures fixed { limits_of self.new ≡ limits_of self.old }
        ensures entry { (i : Items) → Means self.old label i → result ≡ item_at i.entries nonterminal }
        ensures read { IsRead (told_of self.old) (told_of self.new) }
    {
        match self.meaning(label) {
            Some(items) => match items.entries.get(nonterminal as usize) {
                Some(entry) => *entry,
                None => None,
            },
            None => None,
        }
    }

    ghost one = { one_meaning };
}
