//! A pass as an `Automaton`.
ghost use Rattle.std.specs.Prelude.{◌≡◌, ◌<◌, ◌≤◌, List, IfOk};
ghost use Rattle.sel_items.specs.declared.items.Items.{Items};
ghost use Rattle.sel_items.specs.declared.label.Label.{Label};
ghost use Rattle.sel_items.specs.Entries.{item_at};
ghost use Rattle.sel_items.specs.Labels.{KidsAre};
ghost use Rattle.sel_items.specs.Automata.{MayLabel, IsLabelled, Grows, AddsOwn, IsReady, IsHit, BeginsTree, IsRead};
ghost use Rattle.sel_rows.specs.PlainLabels.{IsLabelByPass};
ghost use Rattle.sel_rows.specs.Told.{told_of_pass, standing_of, spare_of, evaluated_of};

use crate::item::plain_item;
use crate::pass::Pass;
use sel_base::{NoMemory, Steps};
use sel_items::laws::follows_is_one;
use sel_items::{Automaton, Item, Label};
use std::alloc::Global;
use std::sync::ledger::Ledger;

impl<'r> Automaton for Pass<'r> {
    ghost use Rattle.sel_rows.specs.Meanings.{one_meaning};
    ghost use Rattle.sel_rows.specs.Told.{told_of_pass, Standing, standing_of};

    ghost told = { told_of_pass };

    ghost Fixed = { Standing };

    ghost fixed = { standing_of };

    /// Begins a tree: the item sets of plain labels are forgotten, and all else stays.
    fn begin_tree(&mut self)
        ensures kept { (spare_of self.new ≡ spare_of self.old) × (evaluated_of self.new ≡ evaluated_of self.old) }
        ensures fixed { standing_of self.new ≡ standing_of self.old }
        ensures begins { BeginsTree (told_of_pass self.old) (told_of_pass self.new) }
    {
        self.plain.clear();
    }

    /// A label for a node over its kids' labels. The transition of the node's key is looked up first. Where there is
    /// none an item set is evaluated, its state is looked up or published, and then the transition is.
    fn label<L: Ledger>(
        &mut self,
        alloc: Global,
        operator: u8,
        class: u16,
        kids: (Option<Label>, Option<Label>),
        steps: &mut Steps<L>,
    ) -> Result<Label, NoMemory>
        requires may { MayLabel (told_of_pass self.old) operator class kids.0 kids.1 }
        ensures by_pass { IsLabelByPass self.old self.new operator class kids.0 kids.1 result steps.old steps.new }
        ensures fixed { standing_of self.new ≡ standing_of self.old }
        ensures labelled { IfOk result (λ l. (is : List Items) → KidsAre (told_of_pass self.old).means kids.0 kids.1 is → IsLabelled (told_of_pass self.new) operator class kids.0 kids.1 is l) }
        ensures grows { Grows (told_of_pass self.old) (told_of_pass self.new) result }
        ensures adds { AddsOwn (told_of_pass self.old) (told_of_pass self.new) operator class kids.0 kids.1 }
        ensures hit { IsReady (told_of_pass self.old) operator class kids.0 kids.1 → IsHit (told_of_pass self.old) (told_of_pass self.new) result steps.old steps.new }
        ensures steps { steps.old ≤ steps.new }
    {
        follows_is_one();
        self.answer(alloc, operator, class, kids, steps)
    }

    /// The entry of the item set that the label means.
    fn item(&mut self, label: Label, nonterminal: u16) -> Option<Item>
        requires label { (i : Items) × (told_of_pass self.old).means label i }
        requires nonterminal { nonterminal < (told_of_pass self.old).normal.nonterminals }
        ensures kept { (spare_of self.new ≡ spare_of self.old) × (evaluated_of self.new ≡ evaluated_of self.old) }
        ensures fixed { standing_of self.new ≡ standing_of self.old }
        ensures entry { (i : Items) → (told_of_pass self.old).means label i → result ≡ item_at i.entries nonterminal }
        ensures read { IsRead (told_of_pass self.old) (told_of_pass self.new) }
    {
        match label {
            Label::Numbered(number) => self.held_item(number, nonterminal),
            Label::Plain(place) => plain_item(self.plain.as_slice(), place, nonterminal),
        }
    }

    ghost one = { λ p. one_meaning p.hand.seat.me.0 p.plain.items };
}
