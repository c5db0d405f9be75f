// How a private automaton labels a node.
ghost use Rattle.std.specs.Prelude.{◌≡◌, ◌<◌, ◌≤◌, ◌^◌, ℕ, List, Some, None, length, IfOk, OnErr};
ghost use Rattle.sel_items.specs.declared.items.Items.{Items};
ghost use Rattle.sel_items.specs.Labels.{KidsAre, AreKidSets, IsClassOver};
ghost use Rattle.sel_auto.specs.Keys.{numbered_key};
ghost use Rattle.sel_auto.specs.Tables.{Means, IsKept};
ghost use Rattle.sel_auto.specs.Answers.{IsMissed, IsOverPlain, IsAnswer};
ghost use Rattle.sel_auto.specs.TableChanges.{IsRefused};

use crate::key::{StateKey, numbered_key};
use crate::private::PrivateAutomaton;
use sel_base::{NoMemory, Steps};
use sel_items::Label;
use std::alloc::Global;
use std::sync::ledger::Ledger;

impl<'n> PrivateAutomaton<'n> {
    /// The label of a node over a plain kid.
    fn answer_over_plain<L: Ledger>(
        &mut self,
        alloc: Global,
        operator: u8,
        class: u16,
        kids: (Option<Label>, Option<Label>),
        steps: &mut Steps<L>,
    ) -> Result<Label, NoMemory>
        requires kids { (is : List Items) × KidsAre (Means self.old) kids.0 kids.1 is × AreKidSets self.old.normal is }
        requires class { IsClassOver self.old.normal class kids.0 }
        requires plain { numbered_key operator class kids.0 kids.1 ≡ None }
        requires room { length self.old.plain < 2 ^ 32 }
        ensures answered { IfOk result (λ l. IsOverPlain self.old self.new operator class kids.0 kids.1 l) }
        ensures refused { OnErr result (IsRefused self.old self.new operator class kids.0 kids.1) }
        ensures steps { steps.old < steps.new }
    {
        let items = self.evaluate_counted(alloc, operator, class, kids, steps)?;
        self.add_plain(items)
    }

    /// The label of a node whose key has no number yet.
    fn answer_missed<L: Ledger>(
        &mut self,
        alloc: Global,
        key: StateKey,
        kids: (Option<Label>, Option<Label>),
        steps: &mut Steps<L>,
    ) -> Result<Label, NoMemory>
        requires kids { (is : List Items) × KidsAre (Means self.old) kids.0 kids.1 is × AreKidSets self.old.normal is }
        requires class { IsClassOver self.old.normal key.class kids.0 }
        requires key { numbered_key key.operator key.class kids.0 kids.1 ≡ Some key }
        requires missing { (n : ℕ) → IsKept self.old key n → ⊥ }
        requires room { length self.old.plain < 2 ^ 32 }
        ensures answered { IfOk result (λ l. IsMissed self.old self.new key key.operator key.class kids.0 kids.1 l) }
        ensures refused { OnErr result (IsRefused self.old self.new key.operator key.class kids.0 kids.1) }
        ensures steps { steps.old < steps.new }
    {
        let items = self.evaluate_counted(alloc, key.operator, key.class, kids, steps)?;
        match self.find(&items) {
            Some(number) => {
                self.keep(key, number)?;
                Ok(Label::Numbered(number))
            }
            None => {
                if self.has_number_left() {
                    let number = self.add_state(items)?;
                    self.keep(key, number)?;
                    return Ok(Label::Numbered(number));
                }
                let label = self.add_plain(items)?;
                self.mark_used_up();
                Ok(label)
            }
        }
    }

    /// The label of a node: by its key, where a number is kept for it.
    pub(crate) fn answer<L: Ledger>(
        &mut self,
        alloc: Global,
        operator: u8,
        class: u16,
        kids: (Option<Label>, Option<Label>),
        steps: &mut Steps<L>,
    ) -> Result<Label, NoMemory>
        requires kids { (is : List Items) × KidsAre (Means self.old) kids.0 kids.1 is × AreKidSets self.old.normal is }
        requires class { IsClassOver self.old.normal class kids.0 }
        requires room { length self.old.plain < 2 ^ 32 }
        ensures answered { IfOk result (λ l. IsAnswer self.old self.new steps.old steps.new operator class kids.0 kids.1 l) }
        ensures refused { OnErr result (IsRefused self.old self.new operator class kids.0 kids.1 × (steps.old < steps.new)) }
        ensures steps { steps.old ≤ steps.new }
    {
        match numbered_key(operator, class, kids) {
            None => self.answer_over_plain(alloc, operator, class, kids, steps),
            Some(key) => match self.kept(key) {
                Some(number) => Ok(Label::Numbered(number)),
                None => self.answer_missed(alloc, key, kids, steps),
            },
        }
    }
}
