// An automaton whose tables have one owner.
ghost use Rattle.std.specs.Prelude.{◌≡◌, ◌<◌, ◌≤◌, ◌^◌, ℕ, List, [], true, false, Some, length, slice_get, map, IfOk, MatchOption, OnOk, OnErr};
ghost use Rattle.std.specs.Option.{option_copied};
ghost use Rattle.sel_items.specs.Labels.{KidsAre, AreKidSets, IsClassOver};
ghost use Rattle.sel_auto.specs.Sets.{IsAmong, AreDifferent};
ghost use Rattle.sel_auto.specs.Tables.{Means, IsKept, IsTransition, meaning, kid_meaning, empty_tables, with_evaluation, with_plain, with_state, with_key, with_used_up};
ghost use Rattle.sel_auto.specs.TableChanges.{FollowsKids};
ghost use Rattle.sel_auto.specs.Parked.{parked_tables, IsParkedOver};

use crate::key::StateKey;
use crate::parked::ParkedAutomaton;
use crate::states::States;
use crate::transitions::Transitions;
use sel_base::{NoMemory, Steps};
use sel_items::{Items, Label, evaluate};
use sel_normal::Normal;
use std::alloc::Global;
use std::marker::Model;
use std::sync::ledger::Ledger;

/// A tree-parsing automaton whose states and transitions are made when a node first needs them, and kept
/// for the trees to come (after Ertl, Casey and Gregg). It keeps at most as many as it was made for.
/// Where no state is left, the item sets of further nodes are kept until the next tree begins.
#[derive(Drop)]
pub struct PrivateAutomaton<'n> {
    normal: &'n Normal,
    most_states: u32,
    most_keys: u32,
    states: States,
    transitions: Transitions,
    plain: Vec<Items>,
    used_up: bool,
    row_full: bool,
    evaluated: u64,
}

impl<'n> Model for PrivateAutomaton<'n> {
    ghost use Rattle.sel_auto.specs.Tables.{Tables, AreLawful};

    ghost Value = { Tables };

    ghost view = { λ a. record {
      normal = a.normal.now;
      most_states = a.most_states;
      most_keys = a.most_keys;
      states = a.states;
      keys = a.transitions;
      plain = a.plain.items;
      used_up = a.used_up;
      row_full = a.row_full;
      evaluated = a.evaluated;
    } };

    ghost invariant = { λ a. AreLawful (record {
      normal = a.normal.now;
      most_states = a.most_states;
      most_keys = a.most_keys;
      states = a.states;
      keys = a.transitions;
      plain = a.plain.items;
      used_up = a.used_up;
      row_full = a.row_full;
      evaluated = a.evaluated;
    }) };
}

impl<'n> PrivateAutomaton<'n> {
    /// An automaton over the normal form that keeps no state and no key yet, and may keep as many as this:
    /// at most 32,768 states and 1,048,576 keys.
    pub fn new(
        alloc: Global,
        normal: &'n Normal,
        states: u32,
        rows: u32,
    ) -> Result<PrivateAutomaton<'n>, NoMemory>
        requires states { states ≤ 32768 }
        requires rows { rows ≤ 1048576 }
        ensures { IfOk result (λ automaton. automaton ≡ empty_tables normal.now states rows) }
    {
        Ok(PrivateAutomaton {
            normal,
            most_states: states,
            most_keys: rows,
            states: States::new(alloc),
            transitions: Transitions::new(alloc),
            plain: Vec::new(alloc),
            used_up: false,
            row_full: false,
            evaluated: 0,
        })
    }

    /// Takes up the tables of a parked automaton again, over the normal form that they are of.
    pub fn resume(normal: &'n Normal, parked: ParkedAutomaton) -> PrivateAutomaton<'n>
        requires { IsParkedOver normal.now parked }
        ensures { result ≡ parked_tables normal.now parked }
    {
        PrivateAutomaton {
            normal,
            most_states: parked.most_states,
            most_keys: parked.most_keys,
            states: parked.states,
            transitions: parked.transitions,
            plain: parked.plain,
            used_up: parked.used_up,
            row_full: parked.row_full,
            evaluated: parked.evaluated,
        }
    }

    /// Lets the normal form go, and keeps all that is known.
    pub fn park(self) -> ParkedAutomaton
        ensures kept { parked_tables self.entry.normal result ≡ self.entry }
        ensures over { IsParkedOver self.entry.normal result }
    {
        ParkedAutomaton {
            most_states: self.most_states,
            most_keys: self.most_keys,
            states: self.states,
            transitions: self.transitions,
            plain: self.plain,
            used_up: self.used_up,
            row_full: self.row_full,
            evaluated: self.evaluated,
        }
    }

    /// How many states are kept. Their item sets differ.
    pub fn states(&self) -> u32
        ensures is { result ≡ length self.now.states }
        ensures within { result ≤ self.now.most_states }
        ensures differ { AreDifferent self.now.states }
    {
        self.states.len() as u32
    }

    /// How many keys are kept. They differ, and the item set of a key's number is what follows from it.
    pub fn keys(&self) -> u32
        ensures is { result ≡ length self.now.keys }
        ensures within { result ≤ self.now.most_keys }
        ensures differ { AreDifferent (map (λ e. e.0) self.now.keys) }
        ensures follow { (key : StateKey) (n : ℕ) → IsKept self.now key n → IsTransition self.now.normal self.now.states key n }
    {
        self.transitions.len() as u32
    }

    /// Whether a node over numbered kids or none got a plain label, since no state was left.
    pub fn used_up(&self) -> bool
        ensures { result ≡ self.now.used_up }
    {
        self.used_up
    }

    /// Whether a node got a state's number and its key was not kept, since no room was left.
    pub fn row_full(&self) -> bool
        ensures { result ≡ self.now.row_full }
    {
        self.row_full
    }

    /// How many nodes were labelled by evaluating an item set, up to the greatest number of 64 bits.
    pub fn evaluated(&self) -> u64
        ensures { result ≡ self.now.evaluated }
    {
        self.evaluated
    }

    /// The item set that a label means.
    pub(crate) fn meaning(&self, label: Label) -> Option<&Items>
        ensures { option_copied result ≡ meaning self.now label }
    {
        match label {
            Label::Numbered(number) => self.states.get(number),
            Label::Plain(place) => self.plain.get(place as usize),
        }
    }

    /// The item set of a kid, where there is one.
    fn kid_meaning(&self, label: Option<Label>) -> Option<&Items>
        ensures { option_copied result ≡ kid_meaning self.now label }
    {
        match label {
            Some(label) => self.meaning(label),
            None => None,
        }
    }

    /// Forgets the item sets of plain labels.
    pub(crate) fn forget_plain(&mut self)
        ensures { self.new ≡ record self.old { plain = [] } }
    {
        self.plain.clear();
    }

    /// The number that is kept for a key.
    pub(crate) fn kept(&self, key: StateKey) -> Option<u16>
        ensures { MatchOption result ((n : ℕ) → IsKept self.now key n → ⊥) (λ n. IsKept self.now key n) }
    {
        self.transitions.get(key)
    }

    /// The number of the item set, where it is a state's.
    pub(crate) fn find(&self, items: &Items) -> Option<u16>
        ensures { MatchOption result (IsAmong self.now.states items.now → ⊥) (λ n. slice_get self.now.states n ≡ Some items.now) }
    {
        self.states.find(items)
    }

    /// Whether a state has a number left.
    pub(crate) fn has_number_left(&self) -> bool
        ensures yes { result ≡ true → length self.now.states < self.now.most_states }
        ensures none { result ≡ false → length self.now.states ≡ self.now.most_states }
    {
        self.states.len() < self.most_states as usize
    }

    /// The item set that follows from what the kids' labels mean.
    fn evaluate<L: Ledger>(
        &self,
        alloc: Global,
        operator: u8,
        class: u16,
        kids: (Option<Label>, Option<Label>),
        steps: &mut Steps<L>,
    ) -> Result<Items, NoMemory>
        requires kids { (is : List Items) × KidsAre (Means self.now) kids.0 kids.1 is × AreKidSets self.now.normal is }
        requires class { IsClassOver self.now.normal class kids.0 }
        ensures follows { IfOk result (λ items. FollowsKids self.now operator class kids.0 kids.1 items) }
        ensures steps { steps.old < steps.new }
    {
        let normal = self.normal;
        let first = self.kid_meaning(kids.0);
        let second = self.kid_meaning(kids.1);
        evaluate(alloc, normal, operator, class, first, second, steps)
    }

    /// As `evaluate`, and counts the evaluation, whether it has memory or not.
    pub(crate) fn evaluate_counted<L: Ledger>(
        &mut self,
        alloc: Global,
        operator: u8,
        class: u16,
        kids: (Option<Label>, Option<Label>),
        steps: &mut Steps<L>,
    ) -> Result<Items, NoMemory>
        requires kids { (is : List Items) × KidsAre (Means self.old) kids.0 kids.1 is × AreKidSets self.old.normal is }
        requires class { IsClassOver self.old.normal class kids.0 }
        ensures tables { self.new ≡ with_evaluation self.old }
        ensures follows { IfOk result (λ items. FollowsKids self.old operator class kids.0 kids.1 items) }
        ensures steps { steps.old < steps.new }
    {
        let items = self.evaluate(alloc, operator, class, kids, steps);
        self.count_evaluation();
        items
    }

    /// Counts an evaluation, up to the greatest number of 64 bits.
    pub(crate) fn count_evaluation(&mut self)
        ensures { self.new ≡ with_evaluation self.old }
    {
        self.evaluated = self.evaluated.saturating_add(1);
    }

    /// Keeps the item set of a plain label until the next tree begins.
    pub(crate) fn add_plain(&mut self, items: Items) -> Result<Label, NoMemory>
        requires room { length self.old.plain < 2 ^ 32 }
        ensures label { IfOk result (λ l. l ≡ Label.Plain (length self.old.plain)) }
        ensures ok { OnOk result (self.new ≡ with_plain self.old items) }
        ensures err { OnErr result (self.new ≡ self.old) }
    {
        let place = self.plain.len();
        self.plain.push(items)?;
        Ok(Label::Plain(place as u32))
    }

    /// Gives the item set the next number.
    pub(crate) fn add_state(&mut self, items: Items) -> Result<u16, NoMemory>
        requires fresh { IsAmong self.old.states items → ⊥ }
        requires room { length self.old.states < self.old.most_states }
        ensures number { IfOk result (λ n. n ≡ length self.old.states) }
        ensures ok { OnOk result (self.new ≡ with_state self.old items) }
        ensures err { OnErr result (self.new ≡ self.old) }
    {
        let number = self.states.len();
        self.states.push(items)?;
        Ok(number as u16)
    }

    /// Keeps the number of a key, where there is room.
    pub(crate) fn keep(&mut self, key: StateKey, number: u16) -> Result<(), NoMemory>
        requires fresh { (n : ℕ) → IsKept self.old key n → ⊥ }
        requires follows { IsTransition self.old.normal self.old.states key number }
        ensures ok { OnOk result (self.new ≡ with_key self.old key number) }
        ensures err { OnErr result (self.new ≡ self.old) }
    {
        if self.transitions.len() < self.most_keys as usize {
            self.transitions.push(key, number)?;
        } else {
            self.row_full = true;
        }
        Ok(())
    }

    pub(crate) fn mark_used_up(&mut self)
        ensures { self.new ≡ with_used_up self.old }
    {
        self.used_up = true;
    }
}
