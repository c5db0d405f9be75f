// The automaton over a complete table.
ghost use Rattle.std.specs.Prelude.{◌≡◌, ◌<◌, ◌≤◌, ◌+◌, ◌^◌, ◌∷◌, [], ℕ, List, Some, Ok, IfOk, length, slice_get};
ghost use Rattle.sel_range.specs.Classes.{Occurs};
ghost use Rattle.sel_normal.specs.Standing.{IsStanding};
ghost use Rattle.sel_items.specs.declared.items.Items.{Items};
ghost use Rattle.sel_items.specs.declared.label.Label.{Label};
ghost use Rattle.sel_items.specs.Automata.{MayLabel, IsLabelled, Grows, AddsOwn, IsReady, IsHit, BeginsTree, IsRead};
ghost use Rattle.sel_items.specs.Entries.{item_at};
ghost use Rattle.sel_items.specs.Follows.{NodeKey, key_of};
ghost use Rattle.sel_items.specs.Labels.{KidsAre};
ghost use Rattle.sel_full.specs.Automata.{FullTable, Means, IsNumberOf, TakesAll, told_of};
ghost use Rattle.sel_full.specs.Starts.{start_at};
ghost use Rattle.sel_full.specs.Tables.{IsLawfulTable, all_keys};

use crate::places::{class_place, starts_of};
use crate::table::Table;
use sel_base::{NoMemory, Steps};
use sel_items::{Automaton, Item, Label};
use sel_normal::Normal;
use std::alloc::Global;
use std::marker::Model;
use std::sync::ledger::Ledger;

/// A tree-parsing automaton over a complete table: it labels each node of any tree by one look-up, and
/// makes nothing.
#[derive(Drop)]
pub struct FullAutomaton<'t> {
    normal: &'t Normal,
    table: &'t Table,
    starts: [Option<usize>; 255],
}

impl<'t> Model for FullAutomaton<'t> {
    ghost use Rattle.sel_full.specs.Automata.{FullTable, IsHeldTable};

    ghost Value = { FullTable };

    ghost view = { λ a. record { normal = a.normal.now; states = (a.table.now).states; numbers = (a.table.now).numbers } };

    ghost invariant = { λ a. IsHeldTable a.normal.now (a.table.now).states (a.table.now).numbers a.starts };
}

impl<'t> FullAutomaton<'t> {
    /// An automaton over the table. It takes no memory, and goes over the rules once for each operator that
    /// a grammar may have.
    pub fn new(normal: &'t Normal, table: &'t Table) -> FullAutomaton<'t>
        requires lawful { IsLawfulTable normal.now table.now.states table.now.numbers }
        ensures normal { result.normal ≡ normal.now }
        ensures states { result.states ≡ table.now.states }
        ensures numbers { result.numbers ≡ table.now.numbers }
    {
        let _count = table.numbers.len();
        let starts = starts_of(normal, table.states.as_slice());
        FullAutomaton {
            normal,
            table,
            starts,
        }
    }

    /// The table is lawful, and the normal form is as each is.
    fn is_lawful(&self)
        ensures lawful { IsLawfulTable self.now.normal self.now.states self.now.numbers }
        ensures standing { IsStanding self.now.normal }
    {
        self.normal.is_standing();
    }

    /// How many numbers there are.
    fn number_count(&self) -> usize
        ensures is { result ≡ length self.now.numbers }
        ensures few { result < 2 ^ 64 }
    {
        self.table.numbers.len()
    }

    /// How many states there are.
    fn state_count(&self) -> usize
        ensures { result ≡ length self.now.states }
    {
        self.table.states.len()
    }

    /// Where the keys of the operator begin, where some rule uses it.
    fn start_of(&self, operator: u8) -> Option<usize>
        ensures { result ≡ start_at self.now.normal self.now.states operator }
    {
        self.normal.is_standing();
        match self.starts.get(operator as usize) {
            Some(start) => *start,
            None => None,
        }
    }

    /// The number at the place `inner` behind `start`.
    fn number_at(&self, start: usize, inner: usize) -> u16
        requires { start + inner < length self.now.numbers }
        ensures { (key : NodeKey) → slice_get (all_keys self.now.normal self.now.states) (start + inner) ≡ Some key → IsNumberOf self.now key result }
    {
        self.is_lawful();
        let _ = self.number_count();
        match self.table.numbers.get(start + inner) {
            Some(number) => *number,
            None => 0,
        }
    }

    /// The number for the key of an operator without kids and a class.
    fn leaf_number(&self, operator: u8, class: u16) -> u16
        requires class { Occurs self.now.normal.tests class }
        requires takes { TakesAll self.now.normal operator 0 }
        ensures { IsNumberOf self.now (key_of operator class []) result }
    {
        self.is_lawful();
        let place = class_place(self.normal.classes(), class);
        match self.start_of(operator) {
            None => 0,
            Some(start) => self.number_at(start, place),
        }
    }

    /// The number for the key of an operator over the state of a number.
    fn one_number(&self, operator: u8, first: u16) -> u16
        requires takes { TakesAll self.now.normal operator 1 }
        requires first { (i : Items) × (slice_get self.now.states first ≡ Some i) }
        ensures { (i : Items) → slice_get self.now.states first ≡ Some i → IsNumberOf self.now (key_of operator 0 (i ∷ [])) result }
    {
        self.is_lawful();
        match self.start_of(operator) {
            None => 0,
            Some(start) => self.number_at(start, first as usize),
        }
    }

    /// The number for the key of an operator over the states of two numbers.
    fn two_number(&self, operator: u8, first: u16, second: u16) -> u16
        requires takes { TakesAll self.now.normal operator 2 }
        requires first { (i : Items) × (slice_get self.now.states first ≡ Some i) }
        requires second { (j : Items) × (slice_get self.now.states second ≡ Some j) }
        ensures { (i j : Items) → slice_get self.now.states first ≡ Some i → slice_get self.now.states second ≡ Some j → IsNumberOf self.now (key_of operator 0 (i ∷ j ∷ [])) result }
    {
        self.is_lawful();
        let _ = self.number_count();
        let count = self.state_count();
        match self.start_of(operator) {
            None => 0,
            Some(start) => {
                let row = first as usize * count;
                let inner = row + second as usize;
                self.number_at(start, inner)
            }
        }
    }

    /// The number of the state that follows from the node's key.
    fn number_of(&self, operator: u8, class: u16, kids: (Option<Label>, Option<Label>)) -> u16
        requires may { MayLabel (told_of self.now) operator class kids.0 kids.1 }
        ensures { (is : List Items) → KidsAre (Means self.now) kids.0 kids.1 is → IsNumberOf self.now (key_of operator class is) result }
    {
        match kids.0 {
            None => self.leaf_number(operator, class),
            Some(first) => match kids.1 {
                None => self.one_number(operator, number_in(first)),
                Some(second) => self.two_number(operator, number_in(first), number_in(second)),
            },
        }
    }
}

/// The number in a label, and 0 in a plain one.
fn number_in(label: Label) -> u16
    ensures { (t : FullTable) (i : Items) → Means t label i → slice_get t.states result ≡ Some i }
{
    match label {
        Label::Numbered(number) => number,
        Label::Plain(_) => 0,
    }
}

impl<'t> Automaton for FullAutomaton<'t> {
    ghost use Rattle.sel_full.specs.Automata.{FullTable, told_of, one_meaning};

    ghost told = { told_of };

    ghost Fixed = { FullTable };

    ghost fixed = { λ t. t };

    /// Begins a tree: nothing changes.
    fn begin_tree(&mut self)
        ensures same { self.new ≡ self.old }
        ensures fixed { self.new ≡ self.old }
        ensures begins { BeginsTree (told_of self.old) (told_of self.new) }
    {}

    /// A label for a node over its kids' labels, by one look-up: it is always given and a number, with no
    /// step and no memory.
    fn label<L: Ledger>(
        &mut self,
        alloc: Global,
        operator: u8,
        class: u16,
        kids: (Option<Label>, Option<Label>),
        steps: &mut Steps<L>,
    ) -> Result<Label, NoMemory>
        requires may { MayLabel (told_of self.old) operator class kids.0 kids.1 }
        ensures numbered { (n : ℕ) × (result ≡ Ok (Label.Numbered n)) }
        ensures no_step { steps.new ≡ steps.old }
        ensures steps { steps.old ≤ steps.new }
        ensures fixed { self.new ≡ self.old }
        ensures labelled { IfOk result (λ l. (is : List Items) → KidsAre (Means self.old) kids.0 kids.1 is → IsLabelled (told_of self.new) operator class kids.0 kids.1 is l) }
        ensures grows { Grows (told_of self.old) (told_of self.new) result }
        ensures adds { AddsOwn (told_of self.old) (told_of self.new) operator class kids.0 kids.1 }
        ensures hit { IsReady (told_of self.old) operator class kids.0 kids.1 → IsHit (told_of self.old) (told_of self.new) result steps.old steps.new }
    {
        Ok(Label::Numbered(self.number_of(operator, class, kids)))
    }

    /// The entry that the label's item set has for the normal nonterminal.
    fn item(&mut self, label: Label, nonterminal: u16) -> Option<Item>
        requires label { (i : Items) × Means self.old label i }
        ensures fixed { self.new ≡ self.old }
        ensures entry { (i : Items) → Means self.old label i → result ≡ item_at i.entries nonterminal }
        ensures read { IsRead (told_of self.old) (told_of self.new) }
    {
        match label {
            Label::Numbered(number) => match self.table.states.get(number as usize) {
                Some(items) => match items.entries.get(nonterminal as usize) {
                    Some(entry) => *entry,
                    None => None,
                },
                None => None,
            },
            Label::Plain(_) => None,
        }
    }

    ghost one = { one_meaning };
}
