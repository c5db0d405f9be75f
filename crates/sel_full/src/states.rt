// The item sets of states, each found by itself and by its number.
ghost use Rattle.std.specs.Prelude.{◌≡◌, ◌<◌, ◌++◌, ◌∷◌, [], ℕ, Some, length, slice_get, MatchOption, OnOk, OnErr};
ghost use Rattle.std.specs.Option.{option_copied};
ghost use Rattle.sel_full.specs.Reach.{IsOneOf};

use indexmap::IndexSet;
use sel_base::NoMemory;
use sel_items::{Items, equal_are_same};
use std::alloc::Global;
use std::marker::Model;

/// The item sets of states. Contracts see them as a list, in which a state's number is its place from 0.
#[derive(Drop)]
pub struct States {
    sets: IndexSet<Items>,
}

impl Model for States {
    ghost use Rattle.std.specs.Prelude.{List};
    ghost use Rattle.sel_items.specs.declared.items.Items.{Items};

    ghost Value = { List Items };

    ghost view = { λ s. s.sets.keys };
}

impl States {
    /// No states. It asks for no memory.
    pub fn new(alloc: Global) -> States
        ensures { result ≡ [] }
    {
        States {
            sets: IndexSet::new(alloc),
        }
    }

    pub fn len(&self) -> usize
        ensures { result ≡ length self.now }
    {
        self.sets.len()
    }

    /// The item sets, by their numbers.
    pub fn as_slice(&self) -> &[Items]
        ensures { result.now ≡ self.now }
    {
        self.sets.as_slice()
    }

    /// The item set of a number, where there is one.
    pub fn get(&self, number: u16) -> Option<&Items>
        ensures { option_copied result ≡ slice_get self.now number }
    {
        self.sets.get_index(number as usize)
    }

    /// The number of the item set, where it is a state's.
    pub fn find(&self, items: &Items) -> Option<u16>
        requires few { length self.now < 65536 }
        ensures { MatchOption result (IsOneOf self.now items.now → ⊥) (λ n. slice_get self.now n ≡ Some items.now) }
    {
        equal_are_same();
        match self.sets.get_full(items) {
            Some((number, _)) => Some(number as u16),
            None => None,
        }
    }

    /// Gives the item set the next number.
    pub fn push(&mut self, items: Items) -> Result<(), NoMemory>
        requires new { IsOneOf self.old items → ⊥ }
        ensures ok { OnOk result (self.new ≡ self.old ++ items ∷ []) }
        ensures err { OnErr result (self.new ≡ self.old) }
    {
        equal_are_same();
        self.sets.insert(items)?;
        Ok(())
    }
}
