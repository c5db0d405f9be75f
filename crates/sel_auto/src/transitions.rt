// The keys whose numbers are kept.
ghost use Rattle.std.specs.Prelude.{◌≡◌, ◌++◌, ◌∷◌, [], ℕ, length, MatchOption, OnOk, OnErr};
ghost use Rattle.sel_auto.specs.Sets.{IsAmong};

use crate::key::StateKey;
use indexmap::IndexMap;
use sel_base::NoMemory;
use std::alloc::Global;
use std::marker::Model;

/// Keys with the numbers of the states that follow from them. Contracts see them as a list, in the order
/// in which they were kept.
#[derive(Drop)]
pub struct Transitions {
    numbers: IndexMap<StateKey, u16>,
}

impl Model for Transitions {
    ghost use Rattle.std.specs.Prelude.{List, ℕ};
    ghost use Rattle.sel_auto.specs.declared.key.StateKey.{StateKey};

    ghost Value = { List (StateKey × ℕ) };

    ghost view = { λ t. t.numbers.entries };
}

impl Transitions {
    /// No keys. It asks for no memory.
    pub fn new(alloc: Global) -> Transitions
        ensures { result ≡ [] }
    {
        Transitions {
            numbers: IndexMap::new(alloc),
        }
    }

    pub fn len(&self) -> usize
        ensures { result ≡ length self.now }
    {
        self.numbers.len()
    }

    /// The number that is kept for the key, where one is.
    pub fn get(&self, key: StateKey) -> Option<u16>
        ensures { MatchOption result ((n : ℕ) → IsAmong self.now (key, n) → ⊥) (λ n. IsAmong self.now (key, n)) }
    {
        self.numbers.get(&key).copied()
    }

    /// Keeps the number of a key that has none.
    pub fn push(&mut self, key: StateKey, number: u16) -> Result<(), NoMemory>
        requires new { (n : ℕ) → IsAmong self.old (key, n) → ⊥ }
        ensures ok { OnOk result (self.new ≡ self.old ++ (key, number) ∷ []) }
        ensures err { OnErr result (self.new ≡ self.old) }
    {
        self.numbers.insert(key, number)?;
        Ok(())
    }
}
