//! The registers that are free.
ghost use Rattle.std.specs.Prelude.{◌≡◌, ℕ, ◌+◌, ◌-◌, ◌<◌, ◌^◌, true, OnOk, max};
ghost use Rattle.std.specs.Ordering.{nat_cmp};
ghost use Rattle.std.specs.BTreeSet.{contains};

use sel_base::NoMemory;
use std::alloc::Global;
use std::collections::BTreeSet;

/// Registers that were given back, and all from `fresh` on.
#[derive(Debug, Drop)]
pub struct Free {
    released: BTreeSet<u32>,
    fresh: u32,
    ghost below: { (q : ℕ) → contains nat_cmp released q ≡ true → q < fresh },
}

impl Free {
    ghost use Rattle.sel_regs.specs.Freeing.{IsNextTaken, IsReleased};

    /// All registers.
    pub fn new(alloc: Global) -> Free
        ensures { result.fresh ≡ 0 }
    {
        Free {
            released: BTreeSet::new(alloc),
            fresh: 0,
        }
    }

    /// How many registers have been taken at least once.
    pub fn taken(&self) -> u32
        ensures { result ≡ self.now.fresh }
    {
        self.fresh
    }

    /// Takes the lowest register that is free.
    pub fn take(&mut self) -> u32
        requires { self.old.fresh < 2 ^ 32 - 1 }
        ensures { IsNextTaken self.old self.new result }
    {
        match self.released.pop_first() {
            Some(register) => register,
            None => {
                let register = self.fresh;
                self.fresh += 1;
                register
            }
        }
    }

    /// Gives a register back that was taken. One that is free stays so.
    pub fn release(&mut self, register: u32) -> Result<(), NoMemory>
        requires { register < self.old.fresh }
        ensures { OnOk result (IsReleased self.old self.new register) }
    {
        self.released.insert(register)?;
        Ok(())
    }
}
