// What C keeps between calls.
ghost use Rattle.std.specs.Prelude.{◌≡◌, Some, None, is_some, option_map};

use crate::accepted::Accepted;
use crate::bare::Bare;
use crate::held::Held;
use std::alloc::Global;
use std::mem;

/// A table, or none: `full` tells which.
#[repr(C)]
#[derive(Drop)]
pub struct Handle {
    pub full: bool,
    pub held: Held,
    ghost told: { full ≡ is_some held.table },
}

impl Handle {
    pub fn closed(alloc: Global) -> Handle
        ensures { result.held.table ≡ None }
    {
        Handle {
            full: false,
            held: Held::empty(alloc),
        }
    }

    pub fn of(table: Box<Accepted, Global>) -> Handle
        ensures { result.held.table ≡ Some table.value }
    {
        Handle {
            full: true,
            held: Held::of_bare(Bare::of_box(table)),
        }
    }

    /// Takes the table out, and leaves none.
    pub fn take(&mut self, alloc: Global) -> Option<Box<Accepted, Global>>
        ensures left { self.new.held.table ≡ None }
        ensures taken { self.old.held.table ≡ option_map (λ it. it.value) result }
    {
        let Handle { full, held } = mem::replace(self, Handle::closed(alloc));
        if full {
            Some(held.into_bare().into_box())
        } else {
            None
        }
    }

    /// Puts a table in. One that is held would be lost, so there is none.
    pub fn put(&mut self, table: Box<Accepted, Global>)
        requires { self.old.held.table ≡ None }
        ensures { self.new.held.table ≡ Some table.value }
    {
        *self = Handle::of(table);
    }
}
