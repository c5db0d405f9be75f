// A place for a table behind a pointer, in a form that C can keep.
ghost use Rattle.std.specs.Prelude.{◌≡◌, Some, None, IsSome};
ghost use Rattle.sel_c.specs.Held.{held_owns, MaybeTable, maybe_coded};

use crate::accepted::Accepted;
use crate::bare::Bare;
use std::alloc::Global;
use std::marker::Model;

/// A table that is owned by its pointer, or none.
#[repr(C)]
#[derive(Drop)]
pub struct Held {
    at: *mut u8,
    alloc: Global,
    pub ghost table: { MaybeTable } by { maybe_coded },
}

impl Model for Held {
    ghost also_owns = { λ h. held_owns h.alloc h.at h.table };
}

impl Held {
    pub fn of_bare(bare: Bare<Accepted, Global>) -> Held
        ensures { result.table ≡ Some bare.value }
    {
        let Bare { at, alloc } = bare;
        Held {
            at: at as *mut u8,
            alloc,
        }
    }

    pub fn into_bare(self) -> Bare<Accepted, Global>
        requires { IsSome self.table }
        ensures { self.table ≡ Some result.value }
    {
        let Held { at, alloc } = self;
        Bare {
            at: at as *mut Accepted,
            alloc,
        }
    }

    pub fn empty(alloc: Global) -> Held
        ensures { result.table ≡ None }
    {
        Held {
            at: std::ptr::null_mut(),
            alloc,
        }
    }
}
