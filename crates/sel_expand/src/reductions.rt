//! The reductions of a cover: its rules with their nodes and kids.
ghost use Rattle.std.specs.Prelude.{◌≡◌, ◌≤◌, ◌<◌, ◌^◌, ◌++◌, ◌∷◌, [], ℕ, List, length, slice_get, slice_range, OnOk, OnErr};
ghost use Rattle.sel_expand.specs.Reductions.{own_of, kids_of};

use crate::templates::Kind;
use sel_base::NoMemory;
use std::alloc::Global;
use std::marker::Model;

/// A rule that is applied at a node, the kind of its template, and the number of the next temporary when its turn comes.
#[derive(Clone, Copy, Debug, Drop)]
pub struct Reduction {
    pub rule: u16,
    pub kind: Kind,
    pub at: usize,
    pub next: u64,
}

/// A reduction, and where its kids begin and end among the kids of all.
#[derive(Clone, Copy, Debug, Drop)]
struct Slot {
    own: Reduction,
    start: usize,
    end: usize,
}

/// The reductions of a cover, each behind those of its kids. The kids of all stand in one list.
#[derive(Debug, Drop)]
pub struct Reductions {
    slots: Vec<Slot>,
    kids: Vec<usize>,
}

impl Model for Reductions {
    ghost use Rattle.std.specs.Prelude.{List};
    ghost use Rattle.sel_expand.specs.Reductions.{Reduced, reduced_slots, AreWithin};

    ghost Value = { List Reduced };

    ghost view = { λ r. reduced_slots r.kids.items r.slots.items };

    ghost invariant = { λ r. AreWithin r.kids.items r.slots.items };
}

/// The place of a kid's reduction, where there is such a kid.
pub fn kid_at(kids: &[usize], kid: usize) -> Option<usize>
    ensures { result ≡ slice_get kids.now kid }
{
    match kids.get(kid) {
        Some(at) => Some(*at),
        None => None,
    }
}

fn slot_at(slots: &[Slot], at: usize) -> Option<Slot>
    ensures { result ≡ slice_get slots.now at }
{
    match slots.get(at) {
        Some(slot) => Some(*slot),
        None => None,
    }
}

fn part_of(kids: &[usize], start: usize, end: usize) -> &[usize]
    requires order { start ≤ end }
    requires within { end ≤ length kids.now }
    ensures { result.now ≡ slice_range kids.now start end }
{
    &kids[start..end]
}

/// Puts more kids behind the others. Mostly they are two at most.
fn put_kids(kids: &mut Vec<usize>, more: &[usize]) -> Result<(), NoMemory>
    ensures ok { OnOk result (kids.new.items ≡ kids.old.items ++ more.now) }
    ensures err { OnErr result ((some : List ℕ) × (kids.new.items ≡ kids.old.items ++ some)) }
{
    match more {
        [] => Ok(()),
        [kid] => {
            kids.push(*kid)?;
            Ok(())
        }
        [first, second] => {
            kids.push(*first)?;
            kids.push(*second)?;
            Ok(())
        }
        _ => {
            kids.extend_from_slice(more)?;
            Ok(())
        }
    }
}

impl Reductions {
    /// No reductions. It asks for no memory.
    pub fn new(alloc: Global) -> Reductions
        ensures { result ≡ [] }
    {
        Reductions {
            slots: Vec::new(alloc),
            kids: Vec::new(alloc),
        }
    }

    /// Takes all reductions out, and keeps their room.
    pub fn clear(&mut self)
        ensures { self.new ≡ [] }
    {
        self.slots.clear();
        self.kids.clear();
    }

    pub fn len(&self) -> usize
        ensures count { result ≡ length self.now }
        ensures few { result < 2 ^ 63 }
    {
        self.slots.len()
    }

    pub fn own(&self, at: usize) -> Option<Reduction>
        ensures { result ≡ own_of (slice_get self.now at) }
    {
        match slot_at(&self.slots, at) {
            Some(slot) => Some(slot.own),
            None => None,
        }
    }

    /// The places of the reduction's kids, from left to right.
    pub fn kids(&self, at: usize) -> &[usize]
        ensures { result.now ≡ kids_of (slice_get self.now at) }
    {
        match slot_at(&self.slots, at) {
            Some(slot) => part_of(&self.kids, slot.start, slot.end),
            None => &[],
        }
    }

    /// Puts a reduction with these kids behind the others.
    pub fn push(&mut self, own: Reduction, kids: &[usize]) -> Result<(), NoMemory>
        ensures { OnOk result (self.new ≡ self.old ++ record { own = own; kids = kids.now } ∷ []) }
    {
        let start = self.kids.len();
        put_kids(&mut self.kids, kids)?;
        let end = self.kids.len();
        self.slots.push(Slot { own, start, end })?;
        Ok(())
    }
}
