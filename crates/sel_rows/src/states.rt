//! The walk over the intern row.
ghost use Rattle.std.specs.Prelude.{◌≡◌, ◌+◌, ◌*◌, ◌%◌, ◌<◌, ◌≤◌, ◌^◌, List, length, true, false, IfOk};
ghost use Rattle.sel_law.specs.declared.Ask.{Ask};
ghost use Rattle.sel_law.specs.Words.{content_home, intern_at, In, items_of};
ghost use Rattle.sel_law.specs.Kinds.{HeldNumber, HeldWhole, OneContent, OneNumber, NotAll, Below, TellsStates, seen};
ghost use Rattle.sel_rows.specs.Grown.{Grown, KeepsOwn};
ghost use Rattle.sel_rows.specs.Held.{held_content, IsWhole, IsRead};
ghost use Rattle.sel_rows.specs.FoundState.{Unlike, FoundState, FoundOnly};

use crate::found::Found;
use crate::hand::Hand;
use sel_base::{List, NoMemory};
use sel_items::{Items, unpack};
use sel_law::Doing;
use std::alloc::Global;
use std::marker::Brand;

impl<'r> Hand<'r> {
    /// The entry of a number that is held.
    pub fn entry<J: Doing>(&mut self, number: u64, index: u64) -> u64
        requires about { (J.number ≡ number) × (J.index ≡ index) }
        requires inside { (number < self.old.rows.now.states) × (index < self.old.rows.now.width) }
        requires held { HeldNumber self.old.seat.me.0 number }
        ensures grown { Grown J.asks self.old.seat.me.0 self.new.seat.me.0 }
        ensures own { KeepsOwn self.old.seat.me.0 self.new.seat.me.0 }
        ensures same { self.new.rows ≡ self.old.rows }
        ensures there { In (number, index, result) self.new.seat.me.0.contents × OneContent self.new.seat.me.0 }
        ensures numbers { OneNumber self.new.seat.me.0 }
        ensures exact { IsRead self.old.seat.me.0 J.asks number index result self.new.seat.me.0 }
    {
        let first = 1 + 2 * self.rows.states + self.rows.rows;
        let word = first + number * self.rows.width + index;
        self.rows.read_as::<J>(&mut self.seat, word as usize)
    }

    /// The item set of a number that is held whole.
    pub fn read_items<J: Doing>(&mut self, alloc: Global, number: u64) -> Result<Items, NoMemory>
        requires held { (number < self.old.rows.now.states) × HeldNumber self.old.seat.me.0 number × IsWhole self.old.seat.me.0 number }
        ensures grown { Grown J.asks self.old.seat.me.0 self.new.seat.me.0 }
        ensures own { KeepsOwn self.old.seat.me.0 self.new.seat.me.0 }
        ensures same { self.new.rows ≡ self.old.rows }
        ensures items { IfOk result (λ i. i ≡ items_of (held_content self.old.seat.me.0 number)) }
    {
        let mut entries = Vec::with_capacity(alloc, self.rows.width as usize)?;
        let mut index = 0;
        while index < self.rows.width {
            let word = self.entry::<Brand>(number, index);
            entries.push(unpack(word))?;
            index += 1;
        }
        Ok(Items {
            entries: List::from_vec(entries),
        })
    }

    /// Whether the number's content is another.
    pub fn differs<J: Doing>(&mut self, number: u64, items: &[u64]) -> bool
        requires items { length items.now ≡ self.old.rows.now.width }
        requires held { (number < self.old.rows.now.states) × HeldNumber self.old.seat.me.0 number }
        ensures grown { Grown J.asks self.old.seat.me.0 self.new.seat.me.0 }
        ensures own { KeepsOwn self.old.seat.me.0 self.new.seat.me.0 }
        ensures same { self.new.rows ≡ self.old.rows }
        ensures other { result ≡ true → Unlike self.new.seat.me.0 number items.now }
        ensures numbers { result ≡ false → OneNumber self.new.seat.me.0 }
        ensures equal { result ≡ false → HeldWhole self.new.seat.me.0 number items.now × (held_content self.new.seat.me.0 number ≡ items.now) }
        ensures few { self.new.seat.me.0.steps ≤ self.old.seat.me.0.steps + length items.now }
    {
        let mut index = 0;
        while index < items.len() {
            let found = self.entry::<Brand>(number, index as u64);
            if found != items[index] {
                return true;
            }
            index += 1;
        }
        false
    }

    /// A load of the intern word of a place.
    fn look<J: Doing>(&mut self, place: u64) -> u64
        requires inside { place < 2 * self.old.rows.now.states }
        ensures view { self.new.seat.me.0 ≡ seen self.old.seat.me.0 J.asks (intern_at place) result }
        ensures told { NotAll self.old.seat.me.0 (intern_at place) result × Below self.old.seat.me.0 (intern_at place) result × TellsStates self.old.seat.me.0 (intern_at place) result }
        ensures same { self.new.rows ≡ self.old.rows }
    {
        let word = 1 + place;
        self.rows.look_as::<J>(&mut self.seat, word as usize)
    }

    /// Walks the intern row from the content's home to an equal state or to a word that is free.
    pub fn find_state<J: Doing>(&mut self, items: &[u64], home: u64) -> Found
        requires items { length items.now ≡ self.old.rows.now.width }
        requires home { (home ≡ content_home self.old.rows.now.table.shared.key items.now) × (home < 2 ^ 32) }
        requires states { 1 ≤ self.old.rows.now.states }
        ensures grown { Grown J.asks self.old.seat.me.0 self.new.seat.me.0 }
        ensures own { KeepsOwn self.old.seat.me.0 self.new.seat.me.0 }
        ensures same { self.new.rows ≡ self.old.rows }
        ensures found { FoundState self.old.seat.me.0 self.new.seat.me.0 items.now result }
        ensures only { FoundOnly self.new.seat.me.0 items.now result }
        ensures stepped { (b : Ask) → In b J.asks → In b self.new.seat.me.0.asked }
        ensures few { self.new.seat.me.0.steps ≤ self.old.seat.me.0.steps + 2 * self.old.rows.now.states * (length items.now + 1) }
    {
        let count = 2 * self.rows.states;
        let mut at = home % count;
        let mut steps = 0;
        while steps < count {
            let found = self.look::<Brand>(at);
            if found == 0 {
                return Found::Absent { place: at as u32 };
            }
            if !self.differs::<Brand>(found - 1, items) {
                return Found::Number((found - 1) as u16);
            }
            steps += 1;
            at = if at + 1 == count { 0 } else { at + 1 };
        }
        unreachable!()
    }
}
