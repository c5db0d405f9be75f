//! Walks over the row of transitions.
ghost use Rattle.std.specs.Prelude.{◌≡◌, ℕ, ◌+◌, ◌*◌, ◌%◌, ◌/◌, ◌<◌, ◌≤◌, ◌^◌, List};
ghost use Rattle.sel_law.specs.Words.{IsKey, key_home, In, IsMadeOf};
ghost use Rattle.sel_law.specs.Kinds.{HeldKey, HeldNumber, HeldWhole, WalkedRow};
ghost use Rattle.sel_rows.specs.Grown.{Grown, KeepsNumber};
ghost use Rattle.sel_rows.specs.FoundRow.{FoundRow, FindsKnown, FoundPlace, MarksFull, MarksPlaced};

use crate::found::{Placed, Seen};
use crate::hand::Hand;
use sel_law::Doing;

impl<'r> Hand<'r> {
    /// Walks the row from the key's home, over `most` words at most.
    pub fn walk<J: Doing>(&mut self, key: u64, home: u64, most: u64) -> Seen
        requires key { (J.key ≡ key) × IsKey key × HeldKey self.old.seat.me.0 key J.ask × In J.ask J.asks }
        requires home { (home ≡ key_home self.old.rows.now.table.shared.key key) × (home < 2 ^ 32) }
        requires rows { (1 ≤ most) × (most ≤ self.old.rows.now.rows) }
        ensures grown { Grown J.asks self.old.seat.me.0 self.new.seat.me.0 }
        ensures own { KeepsNumber self.old.seat.me.0 self.new.seat.me.0 }
        ensures same { self.new.rows ≡ self.old.rows }
        ensures found { FoundRow self.old.seat.me.0 self.new.seat.me.0 key J.ask most result }
        ensures full { MarksFull self.old.seat.me.0 self.new.seat.me.0 result }
        ensures known { (n : ℕ) → In (J.ask, n) self.old.seat.me.0.known → FindsKnown self.old.seat.me.0 most n result }
        ensures few { self.new.seat.me.0.steps ≤ self.old.seat.me.0.steps + most }
    {
        let rows = self.rows.rows;
        let base = 1 + 2 * self.rows.states;
        let mut at = home % rows;
        let mut steps = 0;
        while steps < most {
            let found = self
                .rows
                .look_row_as::<J>(&mut self.seat, (base + at) as usize);
            if found == 0 {
                return Seen::Absent { place: at as u32 };
            }
            if found / 65536 == key {
                return Seen::Number((found % 65536) as u16);
            }
            steps += 1;
            at = if at + 1 == rows { 0 } else { at + 1 };
        }
        Seen::Full
    }

    /// Puts the key with its number into the first free word of its walk, from the place on where the walk ended.
    pub fn place<J: Doing>(&mut self, key: u64, home: u64, place: u64, number: u64) -> Placed
        requires key { (J.key ≡ key) × IsKey key × HeldKey self.old.seat.me.0 key J.ask × In J.ask J.asks }
        requires small { key < 2 ^ 48 }
        requires home { (home ≡ key_home self.old.rows.now.table.shared.key key) × (home < 2 ^ 32) }
        requires walked { (place < self.old.rows.now.rows) × WalkedRow self.old.seat.me.0 key place }
        requires number { (J.number ≡ number) × (number < self.old.rows.now.states) × HeldNumber self.old.seat.me.0 number × ((c : List ℕ) × HeldWhole self.old.seat.me.0 number c × IsMadeOf self.old.rows.now.table.shared.key J.ask c) }
        ensures grown { Grown J.asks self.old.seat.me.0 self.new.seat.me.0 }
        ensures own { KeepsNumber self.old.seat.me.0 self.new.seat.me.0 }
        ensures same { self.new.rows ≡ self.old.rows }
        ensures full { MarksPlaced self.old.seat.me.0 self.new.seat.me.0 result }
        ensures placed { FoundPlace self.new.seat.me.0 key J.ask result }
        ensures few { self.new.seat.me.0.steps ≤ self.old.seat.me.0.steps + self.old.rows.now.rows }
    {
        let rows = self.rows.rows;
        let base = 1 + 2 * self.rows.states;
        let start = home % rows;
        let new = key * 65536 + number;
        let mut at = place;
        let mut steps = if place >= start {
            place - start
        } else {
            place + rows - start
        };
        while steps < rows {
            let found = self
                .rows
                .place_as::<J>(&mut self.seat, (base + at) as usize, new);
            if found == 0 {
                return Placed::Known(number as u16);
            }
            if found / 65536 == key {
                return Placed::Known((found % 65536) as u16);
            }
            steps += 1;
            at = if at + 1 == rows { 0 } else { at + 1 };
        }
        Placed::RowFull
    }
}
