//! Draws, drafts and the publication of a state.
ghost use Rattle.std.specs.Prelude.{◌≡◌, ◌+◌, ◌*◌, ◌<◌, ◌≤◌, ◌^◌, ◌++◌, length, false, Some, None, ◌==◌};
ghost use Rattle.sel_law.specs.declared.Ask.{Ask};
ghost use Rattle.sel_law.specs.Words.{content_at, intern_at, In, IsMadeOf};
ghost use Rattle.sel_law.specs.Kinds.{WalkedStates, OneContent, drew, drafted, stood_as, NotAll, Below};
ghost use Rattle.sel_rows.specs.Grown.{Grown};
ghost use Rattle.sel_rows.specs.Published.{StandsAs};

use crate::found::Won;
use crate::hand::Hand;
use sel_law::Doing;
use std::marker::Brand;

impl<'r> Hand<'r> {
    /// Draws a number.
    pub fn draw<J: Doing>(&mut self) -> u64
        requires may { (self.old.seat.me.0.own ≡ None) × (self.old.seat.me.0.used_up ≡ false) }
        ensures view { self.new.seat.me.0 ≡ drew self.old.seat.me.0 J.asks result }
        ensures same { self.new.rows ≡ self.old.rows }
    {
        self.rows.draw_as::<J>(&mut self.seat)
    }

    /// A store of a content word of the own number.
    fn write<J: Doing>(&mut self, number: u64, index: u64, entry: u64)
        requires about { (J.number ≡ number) × (J.index ≡ index) }
        requires inside { (number < self.old.rows.now.states) × (index < self.old.rows.now.width) }
        requires own { (self.old.seat.me.0.own ≡ Some number) × (index ≤ length self.old.seat.me.0.draft) }
        ensures view { self.new.seat.me.0 ≡ drafted self.old.seat.me.0 J.asks (content_at self.old.rows.now.table.shared.key number index) index entry }
        ensures same { self.new.rows ≡ self.old.rows }
    {
        let first = 1 + 2 * self.rows.states + self.rows.rows;
        let word = first + number * self.rows.width + index;
        self.rows
            .draft_as::<J>(&mut self.seat, word as usize, entry);
    }

    /// Writes the whole content.
    fn draft<J: Doing>(&mut self, number: u64, items: &[u64])
        requires items { (length items.now ≡ self.old.rows.now.width) × (1 ≤ length items.now) }
        requires own { (number < self.old.rows.now.states) × (self.old.seat.me.0.own ≡ Some number) }
        ensures grown { Grown J.asks self.old.seat.me.0 self.new.seat.me.0 }
        ensures used_up { self.new.seat.me.0.used_up ≡ self.old.seat.me.0.used_up }
        ensures row_full { self.new.seat.me.0.row_full ≡ self.old.seat.me.0.row_full }
        ensures draft { (self.new.seat.me.0.own ≡ Some number) × (self.new.seat.me.0.draft ≡ items.now) }
        ensures few { self.new.seat.me.0.steps ≤ self.old.seat.me.0.steps + length items.now }
        ensures same { self.new.rows ≡ self.old.rows }
    {
        let mut index = 0;
        while index < items.len() {
            self.write::<Brand>(number, index as u64, items[index]);
            index += 1;
        }
    }

    /// The compare-exchange of an intern word.
    fn stand<J: Doing>(&mut self, place: u64, number: u64) -> u64
        requires about { (J.number ≡ number) × (number < 2 ^ 63) }
        requires own { self.old.seat.me.0.own ≡ Some number }
        requires place { (place < 2 * self.old.rows.now.states) × WalkedStates self.old.seat.me.0 self.old.seat.me.0.draft place }
        requires whole { length self.old.seat.me.0.draft ≡ self.old.rows.now.width }
        requires asked { (a : Ask) × In a (self.old.seat.me.0.asked ++ J.asks) × IsMadeOf self.old.rows.now.table.shared.key a self.old.seat.me.0.draft }
        ensures view { self.new.seat.me.0 ≡ stood_as (result == 0) self.old.seat.me.0 J.asks (intern_at place) number result }
        ensures told { NotAll self.old.seat.me.0 (intern_at place) result × Below self.old.seat.me.0 (intern_at place) result × OneContent self.new.seat.me.0 }
        ensures same { self.new.rows ≡ self.old.rows }
    {
        self.rows
            .stand_as::<J>(&mut self.seat, place as usize, number)
    }

    /// Publishes a state under the own number, from the place where its walk ended.
    pub fn publish<J: Doing>(&mut self, number: u64, items: &[u64], place: u64) -> Won
        requires asked { (a : Ask) × In a (self.old.seat.me.0.asked ++ J.asks) × IsMadeOf self.old.rows.now.table.shared.key a items.now }
        requires items { (length items.now ≡ self.old.rows.now.width) × (1 ≤ length items.now) }
        requires walked { (place < 2 * self.old.rows.now.states) × WalkedStates self.old.seat.me.0 items.now place }
        requires own { (self.old.seat.me.0.own ≡ Some number) × (number < self.old.rows.now.states) }
        ensures grown { Grown J.asks self.old.seat.me.0 self.new.seat.me.0 }
        ensures used_up { self.new.seat.me.0.used_up ≡ self.old.seat.me.0.used_up }
        ensures row_full { self.new.seat.me.0.row_full ≡ self.old.seat.me.0.row_full }
        ensures same { self.new.rows ≡ self.old.rows }
        ensures stands { StandsAs self.old.seat.me.0 self.new.seat.me.0 items.now result }
        ensures few { self.new.seat.me.0.steps ≤ self.old.seat.me.0.steps + length items.now + 2 * self.old.rows.now.states * (length items.now + 1) }
    {
        self.draft::<Brand>(number, items);
        let count = 2 * self.rows.states;
        let mut at = place;
        let mut left = count;
        while left > 0 {
            let found = self.stand::<Brand>(at, number);
            if found == 0 {
                return Won::Own(number as u16);
            }
            if !self.differs::<Brand>(found - 1, items) {
                return Won::Lost((found - 1) as u16);
            }
            left -= 1;
            at = if at + 1 == count { 0 } else { at + 1 };
        }
        unreachable!()
    }
}
