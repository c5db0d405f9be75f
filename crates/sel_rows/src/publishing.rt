//! Draws and publications of a pass, each as a call of its own.
ghost use Rattle.std.specs.Prelude.{◌≡◌, ◌+◌, ◌*◌, ◌<◌, ◌≤◌, length, ◌∷◌, [], ℕ, Some};
ghost use Rattle.sel_rows.specs.Grown.{KeepsHeld};
ghost use Rattle.sel_rows.specs.Told.{pass_view, told_of_pass, spare_of};
ghost use Rattle.sel_rows.specs.Calls.{number_of_key, IsReadableKey, ask_of_key, KeepsPass, HasWords, IsDrawn, IsBehindStates, FollowsFromAsked, StandsFor, IsBehindKeys, IsNumberFor, PlacesKey};

use crate::finding::{MOST_WORDS, number_of_key};
use crate::found::{Draw, Placed, Won};
use crate::pass::Pass;
use crate::snapshot::Key;
use crate::words::{home_of_key, put_words};
use sel_items::Items;
use std::marker::Brand;

impl<'r> Pass<'r> {
    /// The spare number, or one that is drawn. It takes no memory.
    pub fn draw_number(&mut self) -> Draw
        ensures drawn { IsDrawn self.old self.new result }
        ensures row_full { (told_of_pass self.new).row_full ≡ (told_of_pass self.old).row_full }
        ensures held { KeepsHeld (pass_view self.old) (pass_view self.new) }
        ensures kept { KeepsPass [] self.old self.new }
    {
        match self.take_number::<Brand>() {
            Some(number) => Draw::Own(number as u16),
            None => Draw::UsedUp,
        }
    }

    /// Publishes an item set under the spare number, from the place where its walk ended. The number is no longer
    /// spare where it won, and is kept where an equal state was found. It takes no memory.
    pub fn publish_state(&mut self, items: &Items, place: u32) -> Won
        requires spare { (n : ℕ) × (spare_of self.old ≡ Some n) }
        requires items { HasWords (told_of_pass self.old).normal items.now }
        requires follows { FollowsFromAsked (pass_view self.old) items.now }
        requires walked { IsBehindStates (pass_view self.old) items.now place }
        ensures stands { StandsFor self.old self.new items.now result }
        ensures marks { ((told_of_pass self.new).used_up ≡ (told_of_pass self.old).used_up) × ((told_of_pass self.new).row_full ≡ (told_of_pass self.old).row_full) }
        ensures kept { KeepsPass [] self.old self.new }
        ensures few { (pass_view self.new).steps ≤ (pass_view self.old).steps + length items.now.entries + 2 * (pass_view self.old).setting.states * (length items.now.entries + 1) }
    {
        self.normal.is_standing();
        let Some(number) = self.spare else {
            unreachable!()
        };
        let mut room = [0u64; MOST_WORDS];
        let words = &mut room[..items.entries.len()];
        put_words(items, words);
        match self.hand.publish::<Brand>(number, words, place as u64) {
            Won::Own(own) => {
                self.spare = None;
                Won::Own(own)
            }
            Won::Lost(other) => Won::Lost(other),
        }
    }

    /// Publishes a key with its number, from the place where its walk ended: each word is tried once at most. It takes
    /// no memory.
    pub fn publish_transition(&mut self, key: Key, place: u32, number: u16) -> Placed
        requires key { IsReadableKey (pass_view self.old) key }
        requires walked { IsBehindKeys (pass_view self.old) key place }
        requires number { IsNumberFor (pass_view self.old) key number }
        ensures placed { PlacesKey self.old self.new (number_of_key key) (ask_of_key (pass_view self.old) key) result }
        ensures spare { (spare_of self.new ≡ spare_of self.old) × ((told_of_pass self.new).used_up ≡ (told_of_pass self.old).used_up) }
        ensures kept { KeepsPass (ask_of_key (pass_view self.old) key ∷ []) self.old self.new }
        ensures few { (pass_view self.new).steps ≤ (pass_view self.old).steps + (pass_view self.old).setting.rows }
    {
        if self.hand.rows.rows == 0 {
            self.row_full = true;
            return Placed::RowFull;
        }
        let key_number = number_of_key(key);
        let home = home_of_key(key_number);
        match self
            .hand
            .place::<Brand>(key_number, home, place as u64, number as u64)
        {
            Placed::Known(known) => Placed::Known(known),
            Placed::RowFull => {
                self.row_full = true;
                Placed::RowFull
            }
        }
    }
}
