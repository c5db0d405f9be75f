//! Entries of the item sets that labels mean.
ghost use Rattle.std.specs.Prelude.{◌≡◌, ◌<◌, [], Some, slice_get};
ghost use Rattle.std.specs.Option.{option_copied};
ghost use Rattle.sel_items.specs.declared.items.Items.{Items};
ghost use Rattle.sel_items.specs.Entries.{item_at};
ghost use Rattle.sel_rows.specs.Grown.{Grown};
ghost use Rattle.sel_rows.specs.Meanings.{HoldsItems, IsHeld};

use crate::pass::Pass;
use crate::words::entry_at;
use sel_items::{Item, Items, unpack};
use std::marker::Brand;

fn plain_items<'a>(plain: &'a [Items], place: u32) -> Option<&'a Items>
    ensures { option_copied result ≡ slice_get plain.now place }
{
    plain.get(place as usize)
}

/// The entry of an item set that is kept for a plain label.
pub fn plain_item(plain: &[Items], place: u32, nonterminal: u16) -> Option<Item>
    ensures { (i : Items) → slice_get plain.now place ≡ Some i → result ≡ item_at i.entries nonterminal }
{
    match plain_items(plain, place) {
        Some(items) => entry_at(items, nonterminal as usize),
        None => None,
    }
}

impl<'r> Pass<'r> {
    /// The entry of a state that is held.
    pub(crate) fn held_item(&mut self, number: u16, nonterminal: u16) -> Option<Item>
        requires held { (i : Items) × HoldsItems self.old.hand.seat.me.0 number i }
        requires nonterminal { nonterminal < self.old.normal.now.nonterminals }
        ensures entry { (i : Items) → HoldsItems self.old.hand.seat.me.0 number i → result ≡ item_at i.entries nonterminal }
        ensures grown { Grown [] self.old.hand.seat.me.0 self.new.hand.seat.me.0 }
        ensures same { (self.new.hand.seat.me.0.asked ≡ self.old.hand.seat.me.0.asked) × (self.new.hand.seat.me.0.known ≡ self.old.hand.seat.me.0.known) }
        ensures back { (i : Items) → IsHeld self.new.hand.seat.me.0 i → IsHeld self.old.hand.seat.me.0 i }
        ensures kept { (self.new.hand.rows ≡ self.old.hand.rows) × (self.new.normal ≡ self.old.normal) × (self.new.plain.items ≡ self.old.plain.items) × (self.new.row_full ≡ self.old.row_full) × (self.new.used_up ≡ self.old.used_up) × (self.new.spare ≡ self.old.spare) × (self.new.evaluated ≡ self.old.evaluated) }
    {
        let word = self.hand.entry::<Brand>(number as u64, nonterminal as u64);
        unpack(word)
    }
}
