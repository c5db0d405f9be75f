//! Walks of a pass over the two rows, each as a call of its own.
ghost use Rattle.std.specs.Prelude.{◌≡◌, ◌+◌, ◌*◌, ◌<◌, ◌≤◌, ◌∷◌, [], length};
ghost use Rattle.sel_rows.specs.Told.{pass_view, told_of_pass, spare_of};
ghost use Rattle.sel_rows.specs.SeenKey.{walk_length, WalksRow, MarksRow};
ghost use Rattle.sel_rows.specs.Calls.{number_of_key, IsReadableKey, ask_of_key, KeepsPass, KeepsMarks, FindsKnownNumber, HasWords, FindsState};

use crate::found::{Found, Seen};
use crate::pass::Pass;
use crate::snapshot::Key;
use crate::words::{home_of_words, put_words};
use sel_items::Items;
use std::marker::Brand;

/// No normal form has more nonterminals.
pub const MOST_WORDS: usize = 512;

/// The number of a key.
pub fn number_of_key(key: Key) -> u64
    ensures { result ≡ number_of_key key }
{
    (3 * key.operator as u64 + key.kids as u64 + 1) * 4_294_967_296
        + key.left as u64 * 65_536
        + key.right as u64
}

impl<'r> Pass<'r> {
    /// Looks a key up in the row of transitions, from its home on: over all words, or over 64 at most where the pass
    /// is marked row full, and at each once. The key counts as asked, where the row has words. It takes no memory.
    pub fn find_transition(&mut self, key: Key) -> Seen
        requires key { IsReadableKey (pass_view self.old) key }
        ensures found { WalksRow (pass_view self.old) (pass_view self.new) (number_of_key key) (ask_of_key (pass_view self.old) key) (told_of_pass self.old).row_full result }
        ensures known { FindsKnownNumber self.old (ask_of_key (pass_view self.old) key) result }
        ensures row_full { MarksRow (told_of_pass self.old).row_full (told_of_pass self.new).row_full result }
        ensures spare { (spare_of self.new ≡ spare_of self.old) × ((told_of_pass self.new).used_up ≡ (told_of_pass self.old).used_up) }
        ensures kept { KeepsPass (ask_of_key (pass_view self.old) key ∷ []) self.old self.new }
        ensures few { (pass_view self.new).steps ≤ (pass_view self.old).steps + walk_length (told_of_pass self.old).row_full (pass_view self.old).setting.rows }
    {
        self.find_key::<Brand>(number_of_key(key))
    }

    /// Looks an item set up in the intern row, from its home on: at each word once at most, with the content of its
    /// number. It takes no memory.
    pub fn find_state(&mut self, items: &Items) -> Found
        requires items { HasWords (told_of_pass self.old).normal items.now }
        ensures found { FindsState (pass_view self.old) (pass_view self.new) items.now result }
        ensures marks { KeepsMarks self.old self.new }
        ensures kept { KeepsPass [] self.old self.new }
        ensures few { (pass_view self.new).steps ≤ (pass_view self.old).steps + 2 * (pass_view self.old).setting.states * (length items.now.entries + 1) }
    {
        self.normal.is_standing();
        if self.hand.rows.states == 0 {
            return Found::Absent { place: 0 };
        }
        let mut room = [0u64; MOST_WORDS];
        let words = &mut room[..items.entries.len()];
        put_words(items, words);
        self.hand.find_state::<Brand>(words, home_of_words(words))
    }
}
