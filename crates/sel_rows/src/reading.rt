//! The states and transitions that the words of a closed table say.
ghost use Rattle.std.specs.Prelude.{◌≡◌, ◌≢◌, ℕ, ◌+◌, ◌*◌, ◌<◌, ◌≤◌, ◌^◌, List, length, slice_index, IfOk};
ghost use Rattle.sel_law.specs.Words.{read, intern_at, items_of, key_of, IsKey};
ghost use Rattle.sel_rows.specs.Snapshots.{key_by, transitions_in};
ghost use Rattle.sel_rows.specs.Numbered.{AreByNumber, states_in};

use crate::snapshot::{Key, State, Transition};
use sel_base::{List, NoMemory};
use sel_items::{Items, unpack};
use std::alloc::Global;

/// The key of a transition word.
fn key_of_word(word: u64) -> Key
    requires { IsKey (key_of word) }
    ensures { result ≡ key_by (key_of word) }
{
    let key = word / 65_536;
    let upper = key / 4_294_967_296 - 1;
    Key {
        operator: (upper / 3) as u8,
        kids: (upper % 3) as u8,
        left: (key / 65_536 % 65_536) as u16,
        right: (key % 65_536) as u16,
    }
}

/// The transitions of the words in use, in their order.
pub fn read_transitions(
    alloc: Global,
    words: &[u64],
    first: usize,
    rows: usize,
) -> Result<List<Transition>, NoMemory>
    requires inside { first + rows ≤ length words.now }
    requires keys { (q : ℕ) → q < rows → slice_index words.now (first + q) ≢ 0 → IsKey (key_of (slice_index words.now (first + q))) }
    ensures { IfOk result (λ ts. ts ≡ transitions_in (read words.now first rows)) }
{
    let mut transitions = Vec::new(alloc);
    for place in 0..rows {
        let word = words[first + place];
        if word == 0 {
            continue;
        }
        transitions.push(Transition {
            key: key_of_word(word),
            number: (word % 65_536) as u16,
        })?;
    }
    Ok(List::from_vec(transitions))
}

/// The item set that content words say.
fn read_content(alloc: Global, words: &[u64], first: usize, width: usize) -> Result<Items, NoMemory>
    requires inside { first + width ≤ length words.now }
    ensures { IfOk result (λ i. i ≡ items_of (read words.now first width)) }
{
    let mut entries = Vec::new(alloc);
    for index in 0..width {
        entries.push(unpack(words[first + index]))?;
    }
    Ok(Items {
        entries: List::from_vec(entries),
    })
}

/// The intern words, each at the place of its number.
pub fn order_by_number(alloc: Global, words: &[u64], states: usize) -> Result<Vec<u64>, NoMemory>
    requires inside { 1 + 2 * states ≤ length words.now }
    requires below { (p : ℕ) → p < 2 * states → slice_index words.now (intern_at p) ≤ states }
    requires apart { (p q : ℕ) → p < 2 * states → q < 2 * states → slice_index words.now (intern_at p) ≢ 0 → slice_index words.now (intern_at p) ≡ slice_index words.now (intern_at q) → p ≡ q }
    ensures { IfOk result (λ v. AreByNumber words.now states (2 * states) v.items) }
{
    let mut found = vec![in alloc; 0u64; states]?;
    for place in 0..2 * states {
        let word = words[1 + place];
        if word == 0 {
            continue;
        }
        found[word as usize - 1] = word;
    }
    Ok(found)
}

/// The states of the numbers whose places are in use.
pub fn read_states(
    alloc: Global,
    words: &[u64],
    found: &[u64],
    first: usize,
    width: usize,
) -> Result<List<State>, NoMemory>
    requires small { length found.now < 2 ^ 16 }
    requires inside { first + length found.now * width ≤ length words.now }
    ensures { IfOk result (λ s. s ≡ states_in (λ n. read words.now (first + n * width) width) 0 found.now) }
{
    let mut states = Vec::new(alloc);
    for number in 0..found.len() {
        if found[number] == 0 {
            continue;
        }
        let items = read_content(alloc, words, first + number * width, width)?;
        states.push(State {
            number: number as u16,
            items,
        })?;
    }
    Ok(List::from_vec(states))
}
