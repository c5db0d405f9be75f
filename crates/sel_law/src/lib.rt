//! A shared table of states and transitions, in words that change by single atomic steps.
#![tactic(auto)]

ghost use Rattle.std.specs.Prelude.{◌≡◌, ◌≢◌, ℕ, ◌+◌, ◌-◌, ◌*◌, ◌<◌, ◌≤◌, List, ℕ, [], ◌∷◌, ◌++◌, length, IfOk, Some, None, false, ◌==◌, ◌^◌};
ghost use Rattle.sel_law.specs.Words.{word_count, intern_at, row_at, content_at, In, IsMadeOf, IsKey, word_of};
ghost use Rattle.std.specs.Slots.{slots_items, slots_len, IsFull};
ghost use Rattle.sel_law.specs.Law.{Lawful, spent, Small, Closes};
ghost use Rattle.sel_law.specs.Kinds.{first_view, seen, drew, drafted, read_entry, stood_as, left_view, new_view, both_views, HeldNumber, HeldWhole, HeldKey, WalkedStates, WalkedRow, looked, placed_as, Tells, TellsStates, NotAll, Below, Learns, OneContent, OneNumber, Stays, Marks};
ghost use Rattle.sel_law.specs.declared.Ask.{Ask};

use atomic_table::{Closed, Join, Play, Seat, Split, Table, TableRule};
use sel_normal::Normal;
use std::alloc::{AllocError, Global};
use std::collections::LinkedList;
use std::marker::{Brand, PhantomData};
use std::snapshot::Snapshot;

/// What is fixed when the table is made.
#[derive(Drop)]
pub struct Setting {
    pub normal: Snapshot<Normal>,
    pub states: u64,
    pub rows: u64,
    pub workers: u64,
    pub width: u64,
}

/// A key by item sets: the operator, and the class or the kids' contents.
pub struct Ask {
    pub operator: u64,
    pub class: u64,
    pub kids: LinkedList<LinkedList<u64>>,
}

/// What a seat knows. No value of it is made.
pub struct View {
    pub setting: Setting,
    pub steps: u64,
    pub last: (u64, u64, u64),
    pub places: LinkedList<(u64, u64)>,
    pub contents: LinkedList<(u64, u64, u64)>,
    pub asked: LinkedList<Ask>,
    pub known: LinkedList<(Ask, u64)>,
    pub own: Option<u64>,
    pub draft: LinkedList<u64>,
    pub seats: u64,
    pub rest: u64,
    pub dropped: u64,
    pub past: u64,
    pub used_up: bool,
    pub row_full: bool,
}

pub struct Law;

impl TableRule<(), View, Setting> for Law {
    ghost holds = { λ key s. Lawful key s.words s.views };

    ghost first = { first_view };
}

/// What a step is told in the proof alone: the keys that it adds to those asked, and what it is about.
pub trait Doing {
    ghost use Rattle.sel_law.specs.declared.Ask.{Ask};
    ghost use Rattle.std.specs.Prelude.{ℕ, List};

    ghost asks: { List Ask };

    ghost number: { ℕ };

    ghost index: { ℕ };

    ghost key: { ℕ };

    ghost ask: { Ask };
}

impl Doing for Brand {
    ghost use Rattle.std.specs.Prelude.{[]};

    ghost asks = { [] };

    ghost number = { 0 };

    ghost index = { 0 };

    ghost key = { 0 };

    ghost ask = { record { operator = 0; class = 0; kids = [] } };
}

pub struct Draws<J> {
    of: PhantomData<J>,
}

impl<J: Doing> Play<(), View> for Draws<J> {
    ghost then = { λ st m found w. (w.0 ≡ drew m.0 J.asks found) × (w.1 ≡ m.1) };
}

pub struct Looks<J> {
    of: PhantomData<J>,
}

impl<J: Doing> Play<(), View> for Looks<J> {
    ghost then = { λ st m found w. (w.0 ≡ seen m.0 J.asks st.word found) × (w.1 ≡ m.1) × NotAll m.0 st.word found × Below m.0 st.word found × TellsStates m.0 st.word found };
}

pub struct Reads<J> {
    of: PhantomData<J>,
}

impl<J: Doing> Play<(), View> for Reads<J> {
    ghost then = { λ st m found w. (w.0 ≡ read_entry m.0 J.asks st.word J.number J.index found) × (w.1 ≡ m.1) × OneContent w.0 × OneNumber w.0 };
}

pub struct Drafts<J> {
    of: PhantomData<J>,
}

impl<J: Doing> Play<(), View> for Drafts<J> {
    ghost then = { λ st m stored w. (w.0 ≡ drafted m.0 J.asks st.word J.index stored) × (w.1 ≡ m.1) };
}

pub struct Stands<J> {
    of: PhantomData<J>,
}

impl<J: Doing> Play<(), View> for Stands<J> {
    ghost then = { λ st m found w. (w.0 ≡ stood_as (found == 0) m.0 J.asks st.word J.number found) × (w.1 ≡ m.1) × NotAll m.0 st.word found × Below m.0 st.word found × OneContent w.0 };
}

pub struct LooksRow<J> {
    of: PhantomData<J>,
}

impl<J: Doing> Play<(), View> for LooksRow<J> {
    ghost then = { λ st m found w. (c : List ℕ) × (w.0 ≡ looked m.0 J.asks J.key J.ask c st.word found) × (w.1 ≡ m.1) × Learns m.0 J.key J.ask c found × OneContent w.0 × Tells m.0 J.key J.ask st.word found × Stays m.0 J.ask w.0 × Marks m.0 J.key found w.0 };
}

pub struct Places<J> {
    of: PhantomData<J>,
}

impl<J: Doing> Play<(), View> for Places<J> {
    ghost then = { λ st m found w. (d : List ℕ) × (w.0 ≡ placed_as (found == 0) m.0 J.asks J.key J.ask d st.word J.number found) × (w.1 ≡ m.1) × Learns m.0 J.key J.ask d found × OneContent w.0 × Marks m.0 J.key found w.0 };
}

pub struct Cut;

impl Split<View> for Cut {
    ghost left = { left_view };

    ghost right = { new_view };
}

impl Join<View> for Cut {
    ghost both = { both_views };

    ghost spent = { spent };
}

pub type Worker = Seat<(), View>;

/// The words of a closed table, in order.
fn copy(alloc: Global, closed: &Closed<(), Global>, count: usize) -> Result<Vec<u64>, AllocError>
    requires { IsFull closed.now.words × (count ≡ slots_len closed.now.words) }
    ensures { IfOk result (λ v. v.items ≡ slots_items closed.now.words) }
{
    let mut words = Vec::with_capacity(alloc, count)?;
    for i in 0..count {
        words.push(closed.word(i))?;
    }
    Ok(words)
}

#[derive(Drop)]
pub struct SharedWords {
    pub(crate) table: Table<(), View, Setting, Law, Global>,
    pub states: u64,
    pub rows: u64,
    pub width: u64,
    pub ghost states_is: { states ≡ table.shared.key.states },
    pub ghost rows_is: { rows ≡ table.shared.key.rows },
    pub ghost small_states: { (states < 2 ^ 16) × (rows < 2 ^ 32) × (width < 2 ^ 16) },
    pub ghost width_is: { width ≡ table.shared.key.width },
    pub ghost some_width: { 1 ≤ width },
    pub ghost some_workers: { 1 ≤ table.shared.key.workers },
    pub ghost width_normal: { width ≡ (table.shared.key.normal.value).nonterminals },
    pub ghost words: { table.shared.table_id.words ≡ word_count table.shared.key },
    pub ghost no_slot: { table.shared.table_id.slots ≡ 0 },
}

impl SharedWords {
    /// The table with all words 0, and the first seat.
    pub fn new(alloc: Global, setting: Setting) -> Result<(SharedWords, Worker), AllocError>
        requires small { Small setting × (1 ≤ setting.workers) × (1 ≤ setting.width) }
        ensures { IfOk result (λ t. (t.1.table_id ≡ t.0.table.shared.table_id) × (t.1.me ≡ (first_view setting, [])) × (t.0.table.shared.key ≡ setting)) }
    {
        let count = 1 + 2 * setting.states + setting.rows + setting.states * setting.width;
        let words = vec![in alloc; 0u64; count as usize]?;
        let (table, seat) = Table::of_words(alloc, words.as_slice(), &setting)?;
        let Setting {
            normal: _,
            states,
            rows,
            workers: _,
            width,
        } = setting;
        Ok((
            SharedWords {
                table,
                states,
                rows,
                width,
            },
            seat,
        ))
    }

    /// The words, with every seat joined into one.
    pub fn close(self, alloc: Global, seat: Worker) -> Result<Vec<u64>, AllocError>
        requires of { seat.table_id ≡ self.table.shared.table_id }
        requires whole { (seat.me.0.seats ≡ self.table.shared.key.workers) × (1 ≤ seat.me.0.seats) }
        ensures { IfOk result (λ v. Closes self.table.shared.key v.items seat.me.0) }
    {
        let SharedWords {
            table,
            states: _,
            rows: _,
            width: _,
        } = self;
        let count = table.word_count();
        let closed = table.close_with(seat);
        let copied = copy(alloc, &closed, count);
        closed.free();
        copied
    }

    pub fn states(&self) -> u64
        ensures { result ≡ self.now.table.shared.key.states }
    {
        self.states
    }

    pub fn split(&self, seat: &mut Worker) -> Worker
        requires of { seat.old.table_id ≡ self.now.table.shared.table_id }
        requires left { (1 ≤ seat.old.me.0.rest) × (1 ≤ seat.old.me.0.seats) × (seat.old.me.0.own ≡ None) }
        ensures old { (seat.new.table_id ≡ seat.old.table_id) × (seat.new.me ≡ (left_view seat.old.me.0, seat.old.me.1)) }
        ensures new { (result.table_id ≡ seat.old.table_id) × (result.me ≡ (new_view seat.old.me.0, [])) }
    {
        self.table.shared.split_seat::<Cut>(seat)
    }

    pub fn join(&self, seat: &mut Worker, other: Worker)
        requires of { (seat.old.table_id ≡ self.now.table.shared.table_id) × (other.table_id ≡ self.now.table.shared.table_id) }
        requires idle { other.me.1 ≡ [] }
        requires seats { (1 ≤ seat.old.me.0.seats) × (1 ≤ other.me.0.seats) }
        ensures { (seat.new.table_id ≡ seat.old.table_id) × (seat.new.me ≡ (both_views seat.old.me.0 other.me.0, seat.old.me.1)) }
    {
        self.table.shared.join_seat::<Cut>(seat, other);
    }

    pub fn draw_as<J: Doing>(&self, seat: &mut Worker) -> u64
        requires of { seat.old.table_id ≡ self.now.table.shared.table_id }
        requires may { (1 ≤ seat.old.me.0.seats) × (seat.old.me.0.own ≡ None) × (seat.old.me.0.used_up ≡ false) }
        ensures { (seat.new.table_id ≡ seat.old.table_id) × (seat.new.me ≡ (drew seat.old.me.0 J.asks result, seat.old.me.1)) }
    {
        self.table.shared.fetch_add::<Draws<J>>(seat, 0, 1)
    }

    /// A load of an intern word.
    pub fn look_as<J: Doing>(&self, seat: &mut Worker, word: usize) -> u64
        requires of { seat.old.table_id ≡ self.now.table.shared.table_id }
        requires word { (1 ≤ word) × (word < row_at self.now.table.shared.key 0) }
        requires seated { 1 ≤ seat.old.me.0.seats }
        ensures { (seat.new.table_id ≡ seat.old.table_id) × (seat.new.me ≡ (seen seat.old.me.0 J.asks word result, seat.old.me.1)) × NotAll seat.old.me.0 word result × Below seat.old.me.0 word result × TellsStates seat.old.me.0 word result }
    {
        self.table.shared.load::<Looks<J>>(seat, word)
    }

    /// A load of a content word.
    pub fn read_as<J: Doing>(&self, seat: &mut Worker, word: usize) -> u64
        requires of { seat.old.table_id ≡ self.now.table.shared.table_id }
        requires word { word ≡ content_at self.now.table.shared.key J.number J.index }
        requires inside { (J.number < self.now.table.shared.key.states) × (J.index < self.now.table.shared.key.width) }
        requires held { HeldNumber seat.old.me.0 J.number × (1 ≤ seat.old.me.0.seats) }
        ensures { (seat.new.table_id ≡ seat.old.table_id) × (seat.new.me ≡ (read_entry seat.old.me.0 J.asks word J.number J.index result, seat.old.me.1)) × OneContent seat.new.me.0 × OneNumber seat.new.me.0 }
    {
        self.table.shared.load::<Reads<J>>(seat, word)
    }

    /// A store of a content word.
    pub fn draft_as<J: Doing>(&self, seat: &mut Worker, word: usize, entry: u64)
        requires of { seat.old.table_id ≡ self.now.table.shared.table_id }
        requires word { word ≡ content_at self.now.table.shared.key J.number J.index }
        requires inside { (J.number < self.now.table.shared.key.states) × (J.index < self.now.table.shared.key.width) }
        requires own { (seat.old.me.0.own ≡ Some J.number) × (J.index ≤ length seat.old.me.0.draft) × (1 ≤ seat.old.me.0.seats) }
        ensures { (seat.new.table_id ≡ seat.old.table_id) × (seat.new.me ≡ (drafted seat.old.me.0 J.asks word J.index entry, seat.old.me.1)) }
    {
        self.table.shared.store::<Drafts<J>>(seat, word, entry);
    }

    /// A compare-exchange of an intern word.
    pub fn stand_as<J: Doing>(&self, seat: &mut Worker, place: usize, number: u64) -> u64
        requires of { seat.old.table_id ≡ self.now.table.shared.table_id }
        requires place { (place < 2 * self.now.table.shared.key.states) × (place < 2 ^ 63) × WalkedStates seat.old.me.0 seat.old.me.0.draft place }
        requires own { (number ≡ J.number) × (number < 2 ^ 63) × (seat.old.me.0.own ≡ Some J.number) × (1 ≤ seat.old.me.0.seats) }
        requires whole { length seat.old.me.0.draft ≡ self.now.table.shared.key.width }
        requires asked { (a : Ask) × In a (seat.old.me.0.asked ++ J.asks) × IsMadeOf self.now.table.shared.key a seat.old.me.0.draft }
        ensures { (seat.new.table_id ≡ seat.old.table_id) × (seat.new.me ≡ (stood_as (result == 0) seat.old.me.0 J.asks (intern_at place) J.number result, seat.old.me.1)) × NotAll seat.old.me.0 (intern_at place) result × Below seat.old.me.0 (intern_at place) result × OneContent seat.new.me.0 }
    {
        self.table
            .shared
            .compare_exchange::<Stands<J>>(seat, 1 + place, 0, number + 1)
    }

    /// A load of a transition word.
    pub fn look_row_as<J: Doing>(&self, seat: &mut Worker, word: usize) -> u64
        requires of { seat.old.table_id ≡ self.now.table.shared.table_id }
        requires word { (q : ℕ) × (q < self.now.table.shared.key.rows) × (word ≡ row_at self.now.table.shared.key q) }
        requires key { IsKey J.key × HeldKey seat.old.me.0 J.key J.ask × In J.ask (seat.old.me.0.asked ++ J.asks) × (1 ≤ seat.old.me.0.seats) }
        ensures { (seat.new.table_id ≡ seat.old.table_id) × ((c : List ℕ) × (seat.new.me ≡ (looked seat.old.me.0 J.asks J.key J.ask c word result, seat.old.me.1)) × Learns seat.old.me.0 J.key J.ask c result) × OneContent seat.new.me.0 × Tells seat.old.me.0 J.key J.ask word result × Stays seat.old.me.0 J.ask seat.new.me.0 × Marks seat.old.me.0 J.key result seat.new.me.0 }
    {
        self.table.shared.load::<LooksRow<J>>(seat, word)
    }

    /// A compare-exchange of a transition word.
    pub fn place_as<J: Doing>(&self, seat: &mut Worker, word: usize, new: u64) -> u64
        requires of { seat.old.table_id ≡ self.now.table.shared.table_id }
        requires word { (q : ℕ) × (q < self.now.table.shared.key.rows) × (word ≡ row_at self.now.table.shared.key q) × WalkedRow seat.old.me.0 J.key q }
        requires key { IsKey J.key × HeldKey seat.old.me.0 J.key J.ask × In J.ask (seat.old.me.0.asked ++ J.asks) × (1 ≤ seat.old.me.0.seats) }
        requires number { (new ≡ word_of J.key J.number) × HeldNumber seat.old.me.0 J.number × ((c : List ℕ) × HeldWhole seat.old.me.0 J.number c × IsMadeOf self.now.table.shared.key J.ask c) }
        ensures { (seat.new.table_id ≡ seat.old.table_id) × ((d : List ℕ) × (seat.new.me ≡ (placed_as (result == 0) seat.old.me.0 J.asks J.key J.ask d word J.number result, seat.old.me.1)) × Learns seat.old.me.0 J.key J.ask d result) × OneContent seat.new.me.0 × Marks seat.old.me.0 J.key result seat.new.me.0 }
    {
        self.table
            .shared
            .compare_exchange::<Places<J>>(seat, word, 0, new)
    }
}
