//! How a pass labels a node.
ghost use Rattle.std.specs.Prelude.{◌≡◌, ◌+◌, ◌<◌, ◌≤◌, ◌^◌, ℕ, List, Some, None, Ok, true, IfOk};
ghost use Rattle.sel_items.specs.declared.label.Label.{Label};
ghost use Rattle.sel_items.specs.Automata.{MayLabel};
ghost use Rattle.sel_law.specs.Words.{In, IsKey, IsMadeOf};
ghost use Rattle.sel_law.specs.Kinds.{HeldKey, HeldNumber, HeldWhole};
ghost use Rattle.sel_rows.specs.Grown.{Grown};
ghost use Rattle.sel_rows.specs.Held.{held_ask};
ghost use Rattle.sel_rows.specs.Keys.{key_number};
ghost use Rattle.sel_rows.specs.Meanings.{KnowsKey};
ghost use Rattle.sel_rows.specs.SeenKey.{walk_length, WalksRow, IsSeen, FindsOwn, FindsNoOther, MarksRow, LooksMarked};
ghost use Rattle.sel_rows.specs.Told.{told_of_pass};
ghost use Rattle.sel_rows.specs.Answers.{GrownFor, IsNodeKey, LeavesPass, LabelsNode, IsPublished, AnswersKnown, PlainCause, IsTabledAs};

use crate::found::{Placed, Seen};
use crate::kids::key_number;
use crate::pass::Pass;
use crate::words::{home_of_key, words_of};
use sel_base::{NoMemory, Steps};
use sel_items::laws::{entries_have_rules, follows_is_one};
use sel_items::{Label, fits};
use sel_law::Doing;
use std::alloc::Global;
use std::marker::Brand;
use std::sync::ledger::Ledger;

// of a marked pass, whose row has no free word
const MARKED_WALK: u64 = 64;

impl<'r> Pass<'r> {
    /// How many words of the row a walk looks at before it gives up.
    fn walk_length(&self) -> u64
        ensures { result ≡ walk_length self.now.row_full self.now.hand.rows.now.rows }
    {
        if self.row_full {
            self.hand.rows.rows.min(MARKED_WALK)
        } else {
            self.hand.rows.rows
        }
    }

    /// Looks the key up. A row without words is full.
    pub(crate) fn find_key<J: Doing>(&mut self, key: u64) -> Seen
        requires key { (J.key ≡ key) × IsKey key × HeldKey self.old.hand.seat.me.0 key J.ask × In J.ask J.asks }
        ensures grown { Grown J.asks self.old.hand.seat.me.0 self.new.hand.seat.me.0 }
        ensures kept { (self.new.hand.rows ≡ self.old.hand.rows) × (self.new.normal ≡ self.old.normal) × (self.new.spare ≡ self.old.spare) × (self.new.evaluated ≡ self.old.evaluated) × (self.new.used_up ≡ self.old.used_up) }
        ensures plain { self.new.plain.items ≡ self.old.plain.items }
        ensures row_full { self.old.row_full ≡ true → self.new.row_full ≡ true }
        ensures seen { IsSeen self.new.hand.seat.me.0 key J.ask self.new.row_full result }
        ensures known { FindsOwn self.old.hand.seat.me.0 J.ask self.old.row_full result }
        ensures walked { WalksRow self.old.hand.seat.me.0 self.new.hand.seat.me.0 key J.ask self.old.row_full result }
        ensures no_other { (n : ℕ) → In (J.ask, n) self.old.hand.seat.me.0.known → 1 ≤ self.old.hand.seat.me.0.setting.rows → FindsNoOther n result }
        ensures marks { MarksRow self.old.row_full self.new.row_full result }
        ensures few { self.new.hand.seat.me.0.steps ≤ self.old.hand.seat.me.0.steps + walk_length self.old.row_full self.old.hand.rows.now.rows }
    {
        if self.hand.rows.rows == 0 {
            self.row_full = true;
            return Seen::Full;
        }
        let most = self.walk_length();
        match self.hand.walk::<J>(key, home_of_key(key), most) {
            Seen::Number(number) => Seen::Number(number),
            Seen::Absent { place } => Seen::Absent { place },
            Seen::Full => {
                self.row_full = true;
                Seen::Full
            }
        }
    }

    /// Puts the key with its number into the row, from where its walk ended.
    fn publish_key<J: Doing>(&mut self, key: u64, seen: Seen, number: u64) -> u64
        requires key { (J.key ≡ key) × IsKey key × (key < 2 ^ 48) × HeldKey self.old.hand.seat.me.0 key J.ask × In J.ask J.asks }
        requires walked { IsSeen self.old.hand.seat.me.0 key J.ask self.old.row_full seen }
        requires missed { (n : ℕ) → seen ≡ Seen.Number n → ⊥ }
        requires number { (number < self.old.hand.rows.now.states) × HeldNumber self.old.hand.seat.me.0 number × ((c : List ℕ) × HeldWhole self.old.hand.seat.me.0 number c × IsMadeOf self.old.hand.rows.now.table.shared.key J.ask c) }
        ensures grown { Grown J.asks self.old.hand.seat.me.0 self.new.hand.seat.me.0 }
        ensures kept { (self.new.hand.rows ≡ self.old.hand.rows) × (self.new.normal ≡ self.old.normal) × (self.new.evaluated ≡ self.old.evaluated) }
        ensures plain { self.new.plain.items ≡ self.old.plain.items }
        ensures row_full { self.old.row_full ≡ true → self.new.row_full ≡ true }
        ensures number { IsPublished self.new.hand.seat.me.0 J.ask self.new.row_full number result }
        ensures unplaced { seen ≡ Seen.Full → result ≡ number }
    {
        match seen {
            Seen::Absent { place } => {
                match self
                    .hand
                    .place::<Brand>(key, home_of_key(key), place as u64, number)
                {
                    Placed::Known(known) => known as u64,
                    Placed::RowFull => {
                        self.row_full = true;
                        number
                    }
                }
            }
            Seen::Full => number,
            Seen::Number(_) => unreachable!(),
        }
    }
}

impl<'r> Pass<'r> {
    /// The label of a node over a plain kid.
    fn answer_over_plain<J: Doing, L: Ledger>(
        &mut self,
        alloc: Global,
        operator: u8,
        class: u16,
        kids: (Option<Label>, Option<Label>),
        steps: &mut Steps<L>,
    ) -> Result<Label, NoMemory>
        requires may { MayLabel (told_of_pass self.old) operator class kids.0 kids.1 }
        requires plain { key_number operator class kids.0 kids.1 ≡ None }
        ensures grown { Grown J.asks self.old.hand.seat.me.0 self.new.hand.seat.me.0 }
        ensures left { LeavesPass self.old self.new result steps.old steps.new }
        ensures labelled { LabelsNode self.old self.new operator class kids.0 kids.1 result }
    {
        let items = self.evaluate_kids::<J, L>(alloc, operator, class, kids, steps)?;
        self.add_plain(items)
    }

    /// The label of a node whose key wasn't found.
    fn answer_missed<J: Doing, L: Ledger>(
        &mut self,
        alloc: Global,
        operator: u8,
        class: u16,
        kids: (Option<Label>, Option<Label>),
        key: u64,
        seen: Seen,
        steps: &mut Steps<L>,
    ) -> Result<Label, NoMemory>
        requires may { MayLabel (told_of_pass self.old) operator class kids.0 kids.1 }
        requires doing { (J.key ≡ key) × In J.ask J.asks }
        requires node { IsNodeKey self.old key J.ask operator class kids.0 kids.1 }
        requires walked { IsSeen self.old.hand.seat.me.0 key J.ask self.old.row_full seen }
        requires missed { (n : ℕ) → seen ≡ Seen.Number n → ⊥ }
        ensures grown { Grown J.asks self.old.hand.seat.me.0 self.new.hand.seat.me.0 }
        ensures left { LeavesPass self.old self.new result steps.old steps.new }
        ensures labelled { LabelsNode self.old self.new operator class kids.0 kids.1 result }
        ensures published { IsTabledAs self.new.hand.seat.me.0 J.ask self.new.row_full result }
        ensures cause { PlainCause self.old.hand.seat.me.0 self.old.spare self.old.hand.rows.now.table.shared.key J.ask self.new.used_up self.new.hand.seat.me.0 result }
        ensures known { (n : ℕ) → KnowsKey self.old.hand.seat.me.0 J.ask n → seen ≡ Seen.Full → IfOk result (λ l. l ≡ Label.Numbered n) }
    {
        follows_is_one();
        let items = self.evaluate_kids::<J, L>(alloc, operator, class, kids, steps)?;
        if !fits(&items) {
            return self.add_plain(items);
        }
        self.normal.is_standing();
        entries_have_rules();
        let words = words_of(alloc, &items)?;
        match self.intern::<J>(words.as_slice()) {
            None => self.add_plain(items),
            Some(number) => {
                let known = self.publish_key::<J>(key, seen, number);
                Ok(Label::Numbered(known as u16))
            }
        }
    }

    /// The label of a node over numbered kids or none.
    fn answer_over_numbers<J: Doing, L: Ledger>(
        &mut self,
        alloc: Global,
        operator: u8,
        class: u16,
        kids: (Option<Label>, Option<Label>),
        key: u64,
        steps: &mut Steps<L>,
    ) -> Result<Label, NoMemory>
        requires may { MayLabel (told_of_pass self.old) operator class kids.0 kids.1 }
        requires doing { (J.key ≡ key) × In J.ask J.asks }
        requires node { IsNodeKey self.old key J.ask operator class kids.0 kids.1 }
        ensures grown { Grown J.asks self.old.hand.seat.me.0 self.new.hand.seat.me.0 }
        ensures left { LeavesPass self.old self.new result steps.old steps.new }
        ensures labelled { LabelsNode self.old self.new operator class kids.0 kids.1 result }
        ensures hit { AnswersKnown self.old self.new J.ask result steps.old steps.new }
        ensures published { IsTabledAs self.new.hand.seat.me.0 J.ask self.new.row_full result }
        ensures cause { PlainCause self.old.hand.seat.me.0 self.old.spare self.old.hand.rows.now.table.shared.key J.ask self.new.used_up self.new.hand.seat.me.0 result }
        ensures known { (n : ℕ) → KnowsKey self.old.hand.seat.me.0 J.ask n → IfOk result (λ l. l ≡ Label.Numbered n) }
        ensures looked { LooksMarked self.old.hand.seat.me.0 self.new.hand.seat.me.0 key J.ask self.old.row_full }
    {
        let seen = self.find_key::<J>(key);
        match seen {
            Seen::Number(number) => Ok(Label::Numbered(number)),
            _ => self.answer_missed::<J, L>(alloc, operator, class, kids, key, seen, steps),
        }
    }

    /// The label of a node.
    pub(crate) fn answer<L: Ledger>(
        &mut self,
        alloc: Global,
        operator: u8,
        class: u16,
        kids: (Option<Label>, Option<Label>),
        steps: &mut Steps<L>,
    ) -> Result<Label, NoMemory>
        requires may { MayLabel (told_of_pass self.old) operator class kids.0 kids.1 }
        ensures grown { GrownFor self.old.hand.seat.me.0 self.old.plain.items operator class kids.0 kids.1 self.new.hand.seat.me.0 }
        ensures left { LeavesPass self.old self.new result steps.old steps.new }
        ensures labelled { LabelsNode self.old self.new operator class kids.0 kids.1 result }
        ensures hit { (x : ℕ) → key_number operator class kids.0 kids.1 ≡ Some x → AnswersKnown self.old self.new (held_ask self.old.hand.seat.me.0 x) result steps.old steps.new }
        ensures published { (x : ℕ) → key_number operator class kids.0 kids.1 ≡ Some x → IsTabledAs self.new.hand.seat.me.0 (held_ask self.old.hand.seat.me.0 x) self.new.row_full result }
        ensures cause { (x : ℕ) → key_number operator class kids.0 kids.1 ≡ Some x → PlainCause self.old.hand.seat.me.0 self.old.spare self.old.hand.rows.now.table.shared.key (held_ask self.old.hand.seat.me.0 x) self.new.used_up self.new.hand.seat.me.0 result }
        ensures known { (x n : ℕ) → key_number operator class kids.0 kids.1 ≡ Some x → KnowsKey self.old.hand.seat.me.0 (held_ask self.old.hand.seat.me.0 x) n → IfOk result (λ l. l ≡ Label.Numbered n) }
        ensures looked { (x : ℕ) → key_number operator class kids.0 kids.1 ≡ Some x → LooksMarked self.old.hand.seat.me.0 self.new.hand.seat.me.0 x (held_ask self.old.hand.seat.me.0 x) self.old.row_full }
    {
        match key_number(operator, class, kids) {
            None => self.answer_over_plain::<Brand, L>(alloc, operator, class, kids, steps),
            Some(key) => self.answer_over_numbers::<Brand, L>(
                alloc, operator, class, kids, key, steps,
            ),
        }
    }
}
