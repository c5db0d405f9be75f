//! The item set of a node by its kids', and numbers for it.
ghost use Rattle.std.specs.Prelude.{◌≡◌, ◌<◌, ◌≤◌, ◌^◌, ◌++◌, ◌∷◌, [], ℕ, List, Some, None, length, true, false, IfOk, OnErr, MatchOption};
ghost use Rattle.sel_items.specs.declared.items.Items.{Items};
ghost use Rattle.sel_items.specs.declared.label.Label.{Label};
ghost use Rattle.sel_items.specs.Follows.{key_of, Follows};
ghost use Rattle.sel_items.specs.Labels.{KidsAre, AreKidSets, IsClassOver};
ghost use Rattle.sel_law.specs.Words.{In, IsMadeOf};
ghost use Rattle.sel_law.specs.Kinds.{HasContent};
ghost use Rattle.sel_rows.specs.Grown.{Grown, KeepsOwn, KeepsHeld};
ghost use Rattle.sel_rows.specs.Counts.{CountsSteps};
ghost use Rattle.sel_rows.specs.Meanings.{Means};
ghost use Rattle.sel_rows.specs.FoundState.{HoldsContent, IsMissed};

use crate::found::{Found, Won};
use crate::kids::kid_of;
use crate::pass::Pass;
use crate::words::home_of_words;
use sel_base::{NoMemory, Steps};
use sel_items::{Items, Label, evaluate};
use sel_law::Doing;
use std::alloc::Global;
use std::sync::ledger::Ledger;

impl<'r> Pass<'r> {
    /// The item set of a node over its kids' labels.
    pub(crate) fn evaluate_kids<J: Doing, L: Ledger>(
        &mut self,
        alloc: Global,
        operator: u8,
        class: u16,
        kids: (Option<Label>, Option<Label>),
        steps: &mut Steps<L>,
    ) -> Result<Items, NoMemory>
        requires kids { (is : List Items) × KidsAre (Means self.old.hand.seat.me.0 self.old.plain.items) kids.0 kids.1 is × AreKidSets self.old.normal.now is }
        requires class { IsClassOver self.old.normal.now class kids.0 }
        ensures grown { Grown J.asks self.old.hand.seat.me.0 self.new.hand.seat.me.0 }
        ensures own { KeepsOwn self.old.hand.seat.me.0 self.new.hand.seat.me.0 }
        ensures kept { (self.new.hand.rows ≡ self.old.hand.rows) × (self.new.normal ≡ self.old.normal) }
        ensures lists { (self.new.plain.items ≡ self.old.plain.items) × (self.new.row_full ≡ self.old.row_full) }
        ensures follows { IfOk result (λ i. (is : List Items) → KidsAre (Means self.old.hand.seat.me.0 self.old.plain.items) kids.0 kids.1 is → Follows self.old.normal.now (key_of operator class is) i) }
        ensures counted { CountsSteps self.old.evaluated self.new.evaluated steps.old steps.new }
        ensures steps { steps.old ≤ steps.new }
    {
        let (first_read, second_read) = self.hand.read_kids::<J>(alloc, kids)?;
        self.evaluated = self.evaluated.saturating_add(1);
        let first = kid_of(kids.0, &first_read, self.plain.as_slice());
        let second = kid_of(kids.1, &second_read, self.plain.as_slice());
        evaluate(alloc, self.normal, operator, class, first, second, steps)
    }

    /// Keeps the item set of a plain label until the next tree begins.
    pub(crate) fn add_plain(&mut self, items: Items) -> Result<Label, NoMemory>
        requires room { length self.old.plain.items < 2 ^ 32 }
        ensures kept { (self.new.hand ≡ self.old.hand) × (self.new.normal ≡ self.old.normal) × (self.new.row_full ≡ self.old.row_full) × (self.new.used_up ≡ self.old.used_up) × (self.new.evaluated ≡ self.old.evaluated) × (self.new.spare ≡ self.old.spare) }
        ensures ok { IfOk result (λ l. (l ≡ Label.Plain (length self.old.plain.items)) × (self.new.plain.items ≡ self.old.plain.items ++ items ∷ [])) }
        ensures err { OnErr result (self.new.plain.items ≡ self.old.plain.items) }
    {
        let place = self.plain.len();
        self.plain.push(items)?;
        Ok(Label::Plain(place as u32))
    }

    /// The spare number, or one that is drawn.
    pub(crate) fn take_number<J: Doing>(&mut self) -> Option<u64>
        ensures grown { Grown J.asks self.old.hand.seat.me.0 self.new.hand.seat.me.0 }
        ensures kept { (self.new.hand.rows ≡ self.old.hand.rows) × (self.new.normal ≡ self.old.normal) }
        ensures lists { (self.new.plain.items ≡ self.old.plain.items) × (self.new.row_full ≡ self.old.row_full) }
        ensures held { KeepsHeld self.old.hand.seat.me.0 self.new.hand.seat.me.0 }
        ensures evaluated { self.new.evaluated ≡ self.old.evaluated }
        ensures number { MatchOption result ((self.new.used_up ≡ true) × (self.old.spare ≡ None) × (self.new.spare ≡ None)) (λ n. (self.new.spare ≡ Some n)) }
        ensures spare { (n : ℕ) → self.old.spare ≡ Some n → self.new ≡ self.old }
        ensures marked { self.old.used_up ≡ true → self.new ≡ self.old }
        ensures drawn { MatchOption result (Unit {0}) (λ n. (self.new.used_up ≡ self.old.used_up) × (self.old.spare ≡ None → self.old.used_up ≡ false)) }
    {
        if self.spare.is_some() {
            return self.spare;
        }
        if self.used_up {
            return None;
        }
        let found = self.hand.draw::<J>();
        if found < self.hand.rows.states {
            self.spare = Some(found);
        } else {
            self.used_up = true;
        }
        self.spare
    }

    /// The number of a state with this content, where one can be had.
    pub(crate) fn intern<J: Doing>(&mut self, words: &[u64]) -> Option<u64>
        requires asked { In J.ask J.asks × IsMadeOf self.old.hand.rows.now.table.shared.key J.ask words.now }
        requires long { length words.now ≡ self.old.hand.rows.now.width }
        ensures grown { Grown J.asks self.old.hand.seat.me.0 self.new.hand.seat.me.0 }
        ensures kept { (self.new.hand.rows ≡ self.old.hand.rows) × (self.new.normal ≡ self.old.normal) }
        ensures lists { (self.new.plain.items ≡ self.old.plain.items) × (self.new.row_full ≡ self.old.row_full) }
        ensures evaluated { self.new.evaluated ≡ self.old.evaluated }
        ensures only { (n : ℕ) → 1 ≤ self.old.hand.rows.now.states → HasContent self.old.hand.seat.me.0 n words.now → result ≡ Some n }
        ensures number { MatchOption result ((self.new.used_up ≡ true) × (self.old.spare ≡ None) × IsMissed self.old.hand.seat.me.0 words.now self.new.hand.seat.me.0 × (self.new.spare ≡ None)) (λ n. HoldsContent self.new.hand.seat.me.0 words.now n × In J.ask self.new.hand.seat.me.0.asked) }
    {
        if self.hand.rows.states == 0 {
            let _number = self.take_number::<J>();
            return None;
        }
        match self.hand.find_state::<J>(words, home_of_words(words)) {
            Found::Number(number) => Some(number as u64),
            Found::Absent { place } => {
                let number = self.take_number::<J>()?;
                match self.hand.publish::<J>(number, words, place as u64) {
                    Won::Own(number) => {
                        self.spare = None;
                        Some(number as u64)
                    }
                    Won::Lost(number) => Some(number as u64),
                }
            }
        }
    }
}
