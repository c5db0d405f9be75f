//! Parts of a table: given to passes and taken back, split and joined.
ghost use Rattle.std.specs.Prelude.{◌≡◌, ◌≤◌, [], None};
ghost use Rattle.sel_rows.specs.Told.{standing_of, told_of_pass, evaluated_of, plain_of};
ghost use Rattle.sel_rows.specs.Parts.{PartOf, part_spare, part_used_up, part_row_full, part_evaluated};
ghost use Rattle.sel_rows.specs.Tables.{id_of, setting_of, view_of, IsPartOf, IsPassOf, AreSplit, IsJoined};

use crate::hand::Hand;
use crate::part::PassPart;
use crate::pass::Pass;
use crate::rows::Rows;
use sel_normal::Normal;

impl<'r> Pass<'r> {
    /// A pass over a part of the table. It takes no memory.
    pub fn new(rows: &'r Rows, normal: &'r Normal, part: PassPart) -> Pass<'r>
        requires of { IsPartOf rows.now part }
        requires normal { (setting_of rows.now).normal.value ≡ normal.now }
        ensures standing { standing_of result ≡ record { table = id_of rows.now; setting = setting_of rows.now; seats = (view_of part).seats; rest = (view_of part).rest } }
        ensures part { IsPassOf part result }
        ensures none_plain { plain_of result ≡ [] }
    {
        let PassPart {
            alloc,
            seat,
            spare,
            used_up,
            row_full,
            evaluated,
        } = part;
        Pass {
            alloc,
            hand: Hand {
                rows: &rows.words,
                seat,
            },
            normal,
            spare,
            used_up,
            row_full,
            plain: Vec::new(alloc),
            evaluated,
        }
    }

    /// The part that the pass was over.
    pub fn part(self) -> PassPart
        ensures of { PartOf (standing_of self.entry).table (standing_of self.entry).setting result }
        ensures part { IsPassOf result self.entry }
    {
        let Pass {
            alloc,
            hand,
            normal: _,
            spare,
            used_up,
            row_full,
            plain: _,
            evaluated,
        } = self;
        let Hand { rows: _, seat } = hand;
        PassPart {
            alloc,
            seat,
            spare,
            used_up,
            row_full,
            evaluated,
        }
    }

    /// Whether a draw gave no number.
    pub fn used_up(&self) -> bool
        ensures { result ≡ (told_of_pass self.now).used_up }
    {
        self.used_up
    }

    /// Whether a walk saw every word of the row in use with another key.
    pub fn row_full(&self) -> bool
        ensures { result ≡ (told_of_pass self.now).row_full }
    {
        self.row_full
    }

    /// How many calls of `label` took a step of the counter.
    pub fn evaluated(&self) -> u64
        ensures { result ≡ evaluated_of self.now }
    {
        self.evaluated
    }
}

impl PassPart {
    /// The old part, and a new one that has seen the same.
    pub fn split(self, rows: &Rows) -> (PassPart, PassPart)
        requires of { IsPartOf rows.now self }
        requires no_number { part_spare self ≡ None }
        requires left { 1 ≤ (view_of self).rest }
        ensures of { IsPartOf rows.now result.0 × IsPartOf rows.now result.1 }
        ensures split { AreSplit self result.0 result.1 }
    {
        let PassPart {
            alloc,
            mut seat,
            spare,
            used_up,
            row_full,
            evaluated,
        } = self;
        let new = rows.words.split(&mut seat);
        (
            PassPart {
                alloc,
                seat,
                spare,
                used_up,
                row_full,
                evaluated,
            },
            PassPart {
                alloc,
                seat: new,
                spare: None,
                used_up,
                row_full,
                evaluated: 0,
            },
        )
    }

    /// One part with the seats of both. The other's spare number is given up.
    pub fn join(self, other: PassPart, rows: &Rows) -> PassPart
        requires of { IsPartOf rows.now self × IsPartOf rows.now other }
        ensures of { IsPartOf rows.now result }
        ensures joined { IsJoined self other result }
    {
        let PassPart {
            alloc,
            mut seat,
            spare,
            used_up,
            row_full,
            evaluated,
        } = self;
        let PassPart {
            alloc: _,
            seat: second,
            spare: _,
            used_up: second_used_up,
            row_full: second_row_full,
            evaluated: second_evaluated,
        } = other;
        rows.words.join(&mut seat, second);
        PassPart {
            alloc,
            seat,
            spare,
            used_up: used_up || second_used_up,
            row_full: row_full || second_row_full,
            evaluated: evaluated.saturating_add(second_evaluated),
        }
    }

    /// Whether a draw gave no number.
    pub fn used_up(&self) -> bool
        ensures { result ≡ part_used_up self.now }
    {
        self.used_up
    }

    /// Whether a walk saw every word of the row in use with another key.
    pub fn row_full(&self) -> bool
        ensures { result ≡ part_row_full self.now }
    {
        self.row_full
    }

    /// How many calls of `label` took a step of the counter.
    pub fn evaluated(&self) -> u64
        ensures { result ≡ part_evaluated self.now }
    {
        self.evaluated
    }
}
