// Tickets and those who draw them.
ghost use Rattle.std.specs.Prelude.{◌≡◌, ℕ, ◌-◌, ◌<◌, ◌≤◌, IfOk, IfSome, IfNone, length};
ghost use Rattle.sel_tickets.specs.Sums.{times, one_if_below};
ghost use Rattle.sel_tickets.specs.Tickets.{new_drawn, joined, with_number, with_end};

use crate::rule::{Cut, Draw, EachOnce, TicketSetting, TicketView};
use atomic_table::{Seat, Table};
use sel_base::NoMemory;
use std::alloc::Global;
use std::marker::Model;

/// Numbers for so many trees, which so many workers draw from one word.
#[derive(Drop)]
pub struct Tickets {
    table: Table<(), TicketView, TicketSetting, EachOnce, Global>,
    trees: u32,
}

impl Model for Tickets {
    ghost use Rattle.std.specs.Prelude.{◌≡◌};
    ghost use Rattle.sel_tickets.specs.Tickets.{Roll};

    ghost Value = { Roll };

    ghost view = { λ t. record { id = t.table.shared.table_id; trees = t.trees; workers = t.table.shared.key.workers } };

    ghost invariant = { λ t. (t.table.shared.table_id.words ≡ 1) × (t.table.shared.table_id.slots ≡ 0) × (t.table.shared.key.trees ≡ t.trees) };
}

/// The right to draw: of one worker, or of all that were joined into it.
#[derive(Drop)]
pub struct Drawer {
    seat: Seat<(), TicketView>,
}

impl Model for Drawer {
    ghost use Rattle.std.specs.Prelude.{◌≡◌, ◌≤◌, []};
    ghost use Rattle.sel_tickets.specs.Sums.{below, late_in};
    ghost use Rattle.sel_tickets.specs.Tickets.{Drawn};

    ghost Value = { Drawn };

    ghost view = { λ d. record {
      of = record { id = d.seat.table_id; trees = d.seat.me.0.trees; workers = d.seat.me.0.workers };
      numbers = below d.seat.me.0.trees d.seat.me.0.drawn;
      ended = late_in d.seat.me.0.trees d.seat.me.0.drawn;
      seats = d.seat.me.0.seats;
      rest = d.seat.me.0.rest;
    } };

    ghost invariant = { λ d. (d.seat.me.1 ≡ []) × (1 ≤ d.seat.me.0.seats) };
}

impl Tickets {
    /// Makes the tickets, of which none is drawn, and a drawer from which all others are split.
    pub fn new(alloc: Global, trees: u32, workers: u32) -> Result<(Tickets, Drawer), NoMemory>
        requires { 1 ≤ workers }
        ensures tickets { IfOk result (λ t. (t.0.trees ≡ trees) × (t.0.workers ≡ workers)) }
        ensures drawer { IfOk result (λ t. t.1 ≡ new_drawn t.0 (workers - 1)) }
    {
        let setting = TicketSetting {
            trees: trees as u64,
            workers: workers as u64,
        };
        let (table, seat) = Table::of_words(alloc, &[0], &setting)?;
        Ok((Tickets { table, trees }, Drawer { seat }))
    }

    /// Splits a drawer for one worker off. It has drawn nothing, and none can be split from it.
    pub fn split(&self, drawer: &mut Drawer) -> Drawer
        requires of { drawer.old.of ≡ self.now }
        requires left { 1 ≤ drawer.old.rest }
        ensures left { drawer.new ≡ record drawer.old { rest = drawer.old.rest - 1 } }
        ensures new { result ≡ new_drawn self.now 0 }
    {
        let seat = self.table.shared.split_seat::<Cut>(&mut drawer.seat);
        Drawer { seat }
    }

    /// Joins another drawer into one.
    pub fn join(&self, drawer: &mut Drawer, other: Drawer)
        requires of { (drawer.old.of ≡ self.now) × (other.of ≡ self.now) }
        ensures { drawer.new ≡ joined drawer.old other }
    {
        let Drawer { seat } = other;
        self.table.shared.join_seat::<Cut>(&mut drawer.seat, seat);
    }

    /// Draws the next number. None where it is no tree's; then the drawer draws no more for this worker.
    pub fn draw(&self, drawer: &mut Drawer) -> Option<u32>
        requires of { drawer.old.of ≡ self.now }
        requires more { drawer.old.ended < drawer.old.seats }
        ensures number { IfSome result (λ n. drawer.new ≡ with_number drawer.old n) }
        ensures tree { IfSome result (λ n. (n < self.now.trees) × (length drawer.old.numbers ≤ n)) }
        ensures end { IfNone result (drawer.new ≡ with_end drawer.old) }
    {
        let number = self.table.shared.fetch_add::<Draw>(&mut drawer.seat, 0, 1);
        if number < self.trees as u64 {
            Some(number as u32)
        } else {
            None
        }
    }

    /// With every drawer joined into one, of which some worker has ended: each number below the count of trees was drawn once.
    pub fn close(self, drawer: Drawer)
        requires of { drawer.of ≡ self }
        requires whole { drawer.seats ≡ self.workers }
        requires ended { 1 ≤ drawer.ended }
        ensures { (x : ℕ) → times x drawer.numbers ≡ one_if_below x self.trees }
    {
        let Tickets { table, .. } = self;
        let Drawer { seat } = drawer;
        let closed = table.close_with(seat);
        closed.free();
    }
}
