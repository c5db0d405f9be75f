// The rule of the tickets' table: what holds of its word and of all views between any two steps.
ghost use Rattle.std.specs.Prelude.{◌≡◌};
ghost use Rattle.sel_tickets.specs.Rule.{AreTickets, Drew, first_view, left_view, new_view, both_views, spent};

use atomic_table::{Join, Play, Split, TableRule};
use std::collections::LinkedList;

/// What is fixed when the tickets are made: how many numbers are wanted, and for how many workers.
#[derive(Drop)]
pub struct TicketSetting {
    pub trees: u64,
    pub workers: u64,
}

/// What a seat at the table knows: the numbers that it drew, the setting, the seats that were joined
/// into it, and the seats that may still be split from it. No value of it is made.
pub struct TicketView {
    pub drawn: LinkedList<u64>,
    pub trees: u64,
    pub workers: u64,
    pub seats: u64,
    pub rest: u64,
}

pub struct EachOnce;

impl TableRule<(), TicketView, TicketSetting> for EachOnce {
    ghost holds = { λ key s. AreTickets key s.words s.views };

    ghost first = { first_view };
}

/// The step that draws a number.
pub struct Draw;

impl Play<(), TicketView> for Draw {
    ghost then = { λ st m found w. Drew m.0 found w.0 × (w.1 ≡ m.1) };
}

/// The step that splits a seat, or joins two.
pub struct Cut;

impl Split<TicketView> for Cut {
    ghost left = { left_view };

    ghost right = { new_view };
}

impl Join<TicketView> for Cut {
    ghost both = { both_views };

    ghost spent = { spent };
}
