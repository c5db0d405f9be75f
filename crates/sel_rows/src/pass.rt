//! A worker's pass over the shared table.
ghost use Rattle.std.specs.Prelude.{◌≡◌, ◌≤◌, ◌<◌, ℕ, true, Some};

use crate::hand::Hand;
use sel_items::Items;
use sel_normal::Normal;
use std::alloc::Global;

/// A worker's pass: a seat at the table, and what the worker keeps for itself.
#[derive(Drop)]
pub struct Pass<'r> {
    pub(crate) alloc: Global,
    pub(crate) hand: Hand<'r>,
    pub(crate) normal: &'r Normal,
    pub(crate) spare: Option<u64>,
    pub(crate) used_up: bool,
    pub(crate) row_full: bool,
    pub(crate) plain: Vec<Items>,
    pub(crate) evaluated: u64,
    pub ghost normal_is: { hand.rows.now.table.shared.key.normal.value ≡ normal.now },
    pub ghost spare_is: { hand.seat.me.0.own ≡ spare },
    pub ghost low: { (n : ℕ) → spare ≡ Some n → n < hand.rows.now.states },
    pub ghost marked: { hand.seat.me.0.used_up ≡ used_up },
    pub ghost filled: { hand.seat.me.0.row_full ≡ true → row_full ≡ true },
    pub ghost full_by: { row_full ≡ true → 1 ≤ hand.rows.now.rows → hand.seat.me.0.row_full ≡ true },
}
