//! What is left of a pass between its times.
ghost use Rattle.std.specs.Prelude.{◌≡◌, ◌≤◌, ◌<◌, ℕ, [], true, Some};

use sel_law::Worker;
use std::alloc::Global;

/// A seat of the table, and what its worker keeps from one pass to the next.
#[derive(Drop)]
pub struct PassPart {
    pub(crate) alloc: Global,
    pub(crate) seat: Worker,
    pub(crate) spare: Option<u64>,
    pub(crate) used_up: bool,
    pub(crate) row_full: bool,
    pub(crate) evaluated: u64,
    pub ghost idle: { seat.me.1 ≡ [] },
    pub ghost seated: { 1 ≤ seat.me.0.seats },
    pub ghost spare_is: { seat.me.0.own ≡ spare },
    pub ghost low: { (n : ℕ) → spare ≡ Some n → n < seat.me.0.setting.states },
    pub ghost marked: { seat.me.0.used_up ≡ used_up },
    pub ghost filled: { seat.me.0.row_full ≡ true → row_full ≡ true },
    pub ghost full_by: { row_full ≡ true → 1 ≤ seat.me.0.setting.rows → seat.me.0.row_full ≡ true },
}
