//! A seat at its table.
ghost use Rattle.std.specs.Prelude.{◌≡◌, ◌≤◌, []};

use sel_law::{SharedWords, Worker};

/// A seat beside the table that it steps on.
#[derive(Drop)]
pub struct Hand<'r> {
    pub rows: &'r SharedWords,
    pub seat: Worker,
    pub ghost of: { seat.table_id ≡ rows.now.table.shared.table_id },
    pub ghost idle: { seat.me.1 ≡ [] },
    pub ghost seated: { 1 ≤ seat.me.0.seats },
    pub ghost setting: { seat.me.0.setting ≡ rows.now.table.shared.key },
}
