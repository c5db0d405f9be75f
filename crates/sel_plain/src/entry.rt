ghost use Rattle.std.specs.Prelude.{◌↔◌, IsTrue};
ghost use Rattle.sel_plain.specs.Bettering.{IsNoLater, KeepsOut};

use crate::cost::is_cheaper;
use sel_base::Pair;

/// The least cost of a derivation, and the first rule of the best one.
#[derive(Clone, Copy, Debug, Drop)]
pub struct Entry {
    pub cost: Pair,
    pub rule: u16,
}

/// Whether the entry costs less, or the same by no greater rule.
fn is_no_later(entry: Entry, other: Entry) -> bool
    ensures { IsTrue result ↔ IsNoLater entry other }
{
    is_cheaper(entry.cost, other.cost) || (entry.cost == other.cost && entry.rule <= other.rule)
}

/// Whether a place keeps what it has, which is no later than the entry.
pub fn is_kept_out(place: Option<Entry>, entry: Entry) -> bool
    ensures { IsTrue result ↔ KeepsOut place entry }
{
    match place {
        Some(old) => is_no_later(old, entry),
        None => false,
    }
}
