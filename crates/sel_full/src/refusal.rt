// What is wrong with a table from elsewhere.
ghost use Rattle.std.specs.Prelude.{◌≡◌};

use sel_base::NoMemory;

/// What is wrong first with a table that has the form.
#[derive(Clone, Copy, Debug)]
pub enum TableFault {
    /// The state of this number is the first and not empty, or equals an earlier one.
    State(usize),
    /// The number at this place among the keys isn't that of the state that follows.
    Number(usize),
}

/// Why a table isn't accepted.
#[derive(Clone, Copy, Debug)]
pub enum TableRefusal {
    Fault(TableFault),
    NoMemory,
}

impl From<NoMemory> for TableRefusal {
    ghost use Rattle.sel_full.specs.declared.refusal.TableRefusal.TheVariants as refusal;

    ghost from_gives = { λ _ e. e ≡ refusal.NoMemory };

    fn from(_: NoMemory) -> TableRefusal {
        TableRefusal::NoMemory
    }
}
