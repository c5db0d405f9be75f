// Why a text isn't loaded.
ghost use Rattle.std.specs.Prelude.{◌≡◌};

use sel_base::NoMemory;

/// The first fault of a table's text: its kind (`kinds` has their names), and its line from 1.
#[derive(Clone, Copy, Debug, PartialEq, Eq)]
pub struct LoadFault {
    pub kind: u8,
    pub line: u32,
}

/// Why a text isn't loaded.
#[derive(Clone, Copy, Debug, PartialEq, Eq)]
pub enum LoadRefusal {
    Fault(LoadFault),
    NoMemory,
}

impl From<NoMemory> for LoadRefusal {
    ghost use Rattle.sel_table.specs.declared.refusal.LoadRefusal.TheVariants as refusal;

    ghost from_gives = { λ _ e. e ≡ refusal.NoMemory };

    fn from(_: NoMemory) -> LoadRefusal {
        LoadRefusal::NoMemory
    }
}
