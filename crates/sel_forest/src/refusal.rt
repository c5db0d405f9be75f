ghost use Rattle.std.specs.Prelude.{◌≡◌};

use sel_base::NoMemory;

/// The first fault of a forest's text: its kind (`limits` has their names), and its line and column,
/// both from 1, the column counting bytes.
#[derive(Clone, Copy, Debug, PartialEq, Eq)]
pub struct ForestFault {
    pub kind: u8,
    pub line: u32,
    pub column: u32,
}

/// Why no forest was made.
#[derive(Clone, Copy, Debug, PartialEq, Eq)]
pub enum ForestRefusal {
    Fault(ForestFault),
    NoMemory,
}

impl From<NoMemory> for ForestRefusal {
    ghost use Rattle.sel_forest.specs.declared.refusal.ForestRefusal.TheVariants as refusal;

    ghost from_gives = { λ _ e. e ≡ refusal.NoMemory };

    fn from(_: NoMemory) -> ForestRefusal {
        ForestRefusal::NoMemory
    }
}
