ghost use Rattle.std.specs.Prelude.{◌≡◌};
ghost use Rattle.sel_grammar.specs.declared.refusal.GrammarRefusal.TheVariants as GrammarRefusal;

use sel_base::NoMemory;

/// The first fault of a grammar's text: its kind (`limits` has their names), and its line and column,
/// both from 1, the column counting bytes.
#[derive(Clone, Copy, Debug, PartialEq, Eq)]
pub struct GrammarFault {
    pub kind: u8,
    pub line: u32,
    pub column: u32,
}

/// Why no grammar was made.
#[derive(Clone, Copy, Debug, PartialEq, Eq)]
pub enum GrammarRefusal {
    Fault(GrammarFault),
    NoMemory,
}

impl From<NoMemory> for GrammarRefusal {
    ghost from_gives = { λ _ e. e ≡ GrammarRefusal.NoMemory };

    fn from(_: NoMemory) -> GrammarRefusal {
        GrammarRefusal::NoMemory
    }
}
