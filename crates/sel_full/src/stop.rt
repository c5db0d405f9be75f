// Why a build stops.
ghost use Rattle.std.specs.Prelude.{◌≡◌};

use sel_base::NoMemory;

/// Why a build stops.
#[derive(Clone, Copy, Debug)]
pub enum Stop {
    TooLarge,
    NoMemory,
}

impl From<NoMemory> for Stop {
    ghost use Rattle.sel_full.specs.declared.stop.Stop.TheVariants as stop;

    ghost from_gives = { λ _ e. e ≡ stop.NoMemory };

    fn from(_: NoMemory) -> Stop {
        Stop::NoMemory
    }
}
