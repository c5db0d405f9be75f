// Which name has which grammar.
ghost use Rattle.std.specs.Prelude.{◌≡◌, ◌≤◌, length, option_map, IfSome};
ghost use Rattle.sel_targets.specs.Lines.{most_bytes};
ghost use Rattle.sel_targets.specs.TargetText.{target_text};

use crate::{aarch64, rv64i, x86_64};

/// The grammar's text that is shipped under a name, which is `rv64i`, `aarch64` or `x86-64`: ASCII, a rule a
/// line, each ended by a line feed. None for every other name; upper and lower case differ.
pub fn target(name: &str) -> Option<&'static str>
    ensures text { option_map (λ text. text.now) result ≡ target_text name.now }
    ensures short { IfSome result (λ text. length text.now ≤ most_bytes) }
{
    match name {
        "rv64i" => Some(rv64i::text()),
        "aarch64" => Some(aarch64::text()),
        "x86-64" => Some(x86_64::text()),
        _ => None,
    }
}
