//! What the places have together.
ghost use Rattle.std.specs.Prelude.{◌≡◌, ◌-◌, ◌^◌, ◌++◌, min, OnOk};
ghost use Rattle.sel_law.specs.Words.{weigh};
ghost use Rattle.sel_rows.specs.Parts.{part_evaluated};
ghost use Rattle.sel_crew.specs.Crews.{lasting_at, parts_in, plain_in};

use crate::place::Place;
use sel_base::NoMemory;
use sel_rows::PassPart;

/// How many item sets the parts have evaluated.
pub fn evaluated_in(parts: &[PassPart]) -> u64
    ensures { result ≡ min (weigh part_evaluated parts.now) (2 ^ 64 - 1) }
{
    match parts {
        [] => 0,
        [part, rest @ ..] => part.evaluated().saturating_add(evaluated_in(rest)),
    }
}

/// How many nodes with plain labels the places have counted.
pub fn plain_at(places: &[Place]) -> u64
    ensures { result ≡ plain_in (lasting_at places.now) }
{
    match places {
        [] => 0,
        [place, rest @ ..] => place.plain_nodes.saturating_add(plain_at(rest)),
    }
}

/// Takes the parts of the places, behind the others.
pub fn take_parts(places: &mut [Place], parts: &mut Vec<PassPart>) -> Result<(), NoMemory>
    ensures { OnOk result (parts.new.items ≡ parts.old.items ++ parts_in (lasting_at places.old)) }
{
    match places {
        [] => Ok(()),
        [place, rest @ ..] => {
            if let Some(part) = place.part.take() {
                parts.push(part)?;
            }
            take_parts(rest, parts)
        }
    }
}
