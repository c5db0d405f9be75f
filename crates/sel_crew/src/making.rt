//! Places for the parts of a new table.
ghost use Rattle.std.specs.Prelude.{◌≡◌, ◌<◌, ◌^◌, length, IfOk};
ghost use Rattle.sel_rows.specs.Parts.{AreFresh};
ghost use Rattle.sel_rows.specs.Tables.{ArePartsOf};
ghost use Rattle.sel_crew.specs.Crews.{lasting_at, AreNewPlaces};

use crate::place::Place;
use sel_base::{List, NoMemory};
use sel_expand::Expander;
use sel_rows::{PassPart, Rows};
use std::alloc::Global;

/// A place for each of the parts.
pub fn place_all(alloc: Global, rows: &Rows, parts: List<PassPart>) -> Result<Vec<Place>, NoMemory>
    requires of { ArePartsOf rows.now parts }
    requires fresh { AreFresh parts }
    requires few { length parts < 2 ^ 32 }
    ensures new { IfOk result (λ places. AreNewPlaces rows.now (lasting_at places.items)) }
    ensures count { IfOk result (λ places. length places.items ≡ length parts) }
{
    let mut parts = parts.into_vec();
    let mut places: Vec<Place> = Vec::new(alloc);
    'parts: while let Some(part) = parts.pop() {
        let worker = places.len() as u32;
        places.push(Place {
            worker,
            part: Some(part),
            drawer: None,
            expander: Expander::new(alloc),
            made: Vec::new(alloc),
            refused: false,
            plain_nodes: 0,
        })?;
    }
    Ok(places)
}
