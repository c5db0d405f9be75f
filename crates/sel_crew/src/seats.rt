//! Rights to draw: given to the places and taken back.
ghost use Rattle.std.specs.Prelude.{◌≡◌, ◌-◌, ◌≤◌, Some, length};
ghost use Rattle.sel_tickets.specs.Tickets.{new_drawn};
ghost use Rattle.sel_crew.specs.Crews.{lasting_at};
ghost use Rattle.sel_crew.specs.Seats.{AreDrawing};

use crate::place::Place;
use sel_tickets::{Drawer, Tickets};

/// Gives the place a drawer of its own.
fn seat(tickets: &Tickets, place: &mut Place, drawer: &mut Drawer)
    requires of { drawer.old.of ≡ tickets.now }
    requires left { 1 ≤ drawer.old.rest }
    ensures left { drawer.new ≡ record drawer.old { rest = drawer.old.rest - 1 } }
    ensures new { place.new ≡ record place.old { drawer = Some (new_drawn tickets.now 0) } }
{
    let own = tickets.split(drawer);
    place.drawer = Some(own);
}

/// Gives each place a drawer of its own.
pub fn seat_all(tickets: &Tickets, places: &mut [Place], drawer: &mut Drawer)
    requires { drawer.old ≡ new_drawn tickets.now (length places.old) }
    ensures drawer { drawer.new ≡ new_drawn tickets.now 0 }
    ensures same { lasting_at places.new ≡ lasting_at places.old }
    ensures drawing { AreDrawing tickets.now places.new }
{
    if let Some((place, rest)) = places.split_first_mut() {
        seat(tickets, place, drawer);
        seat_all(tickets, rest, drawer);
    }
}
