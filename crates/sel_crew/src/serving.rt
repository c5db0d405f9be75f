//! Places that are served at the same time.
ghost use Rattle.std.specs.Prelude.{◌≡◌, ℕ, ◌<◌, length, slice_index_or};
ghost use Rattle.sel_crew.specs.declared.place.Place.{Place as AnyPlace};

use crate::place::Place;
use std::thread::{Threads, for_each_mut};

/// What serves a place, beside others.
pub trait Serve {
    ghost use Rattle.sel_crew.specs.declared.place.Place.{Place as AnyPlace};

    /// the place may be served
    ghost ready: { Self → AnyPlace → Type 0 };

    /// and this is what is left of it
    ghost done: { Self → AnyPlace → AnyPlace → Type 0 };

    fn serve(&self, place: &mut Place)
        requires { ready self.now place.old }
        ensures { done self.now place.old place.new };
}

/// Serves each place in a thread of its own.
pub fn serve_all<Rt: Threads + Sync, S: Serve + Sync>(rt: &Rt, server: &S, places: &mut [Place])
    requires some { 0 < length places.old }
    requires ready { (i : ℕ) (d : AnyPlace) → i < length places.old → S.ready server.now (slice_index_or places.old i d) }
    ensures many { length places.new ≡ length places.old }
    ensures each { (i : ℕ) (d : AnyPlace) → i < length places.old → S.done server.now (slice_index_or places.old i d) (slice_index_or places.new i d) }
{
    let threads = places.len();
    for_each_mut(
        rt,
        places,
        threads,
        &|_, place: &mut Place|
            requires { S.ready server.now place.now }
            ensures { S.done server.entry.now place.entry.now place.exit.now }
        { server.serve(place) },
    );
}
