//! What the workers of a batch have made, put together.
ghost use Rattle.std.specs.Prelude.{◌≡◌, ◌<◌, [], length, IfOk};
ghost use Rattle.std.specs.List.{list_any};
ghost use Rattle.sel_crew.specs.declared.place.Place.{Place as AnyPlace};
ghost use Rattle.sel_crew.specs.Crews.{lasting, lasting_at};
ghost use Rattle.sel_crew.specs.Gathering.{AreBelow, PutsMade, made_at, AreGatherable, IsDrawerOf, joined_with, joined_all};

use crate::place::{Made, Place};
use sel_base::{List, NoMemory};
use sel_tickets::{Drawer, Tickets};
use sel_work::Answer;
use std::alloc::Global;

/// Room for so many answers.
pub fn room_for(alloc: Global, count: usize) -> Result<List<Answer>, NoMemory>
    ensures { IfOk result (λ answers. length answers ≡ count) }
{
    let mut answers = Vec::with_capacity(alloc, count)?;
    'room: while answers.len() < count {
        answers.push(Answer::NoCover)?;
    }
    Ok(List::from_vec(answers))
}

/// Whether one of the places was refused memory.
pub fn is_refused(places: &[Place]) -> bool
    ensures { result ≡ list_any (λ (p : AnyPlace). p.refused) places.now }
{
    places.iter().any(|place| place.refused)
}

/// Puts each answer at its tree's place.
fn put_made(made: &mut Vec<Made>, answers: &mut List<Answer>)
    requires { AreBelow (length answers.old) made.old.items }
    ensures { PutsMade made.old.items answers.old answers.new }
{
    'made: while let Some(Made { number, answer }) = made.pop() {
        answers.set(number as usize, answer);
    }
}

/// Takes the place's drawer and answers.
fn gather_one(tickets: &Tickets, place: &mut Place, drawer: &mut Drawer, answers: &mut List<Answer>)
    requires of { (drawer.old.of ≡ tickets.now) × IsDrawerOf tickets.now place.old.drawer }
    requires made { AreBelow (length answers.old) place.old.made.items }
    ensures drawer { drawer.new ≡ joined_with drawer.old place.old.drawer }
    ensures same { lasting place.new ≡ lasting place.old }
    ensures answers { PutsMade place.old.made.items answers.old answers.new }
{
    put_made(&mut place.made, answers);
    match place.drawer.take() {
        Some(other) => tickets.join(drawer, other),
        None => {}
    }
}

/// Takes the places' drawers and answers.
pub fn gather(
    tickets: &Tickets,
    places: &mut [Place],
    drawer: &mut Drawer,
    answers: &mut List<Answer>,
)
    requires of { drawer.old.of ≡ tickets.now }
    requires places { AreGatherable tickets.now (length answers.old) places.old }
    ensures drawer { drawer.new ≡ joined_all drawer.old places.old }
    ensures same { lasting_at places.new ≡ lasting_at places.old }
    ensures answers { PutsMade (made_at places.old) answers.old answers.new }
{
    if let Some((place, rest)) = places.split_first_mut() {
        gather_one(tickets, place, drawer, answers);
        gather(tickets, rest, drawer, answers);
    }
}
