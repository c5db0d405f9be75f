// Two passes over one table, in turns, and what the closed table says.
ghost use Rattle.std.specs.Prelude.{◌≡◌, ◌<◌, ◌≤◌};
ghost use Rattle.sel_forest.specs.Valid.{IsValidForest};
ghost use Rattle.sel_items.specs.Laws.{IsAcceptedForm};

use crate::accepted::{Accepted, accept, forest_of, text_of};
use crate::meetings::{Game, take_all};
use crate::stop::Stop;
use sel_base::{List, Steps};
use sel_forest::Forest;
use sel_rows::{Pass, Rows};
use sel_sheet::Row;
use std::alloc::Global;
use std::fmt::Write;
use std::marker::Brand;
use std::sync::ledger::{Blank, Ledger};

fn play<L: Ledger>(
    blank: Blank,
    alloc: Global,
    accepted: &Accepted,
    forest: &Forest,
    room: (u32, u32),
    game: Game,
    turns: &[u8],
) -> Result<String, Stop>
    requires name { blank.name ≡ L.name }
    requires parts { blank.parts ≡ L.parts }
    requires one { 0 < blank.parts }
    requires states { room.0 ≤ 32768 }
    requires rows { room.1 ≤ 1048576 }
    requires form { IsAcceptedForm accepted.now.grammar accepted.now.normal }
    requires valid { IsValidForest accepted.now.grammar forest.now }
{
    let mut text = String::new(alloc);
    let mut steps = Steps::<L>::new(blank);
    let (rows, parts) = Rows::new(alloc, &accepted.normal, room.0, room.1, 2)?;
    let mut parts = parts.into_vec();
    let Some(second) = parts.pop() else {
        return Err(Stop::Unfit("there is no second part"));
    };
    let Some(first) = parts.pop() else {
        return Err(Stop::Unfit("there is no first part"));
    };
    let mut first = Pass::new(&rows, &accepted.normal, first);
    let mut second = Pass::new(&rows, &accepted.normal, second);
    take_all(
        game,
        &mut first,
        &mut second,
        alloc,
        accepted,
        forest,
        turns,
        &mut text,
        &mut steps,
    )?;
    let mut given = Vec::new(alloc);
    given.push(first.part())?;
    given.push(second.part())?;
    let snapshot = rows.close(alloc, List::from_vec(given))?;
    write!(text, "closed with {} states", snapshot.states().len())?;
    write!(text, " and {} transitions\n", snapshot.transitions().len())?;
    Ok(text)
}

// The words `STATES ROWS`.
fn room_of(words: &str) -> Option<(u32, u32)> {
    let (states, rows) = words.split_once(' ')?;
    let states = states.parse::<u32>().ok()?;
    let rows = rows.parse::<u32>().ok()?;
    Some((states, rows))
}

/// Two passes play with the trees of the row's file `f`, in the turns of its file `turns`, over a table with room
/// for the states and transitions that the words say.
pub fn passes(alloc: Global, row: &Row<'_>, game: Game) -> Result<String, Stop> {
    let accepted = accept(alloc, row)?;
    let forest = forest_of(alloc, &accepted.grammar, row)?;
    let turns = text_of(row, "turns")?;
    let Some((states, rows)) = room_of(row.words) else {
        return Err(Stop::Unfit("the words are no room"));
    };
    if states > 32_768 || rows > 1_048_576 {
        return Err(Stop::Unfit("too much room"));
    }
    play::<Brand>(
        Blank::new(1),
        alloc,
        &accepted,
        &forest,
        (states, rows),
        game,
        turns,
    )
}
