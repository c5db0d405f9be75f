//! A worker: it draws numbers and answers their trees.
ghost use Rattle.std.specs.Prelude.{◌≡◌, ◌<◌, length, IfSome, IfNone};
ghost use Rattle.sel_crew.specs.Crews.{IsSeated};
ghost use Rattle.sel_crew.specs.Tasks.{IsTask, IsReady, HasWorked, Begins, Serves, Took, KeepsAnswer};

use crate::passing::Passing;
use crate::place::{Made, Place};
use crate::task::Task;
use crate::tree::answer_by_part;
use crate::turn::Turn;
use sel_base::{NoMemory, Steps};
use sel_expand::Expander;
use sel_work::Answered;
use std::marker::Brand;
use std::sync::ledger::{Blank, Ledger};

/// Keeps an answer with its tree's number, and tells how many nodes have plain labels. None where there is no answer, or
/// no room for it.
fn keep(made: &mut Vec<Made>, number: u32, answered: Result<Answered, NoMemory>) -> Option<u64>
    ensures kept { IfSome result (KeepsAnswer made.old.items made.new.items number answered) }
    ensures none { IfNone result (made.new.items ≡ made.old.items) }
{
    match answered {
        Err(_) => None,
        Ok(answered) => {
            let Answered {
                answer,
                plain_nodes,
            } = answered;
            match made.push(Made { number, answer }) {
                Ok(()) => Some(plain_nodes as u64),
                Err(_) => None,
            }
        }
    }
}

/// Answers the tree with the number.
fn answer_number<L: Ledger, G: Passing>(
    task: &Task<'_>,
    gate: &G,
    worker: u32,
    expander: &mut Expander,
    turn: Turn,
    number: u32,
    steps: &mut Steps<L>,
) -> Turn
    requires task { IsTask task.now }
    requires turn { IsSeated task.now.rows.now turn.part }
    requires number { number < length task.now.trees.now }
    ensures { Took task.now number turn result }
{
    let Turn {
        part,
        drawer,
        mut made,
        plain_nodes,
        refused: _,
    } = turn;
    gate.enter(worker, task.first + number);
    let (part, answered) = answer_by_part(
        task,
        expander,
        part,
        &task.trees[number as usize],
        steps,
    );
    match keep(&mut made, number, answered) {
        Some(more) => {
            gate.leave(worker, task.first + number);
            Turn {
                part,
                drawer,
                made,
                plain_nodes: plain_nodes.saturating_add(more),
                refused: false,
            }
        }
        None => Turn {
            part,
            drawer,
            made,
            plain_nodes,
            refused: true,
        },
    }
}

/// Answers the trees of the numbers that it draws, up to the first that is no tree's, or to want of memory.
fn serve<L: Ledger, G: Passing>(
    task: &Task<'_>,
    gate: &G,
    worker: u32,
    expander: &mut Expander,
    turn: Turn,
    steps: &mut Steps<L>,
) -> Turn
    requires task { IsTask task.now }
    requires turn { Begins task.now turn }
    ensures { Serves task.now turn result }
{
    let mut turn = turn;
    'numbers: while let Some(number) = task.tickets.draw(&mut turn.drawer) {
        turn = answer_number(task, gate, worker, expander, turn, number, steps);
        if turn.refused {
            return turn;
        }
    }
    turn
}

/// Answers the trees of the numbers that the place's worker draws, with a counter of its own.
fn work_counted<L: Ledger, G: Passing>(task: &Task<'_>, gate: &G, place: &mut Place, blank: Blank)
    requires task { IsTask task.now }
    requires ready { IsReady task.now place.old }
    requires name { blank.name ≡ L.name }
    requires parts { blank.parts ≡ L.parts }
    requires one { 0 < blank.parts }
    ensures { HasWorked task.now place.old place.new }
{
    let (Some(part), Some(drawer)) = (place.part.take(), place.drawer.take()) else {
        unreachable!()
    };
    let mut steps = Steps::<L>::new(blank);
    let turn = Turn {
        part,
        drawer,
        made: Vec::new(task.alloc),
        plain_nodes: 0,
        refused: false,
    };
    let Turn {
        part,
        drawer,
        made,
        plain_nodes,
        refused,
    } = serve(
        task,
        gate,
        place.worker,
        &mut place.expander,
        turn,
        &mut steps,
    );
    place.part = Some(part);
    place.drawer = Some(drawer);
    place.made = made;
    place.refused = refused;
    place.plain_nodes = place.plain_nodes.saturating_add(plain_nodes);
}

/// Answers the trees of the numbers that the place's worker draws.
pub fn work<G: Passing>(task: &Task<'_>, gate: &G, place: &mut Place)
    requires task { IsTask task.now }
    requires ready { IsReady task.now place.old }
    ensures { HasWorked task.now place.old place.new }
{
    work_counted::<Brand, G>(task, gate, place, Blank::new(1))
}
