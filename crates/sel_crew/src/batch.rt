//! All workers of a batch.
ghost use Rattle.std.specs.Prelude.{◌≡◌, ◌+◌, ◌<◌, ◌≤◌, ◌^◌, length, IfOk, OnOk};
ghost use Rattle.sel_items.specs.Laws.{IsAcceptedForm};
ghost use Rattle.sel_rows.specs.Tables.{setting_of};
ghost use Rattle.sel_count.specs.Things.{AreValid};
ghost use Rattle.sel_crew.specs.Answers.{AreAnswersOf};
ghost use Rattle.sel_crew.specs.Batches.{IsAfterBatch, IsWholeBatch};
ghost use Rattle.sel_crew.specs.Crews.{lasting_at, AreManned};
ghost use Rattle.sel_crew.specs.Tasks.{IsTask, AreReady, HaveWorked, task_by};

use crate::gathering::{gather, is_refused, room_for};
use crate::passing::{Passing, Through};
use crate::place::Place;
use crate::seats::seat_all;
use crate::serving::{Serve, serve_all};
use crate::task::{Bare, Task};
use crate::worker::work;
use sel_base::{Gate, List, NoMemory};
use sel_forest::Tree;
use sel_grammar::Grammar;
use sel_normal::Normal;
use sel_rows::Rows;
use sel_tickets::Tickets;
use sel_work::{Answer, Goal};
use std::alloc::Global;
use std::thread::Threads;

/// A batch's task, and the gate that is passed round each tree. What threads share stands for parameters.
#[derive(Drop)]
struct Work<'b, M, S, G> {
    grammar: &'b M,
    bare: &'b S,
    gate: &'b G,
}

impl<'b, G: Passing> Serve for Work<'b, Grammar, Bare<'b>, G> {
    ghost use Rattle.sel_crew.specs.Tasks.{IsTask, IsReady, HasWorked, task_by};

    ghost ready = { λ s p. IsTask (task_by s.grammar s.bare.now) × IsReady (task_by s.grammar s.bare.now) p };

    ghost done = { λ s p q. HasWorked (task_by s.grammar s.bare.now) p q };

    fn serve(&self, place: &mut Place) {
        let Bare {
            alloc,
            normal,
            rows,
            trees,
            tickets,
            goal,
            first,
        } = *self.bare;
        let task = Task {
            alloc,
            grammar: self.grammar,
            normal,
            rows,
            trees,
            tickets,
            goal,
            first,
        };
        work(&task, self.gate, place)
    }
}

/// Lets each place's worker answer trees until no number is left.
fn work_all<Rt: Threads + Sync, G: Gate + Sync>(
    rt: &Rt,
    grammar: &Grammar,
    bare: &Bare<'_>,
    gate: &G,
    places: &mut [Place],
)
    requires task { IsTask (task_by grammar bare.now) }
    requires some { 0 < length places.old }
    requires ready { AreReady (task_by grammar bare.now) places.old }
    ensures { HaveWorked (task_by grammar.entry bare.now) places.old places.new }
{
    let through = Through { gate };
    let server = Work {
        grammar,
        bare,
        gate: &through,
    };
    serve_all(rt, &server, places)
}

/// The answers of the trees, in their order, by the workers of the places. Room for all of them is taken before a worker
/// begins.
pub fn answer_at<Rt: Threads + Sync, G: Gate + Sync>(
    rt: &Rt,
    alloc: Global,
    grammar: &Grammar,
    normal: &Normal,
    rows: &Rows,
    places: &mut [Place],
    trees: &[Tree],
    first: u32,
    goal: Goal,
    gate: &G,
) -> Result<List<Answer>, NoMemory>
    requires form { IsAcceptedForm grammar.now normal.now }
    requires normal { (setting_of rows.now).normal.value ≡ normal.now }
    requires manned { AreManned rows.now (lasting_at places.old) }
    requires some { (0 < length places.old) × (length places.old ≤ 64) }
    requires trees { AreValid grammar.now trees.now }
    requires last { first + length trees.now < 2 ^ 32 }
    ensures after { IsAfterBatch rows.now grammar.now trees.now (lasting_at places.old) (lasting_at places.new) }
    ensures answers { IfOk result (AreAnswersOf grammar.now goal trees.now) }
    ensures whole { OnOk result (IsWholeBatch grammar.now trees.now (lasting_at places.old) (lasting_at places.new)) }
{
    let mut answers = room_for(alloc, trees.len())?;
    let seats = places.len() as u32 + 1;
    let (tickets, mut drawer) = Tickets::new(alloc, trees.len() as u32, seats)?;
    seat_all(&tickets, places, &mut drawer);
    let bare = Bare {
        alloc,
        normal,
        rows,
        trees,
        tickets: &tickets,
        goal,
        first,
    };
    work_all(rt, grammar, &bare, gate, places);
    let refused = is_refused(places);
    gather(&tickets, places, &mut drawer, &mut answers);
    if refused {
        return Err(NoMemory);
    }
    tickets.close(drawer);
    Ok(answers)
}
