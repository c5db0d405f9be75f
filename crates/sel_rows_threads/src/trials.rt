// The trials: grammars, made trees, crews and rooms.
ghost use Rattle.std.specs.Prelude.{◌≡◌, ◌≤◌, ◌<◌, length, IfOk};
ghost use Rattle.sel_grammar.specs.declared.grammar.Grammar.{Grammar};
ghost use Rattle.sel_forest.specs.Valid.{IsValidForest};
ghost use Rattle.sel_items.specs.Laws.{IsAcceptedForm};

use crate::closed::are_different;
use crate::crew::{Outcome, label_and_close};
use crate::reading::{Entries, read_forest};
use crate::speed::measure;
use sel_auto::PrivateAutomaton;
use sel_base::{NoMemory, Steps};
use sel_forest::Forest;
use sel_gen::make_forest;
use sel_grammar_text::read_grammar;
use sel_normal::Normal;
use sel_targets::target;
use std::alloc::Global;
use std::marker::Brand;
use std::process::ExitCode;
use std::sync::ledger::{Blank, Ledger};
use std::thread::Threads;

// At the node over n others a costs n and b twice as much, so each node of a chain has an item set of its own.
const CHAIN: &str =
    "%term U=1 X=2\n%%\ns: a \"\" 0\ns: b \"\" 0\na: U(a) \"\" 1\nb: U(b) \"\" 2\na: X \"\" 0\nb: X \"\" 0\n";

/// Trees, what one owner's automaton says of them, and how many states and keys that has.
#[derive(Drop)]
struct Task {
    normal: Normal,
    forest: Forest,
    wanted: Vec<Entries>,
    states: u32,
    keys: u32,
}

/// How much room a table has: more than is needed, just as much as one owner needs, or half of it.
#[derive(Clone, Copy, PartialEq, Eq)]
enum Room {
    Ample,
    Just,
    Half,
}

fn name_of(room: Room) -> &'static str {
    match room {
        Room::Ample => "with room",
        Room::Just => "nearly full",
        Room::Half => "full",
    }
}

fn room_of(room: Room, task: &Task, workers: u32) -> (u32, u32)
    ensures { (result.0 ≤ 32768) × (result.1 ≤ 1048576) }
{
    let states = task.states.min(16_384);
    let keys = task.keys.min(1_048_576);
    match room {
        Room::Ample => (states + workers.min(16_384), keys),
        Room::Just => (states, keys),
        Room::Half => (states / 2, keys / 2),
    }
}

// What one owner's automaton says of the trees, and how many states and keys it has then.
fn wanted_of<L: Ledger>(
    blank: Blank,
    alloc: Global,
    normal: &Normal,
    forest: &Forest,
) -> Result<(Vec<Entries>, u32, u32), NoMemory>
    requires name { blank.name ≡ L.name }
    requires parts { blank.parts ≡ L.parts }
    requires one { 0 < blank.parts }
    requires forest { (g : Grammar) × IsAcceptedForm g normal.now × IsValidForest g forest.now }
{
    let mut steps = Steps::<L>::new(blank);
    let mut own = PrivateAutomaton::new(alloc, normal, 32_768, 1_048_576)?;
    let wanted = read_forest(&mut own, alloc, normal, forest, &mut steps)?;
    Ok((wanted, own.states(), own.keys()))
}

// So many made trees over the grammar, each derived by so many rules at most.
fn task_of(alloc: Global, text: &str, trees: u32, size: u32) -> Result<Task, NoMemory>
    requires text { length text.now < 4294967295 }
    requires trees { trees ≤ 1000000 }
    requires size { (1 ≤ size) × (size ≤ 1000) }
    ensures { IfOk result (λ t. (g : Grammar) × IsAcceptedForm g t.normal × IsValidForest g t.forest) }
{
    let Ok(grammar) = read_grammar(alloc, text.as_bytes()) else {
        return Err(NoMemory);
    };
    let Ok(normal) = Normal::of(alloc, &grammar) else {
        return Err(NoMemory);
    };
    let forest = make_forest(alloc, &grammar, 1, trees, size)?;
    let (wanted, states, keys) = wanted_of::<Brand>(Blank::new(1), alloc, &normal, &forest)?;
    Ok(Task {
        normal,
        forest,
        wanted,
        states,
        keys,
    })
}

// Whether the trees are labelled alike in each turn, and the closed table is as it should be.
fn is_as_wanted<R: Threads + Sync>(
    rt: &R,
    alloc: Global,
    task: &Task,
    workers: u32,
    room: Room,
    turns: u32,
) -> Result<bool, NoMemory>
    requires workers { 1 ≤ workers }
    requires forest { (g : Grammar) × IsAcceptedForm g task.now.normal × IsValidForest g task.now.forest }
{
    let size = room_of(room, task, workers);
    for _turn in 0..turns {
        let wanted = task.wanted.as_slice();
        let (outcome, snapshot) = label_and_close(
            rt,
            alloc,
            &task.normal,
            &task.forest,
            wanted,
            workers,
            size,
        )?;
        let is_same = snapshot.states().len() == task.states as usize
            && snapshot.transitions().len() == task.keys as usize;
        let is_right = outcome == Outcome::Alike
            && are_different(snapshot.states().as_slice())
            && (is_same || room != Room::Ample);
        if !is_right {
            return Ok(false);
        }
    }
    Ok(true)
}

fn tell(rt: &HostRuntime, name: &str, workers: u32, room: Room, right: Result<bool, NoMemory>) {
    let room = name_of(room);
    let became = match right {
        Ok(true) => "as wanted",
        Ok(false) => "differs",
        Err(_) => "no memory",
    };
    let _ = println!(rt; "{name}, {workers} passes, {room}: {became}");
}

// A trial of the grammar with so many workers, in each room.
fn try_rooms<R: Threads + Sync>(
    rt: &HostRuntime,
    crew: &R,
    name: &str,
    task: &Task,
    workers: u32,
    turns: u32,
)
    requires workers { 1 ≤ workers }
    requires forest { (g : Grammar) × IsAcceptedForm g task.now.normal × IsValidForest g task.now.forest }
{
    let alloc = rt.alloc();
    for room in [Room::Ample, Room::Just, Room::Half] {
        let right = is_as_wanted(crew, alloc, task, workers, room, turns);
        tell(rt, name, workers, room, right);
    }
}

fn try_grammar<R: Threads + Sync>(
    rt: &HostRuntime,
    crew: &R,
    name: &str,
    text: &str,
    trees: u32,
    size: u32,
    turns: u32,
)
    requires text { length text.now < 4294967295 }
    requires trees { trees ≤ 1000000 }
    requires size { (1 ≤ size) × (size ≤ 1000) }
{
    match task_of(rt.alloc(), text, trees, size) {
        Ok(task) => {
            try_rooms(rt, crew, name, &task, 1, turns);
            try_rooms(rt, crew, name, &task, 2, turns);
            try_rooms(rt, crew, name, &task, 8, turns);
            try_rooms(rt, crew, name, &task, 64, turns);
        }
        Err(_) => {
            let _ = println!(rt; "{name}: no memory");
        }
    }
}

/// All trials, each with so many turns. The threads are made by `crew`.
pub fn run_trials<R: Threads + Sync>(rt: &HostRuntime, crew: &R, turns: u32) -> ExitCode {
    try_grammar(rt, crew, "chain", CHAIN, 4, 203, turns);
    match target("x86-64") {
        Some(text) => try_grammar(rt, crew, "x86-64", text, 12, 30, turns),
        None => {}
    }
    ExitCode::SUCCESS
}

/// The nanoseconds of so many turns over the made trees of a shipped grammar, by one owner's automaton and by a pass.
pub fn tell_speed(rt: &HostRuntime, turns: u32) -> ExitCode {
    let Some(text) = target("x86-64") else {
        return ExitCode::FAILURE;
    };
    let Ok(task) = task_of(rt.alloc(), text, 1000, 30) else {
        return ExitCode::FAILURE;
    };
    let Ok((owner, pass)) = measure::<Brand>(rt, Blank::new(1), &task.normal, &task.forest, turns)
    else {
        return ExitCode::FAILURE;
    };
    let _ = println!(rt; "one owner's automaton {owner} ns, a pass {pass} ns");
    ExitCode::SUCCESS
}
