//! Passes that label the same trees at once, each in a thread of its own, over one shared table: with room, nearly
//! full and full. Each label's item set is that of one owner's automaton, and the closed table's states differ.
#![tactic(auto)]

mod closed;
mod crew;
mod reading;
mod speed;
mod trials;

use std::env;
use std::process::ExitCode;
use trials::{run_trials, tell_speed};

// What the words say: whether it is speed that is asked for, and the turns of each trial, which are 2 where no
// number says more.
fn asked(rt: &HostRuntime) -> (bool, u32) {
    let mut speed = false;
    let mut turns: u32 = 2;
    if let Ok(args) = env::args(rt) {
        for word in args.skip(1) {
            match word.parse::<u32>() {
                Ok(number) => turns = number,
                Err(_) => speed = word.as_str() == "speed",
            }
        }
    }
    (speed, turns)
}

fn main(rt: HostRuntime) -> ExitCode {
    let (speed, turns) = asked(&rt);
    if speed {
        tell_speed(&rt, turns)
    } else {
        run_trials(&rt, &rt, turns)
    }
}
