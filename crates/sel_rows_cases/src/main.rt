//! Runs the rows that stand in data/: trees that two passes over one shared table label in turns, and what the
//! closed table says.
#![tactic(auto)]

mod accepted;
mod calls;
mod meeting;
mod meetings;
mod playing;
mod stop;
mod turns;

use calls::Cases;
use sel_sheet::run_sheets;
use std::process::ExitCode;

fn main(rt: HostRuntime) -> ExitCode {
    run_sheets(&rt, &rt, &Cases)
}
