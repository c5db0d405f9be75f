//! Runs the rows of the top call and of the words that stand in data/, and tells of each sheet whether all its
//! rows are as wanted.
#![tactic(auto)]

mod command;
mod counting_gate;
mod holding_gate;
mod top_call;

use sel_sheet::run_sheets;
use std::process::ExitCode;
use top_call::TopCall;

fn main(rt: HostRuntime) -> ExitCode {
    run_sheets(&rt, &rt, &TopCall)
}
