//! Runs the rows that stand in data/: each calls one crate below the top call, over texts that are read, and
//! tells what it gave as text.
#![tactic(auto)]

mod accepted;
mod calls;
mod checked;
mod compared;
mod covers;
mod expanded;
mod forests;
mod grammars;
mod labels;
mod made;
mod making;
mod normal_forms;
mod stop;
mod words;

use calls::Trials;
use sel_sheet::run_sheets;
use std::process::ExitCode;

fn main(rt: HostRuntime) -> ExitCode {
    run_sheets(&rt, &rt, &Trials)
}
