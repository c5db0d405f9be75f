// How a job ended, and what is reported of its trees.
ghost use Rattle.std.specs.Prelude.{◌≡◌};
ghost use Rattle.sel_cli.specs.Reporting.{nothing_reported};

use crate::status::Status;
use sel_crew::Report;

/// The status of a job, and what is reported of its trees.
#[derive(Drop)]
pub struct Reported {
    pub status: Status,
    pub report: Report,
}

/// What is reported where no trees were answered, or not all.
pub fn nothing() -> Report
    ensures { result ≡ nothing_reported }
{
    Report {
        evaluated: 0,
        plain_nodes: 0,
        row_full: false,
        used_up: false,
        snapshot: None,
    }
}

impl Reported {
    /// The job ended so, and nothing is reported.
    pub fn without(status: Status) -> Reported
        ensures { result ≡ record { status = status; report = nothing_reported } }
    {
        Reported {
            status,
            report: nothing(),
        }
    }
}
