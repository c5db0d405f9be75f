// An output that is made whole is written.
ghost use Rattle.sel_cli.specs.Parts.{Writes, EndsBatch, IsThis};

use crate::status::{Status, finished};
use sel_answers::Output;
use sel_base::{Sink, SinkFault, write_all_of};

/// Writes the output, and ends with the status of a job that is done, unless the writing stops.
pub fn write_output<K: Sink>(out: &mut K, output: &Output) -> Status
    ensures done { Writes (IsThis output.now.covered output.now.text.items) (K.told out.old) (K.told out.new) result }
{
    match write_all_of(out, &output.text) {
        Ok(()) => finished(output.covered),
        Err(stop) => match stop.cause {
            SinkFault::Failed => Status::WriteFault,
            SinkFault::NoMemory => Status::NoMemory,
        },
    }
}

/// Writes the output of some trees. Ok tells whether each of them is covered.
pub fn write_piece<K: Sink>(out: &mut K, output: &Output) -> Result<bool, Status>
    ensures done { EndsBatch (IsThis output.now.covered output.now.text.items) (K.told out.old) (K.told out.new) result }
{
    match write_output(out, output) {
        Status::Done => Ok(true),
        Status::Uncovered => Ok(false),
        status => Err(status),
    }
}
