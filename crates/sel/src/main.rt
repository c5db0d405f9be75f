//! The program: the top call over real files and the standard streams.
#![tactic(auto)]

use sel_base::{FileShelf, NoMemory, OpenGate, StreamSink};
use sel_cli::run_program;
use std::alloc::Global;
use std::env;
use std::io::ErrorKind;
use std::process::ExitCode;

// The words behind the program's name. Where one of them is no text there are none, which is no command.
fn words_of(rt: &HostRuntime, alloc: Global) -> Result<Vec<String>, NoMemory> {
    let mut words = Vec::new(alloc);
    match env::args(rt) {
        Ok(args) => {
            for word in args.skip(1) {
                words.push(word)?;
            }
        }
        Err(error) if error.kind() == ErrorKind::OutOfMemory => return Err(NoMemory),
        Err(_) => {}
    }
    Ok(words)
}

fn main(rt: HostRuntime) -> ExitCode {
    let alloc = rt.alloc();
    let words = words_of(&rt, alloc);
    let mut shelf = FileShelf::new(&rt, alloc);
    let mut out = StreamSink::new(rt.stdout());
    let mut err = StreamSink::new(rt.stderr());
    ExitCode::from(run_program(&rt, alloc, words, &mut shelf, &mut out, &mut err, &OpenGate))
}
