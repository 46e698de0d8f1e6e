//! The program `desk`: hands the host's command line, files and streams to `run_desk`.
#![tactic(auto)]

use kd_desk::{HostFiles, ReaderSource, Stop, WriterSink, end_program, run_desk};
use std::process::ExitCode;

fn main(rt: HostRuntime) -> ExitCode {
    let mut errors = WriterSink::new(rt.stderr());
    ExitCode::from(match words(&rt) {
        Ok(words) => run_desk(
            rt.alloc(),
            words.as_slice(),
            &mut HostFiles::new(&rt),
            &mut ReaderSource::new(rt.stdin()),
            &mut WriterSink::new(rt.stdout()),
            &mut errors,
        ),
        Err(stop) => end_program(Err(stop), &mut errors),
    })
}

/// The command line: the program's own name, then the arguments.
fn words(rt: &HostRuntime) -> Result<Vec<String>, Stop> {
    Ok(std::env::args(rt)?.collect(rt.alloc())?)
}
