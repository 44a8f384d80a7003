//! `rawdev FRAME`: develops the regions of a CinemaDNG frame that the script on standard input asks for.
#![tactic(auto)]

use developer::{Status, run};
use raw_io::{HostFiles, StdSink, StdSource};
use region_session::Tally;
use std::alloc::AllocError;
use std::process::ExitCode;
use std::{env, io};

/// The words of the command line; none where one of them isn't text.
fn words(rt: &HostRuntime) -> Result<Vec<String>, AllocError> {
    match env::args(rt) {
        Ok(args) => args.collect(rt.alloc()),
        Err(error) if error.kind() == io::ErrorKind::OutOfMemory => Err(AllocError),
        Err(_) => Ok(Vec::new(rt.alloc())),
    }
}

/// Runs over the files, the input and the output of the machine.
fn status(rt: &HostRuntime) -> Status {
    let Ok(words) = words(rt) else {
        return Status::Memory;
    };
    let mut files = HostFiles::new(rt);
    let mut script = StdSource::new(rt.stdin());
    let mut out = StdSink::new(rt.stdout());
    let mut tally = Tally::new();
    run(
        rt.alloc(),
        &words,
        &mut files,
        &mut script,
        &mut out,
        &mut tally,
    )
}

fn main(rt: HostRuntime) -> ExitCode {
    ExitCode::from(status(&rt).number())
}
