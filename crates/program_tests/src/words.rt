//! The words of the command line, and the statuses of runs.

use super::outside::{ends_so, flat_file};
use developer::Status;
use std::test::Fail;

const USAGE_LINE: &[u8] = b"usage: rawdev FRAME [--settings FILE] [--budget SAMPLES] [--cell N]\n";

fn refused_words() -> [&'static [&'static str]; 24] {
    [
        &[],
        &["-x"],
        &["f.dng", "g.dng"],
        &["f.dng", "-x"],
        &["f.dng", "--tint"],
        &["f.dng", "--help"],
        &["-h"],
        &["f.dng", "--version"],
        &["f.dng", "--settings"],
        &["f.dng", "--cell"],
        &["f.dng", "--cell", "20"],
        &["f.dng", "--cell", "0"],
        &["f.dng", "--cell", "528"],
        &["f.dng", "--cell", "00000000016"],
        &["f.dng", "--cell", "+16"],
        &["f.dng", "--cell="],
        &["f.dng", "--cell", "16", "--cell", "16"],
        &["f.dng", "--cel", "16"],
        &["f.dng", "--budget", "1073741825"],
        &["f.dng", "--budget", "4294967296"],
        &["f.dng", "--budget", "-5"],
        &["f.dng", "--budget=-5"],
        &["f.dng", "--budget", "1e3"],
        &["--", "f.dng", "--cell", "16"],
    ]
}

fn accepted_words() -> [&'static [&'static str]; 9] {
    [
        &["f.dng"],
        &["--", "f.dng"],
        &["f.dng", "--cell", "16"],
        &["--cell=512", "f.dng"],
        &["f.dng", "--cell", "0000000128"],
        &["f.dng", "--budget", "0"],
        &["f.dng", "--budget=1073741824"],
        &["--budget", "5", "f.dng", "--cell", "32"],
        &["--cell", "496", "--budget", "1073741824", "f.dng"],
    ]
}

#[test]
fn statuses_have_their_numbers(rt: HostRuntime) {
    for (status, number) in [
        (Status::Done, 0),
        (Status::Usage, 1),
        (Status::Frame, 2),
        (Status::Settings, 3),
        (Status::ReadFault, 4),
        (Status::WriteFault, 5),
        (Status::Memory, 6),
        (Status::ScriptTooLong, 7),
    ] {
        assert_eq!(rt; status.number(), number);
    }
}

#[test]
fn words_are_accepted(rt: HostRuntime) -> Result<(), Fail> {
    let alloc = rt.alloc();
    let file = flat_file(alloc)?;
    for words in accepted_words() {
        assert_eq!(rt;
            ends_so(alloc, &file, words, b"")?,
            Some(Status::Done),
            "{words:?}"
        );
    }
    Ok(())
}

#[test]
fn words_are_refused(rt: HostRuntime) -> Result<(), Fail> {
    let alloc = rt.alloc();
    for words in refused_words() {
        assert_eq!(rt;
            ends_so(alloc, b"", words, USAGE_LINE)?,
            Some(Status::Usage),
            "{words:?}"
        );
    }
    Ok(())
}
