//! Files that are opened by their names: those that a test opens, and those of the machine.

use super::failing::Faults;
use raw_io::{Failed, Files, HostFiles, Opener, read_all};
use std::io::ErrorKind::{BrokenPipe, Interrupted};
use std::io::{Cursor, Read, Seek, SeekFrom};
use std::test::Fail;
use std::{fs, io, process};

/// One file under every name, whose seeks and reads fail like this each time that it is open.
#[derive(Clone, Copy)]
struct OneFile<'a> {
    bytes: &'a [u8],
    seeks: Faults<'a>,
    reads: Faults<'a>,
}

#[derive(Drop)]
struct FaultyFile<'a> {
    bytes: Cursor<&'a [u8]>,
    seeks: Faults<'a>,
    reads: Faults<'a>,
}

impl<'a> Opener for OneFile<'a> {
    type File = FaultyFile<'a>;

    ghost use Rattle.std.specs.Prelude.{Some};

    ghost told = { λ s _. Some s.bytes.now };

    fn open(&self, _name: &str) -> Result<FaultyFile<'a>, Failed> {
        Ok(FaultyFile {
            bytes: Cursor::new(self.bytes),
            seeks: self.seeks,
            reads: self.reads,
        })
    }
}

impl Read for FaultyFile<'_> {
    ghost remaining = { λ s. ⟦<Cursor<&'static [u8]> as Read>⟧.remaining s.bytes };

    fn read(&mut self, buf: &mut [u8]) -> io::Result<usize> {
        self.reads.next()?;
        self.bytes.read(buf)
    }
}

impl Seek for FaultyFile<'_> {
    ghost stream_position = { λ s. ⟦<Cursor<&'static [u8]> as Seek>⟧.stream_position s.bytes };

    ghost stream_bytes = { λ s. ⟦<Cursor<&'static [u8]> as Seek>⟧.stream_bytes s.bytes };

    fn seek(&mut self, to: SeekFrom) -> io::Result<u64> {
        self.seeks.next()?;
        self.bytes.seek(to)
    }
}

#[test]
fn a_failed_seek_or_read_is_no_end(rt: HostRuntime) -> Result<(), Fail> {
    for (seeks, reads, answer) in [
        ([].as_slice(), [].as_slice(), Ok(2)),
        (&[], &[Interrupted], Ok(2)),
        (&[BrokenPipe], &[], Err(Failed)),
        (&[], &[BrokenPipe], Err(Failed)),
    ] {
        let mut files = HostFiles::new(OneFile {
            bytes: b"123",
            seeks: Faults(seeks),
            reads: Faults(reads),
        });
        let mut into = [0u8; 3];
        assert_eq!(rt; files.read("any", 1, &mut into), answer);
    }
    Ok(())
}

#[test]
fn reads_a_file_from_an_offset(rt: HostRuntime) -> Result<(), Fail> {
    let alloc = rt.alloc();
    let id = process::id(rt.process());
    let path = format!(in alloc; "/tmp/raw_io_{id}")?;
    fs::write(&rt, path.as_str(), b"12345")?;
    let mut files = HostFiles::new(&rt);
    let mut into = [0u8; 3];
    for (at, answer, bytes) in [
        (0, Ok(3), *b"123"),
        (3, Ok(2), *b"453"),
        (5, Ok(0), *b"453"),
    ] {
        assert_eq!(rt; files.read(&path, at, &mut into), answer, "from {at}");
        assert_eq!(rt; into, bytes, "from {at}");
    }
    let whole = read_all(alloc, &mut files, &path, 5);
    fs::remove_file(&rt, path.as_str())?;
    assert_eq!(rt; whole?.as_slice(), b"12345".as_slice());
    assert_eq!(rt; files.read(&path, 0, &mut into), Err(Failed));
    Ok(())
}
