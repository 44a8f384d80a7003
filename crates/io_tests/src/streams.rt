//! A source over a reader of std, and a sink over a writer.

use super::failing::Faults;
use raw_io::{
    Failed, ReadFault, Sink, Source, StdSink, StdSource, WriteFault, read_source, write_all,
};
use std::io;
use std::io::ErrorKind::{BrokenPipe, Interrupted};
use std::io::{Read, Write};
use std::test::Fail;

#[derive(Drop)]
struct FaultyReader<'a> {
    bytes: &'a [u8],
    faults: Faults<'a>,
}

impl Read for FaultyReader<'_> {
    fn read(&mut self, buf: &mut [u8]) -> io::Result<usize> {
        self.faults.next()?;
        self.bytes.read(buf)
    }
}

#[derive(Drop)]
struct FaultyWriter<'a> {
    bytes: Vec<u8>,
    writes: Faults<'a>,
    flushes: Faults<'a>,
}

impl Write for FaultyWriter<'_> {
    fn write(&mut self, buf: &[u8]) -> io::Result<usize> {
        self.writes.next()?;
        self.bytes.write(&buf[..buf.len().min(2)])
    }

    fn flush(&mut self) -> io::Result<()> {
        self.flushes.next()
    }
}

#[test]
fn passes_bytes_on(rt: HostRuntime) -> Result<(), Fail> {
    let mut source = StdSource::new(b"123".as_slice());
    let mut into = [0u8; 2];
    for (answer, bytes) in [(Ok(2), *b"12"), (Ok(1), *b"32"), (Ok(0), *b"32")] {
        assert_eq!(rt; source.read(&mut into), answer);
        assert_eq!(rt; into, bytes);
    }
    let mut held = Vec::new(rt.alloc());
    assert_eq!(rt; write_all(&mut StdSink::new(&mut held), b"12"), Ok(()));
    assert_eq!(rt; held.as_slice(), b"12".as_slice());
    let mut room = [0u8; 2];
    let full = write_all(&mut StdSink::new(room.as_mut_slice()), b"123");
    assert_eq!(rt; full, Err(WriteFault { written: 2 }));
    Ok(())
}

#[test]
fn a_failed_read_is_no_end(rt: HostRuntime) -> Result<(), Fail> {
    for (faults, wanted, len) in [
        ([].as_slice(), Ok(()), 3),
        ([Interrupted, Interrupted].as_slice(), Ok(()), 3),
        ([BrokenPipe].as_slice(), Err(ReadFault::Failed), 0),
        (
            [Interrupted, BrokenPipe].as_slice(),
            Err(ReadFault::Failed),
            0,
        ),
    ] {
        let mut source = StdSource::new(FaultyReader {
            bytes: b"123",
            faults: Faults(faults),
        });
        let mut bytes = Vec::new(rt.alloc());
        assert_eq!(rt; read_source(&mut source, &mut bytes, 9), wanted);
        assert_eq!(rt; bytes.len(), len);
    }
    Ok(())
}

#[test]
fn a_write_counts_what_went_out(rt: HostRuntime) -> Result<(), Fail> {
    for (writes, flushes, wanted, held) in [
        ([].as_slice(), [].as_slice(), Ok(()), b"123".as_slice()),
        (&[Interrupted], &[Interrupted], Ok(()), b"123"),
        (&[BrokenPipe], &[], Err(WriteFault { written: 0 }), b""),
        // A flush that goes well at the second try, and one that doesn't.
        (&[], &[BrokenPipe], Ok(()), b"123"),
        (
            &[],
            &[BrokenPipe, BrokenPipe],
            Err(WriteFault { written: 2 }),
            b"12",
        ),
    ] {
        let mut writer = FaultyWriter {
            bytes: Vec::new(rt.alloc()),
            writes: Faults(writes),
            flushes: Faults(flushes),
        };
        assert_eq!(rt; write_all(&mut StdSink::new(&mut writer), b"123"), wanted);
        assert_eq!(rt; writer.bytes.as_slice(), held);
    }
    Ok(())
}

#[test]
fn a_flush_tells_whether_all_went_out(rt: HostRuntime) -> Result<(), Fail> {
    let mut sink = StdSink::new(FaultyWriter {
        bytes: Vec::new(rt.alloc()),
        writes: Faults(&[]),
        flushes: Faults(&[BrokenPipe, BrokenPipe]),
    });
    assert_eq!(rt; sink.write(b"1"), Ok(1));
    assert_eq!(rt; sink.flush(), Err(Failed));
    assert_eq!(rt; sink.flush(), Ok(()));
    Ok(())
}
