//! Whole reads and writes, over files, sources and sinks in memory.

use raw_io::{
    Failed, MemFiles, MemSink, MemSource, ReadFault, Sink, WriteFault, read_all, read_source,
    write_all,
};
use std::alloc::{AllocError, Global};
use std::test::Fail;

/// More than one call is asked for.
const LONG: usize = 300_000;

fn long_text(alloc: Global) -> Result<Vec<u8>, AllocError> {
    vec![in alloc; 7u8; LONG]
}

#[test]
fn reads_the_whole_or_says_why_not(rt: HostRuntime) -> Result<(), Fail> {
    let alloc = rt.alloc();
    let mut files = MemFiles::new(alloc)?;
    files.add("short", b"12345")?;
    files.add("empty", b"")?;
    files.add("long", &long_text(alloc)?)?;
    // The calls of the first three cases are 2, 1 and 2; the second read of the long one fails the first time.
    files.fail_at(5)?;
    for (name, limit, wanted) in [
        ("short", 5, Ok(5)),
        ("short", 4, Err(ReadFault::TooLong)),
        ("long", u64::MAX, Err(ReadFault::Failed)),
        ("long", 300_000, Ok(300_000)),
        ("long", 299_999, Err(ReadFault::TooLong)),
        ("empty", 0, Ok(0)),
        ("none", 5, Err(ReadFault::Failed)),
    ] {
        let answer = read_all(alloc, &mut files, name, limit).map(|bytes| bytes.len());
        assert_eq!(rt; answer, wanted, "{name} to {limit}");
    }
    assert_eq!(rt;
        read_all(alloc, &mut files, "short", 5)?.as_slice(),
        b"12345".as_slice()
    );
    Ok(())
}

#[test]
fn takes_the_whole_source_or_says_why_not(rt: HostRuntime) -> Result<(), Fail> {
    let alloc = rt.alloc();
    for (fails, limit, wanted, len) in [
        (0, 300_000u32, Ok(()), 300_000),
        (0, 299_999, Err(ReadFault::TooLong), 300_000),
        (2, 300_000, Err(ReadFault::Failed), 262_144),
        (1, 300_000, Err(ReadFault::Failed), 0),
    ] {
        let mut source = MemSource::new(alloc, &long_text(alloc)?)?;
        source.fail_at(fails)?;
        let mut bytes = Vec::new(alloc);
        assert_eq!(rt;
            read_source(&mut source, &mut bytes, u64::from(limit)),
            wanted
        );
        assert_eq!(rt; bytes.len(), len);
    }
    Ok(())
}

/// A sink that takes two bytes at a time.
#[derive(Drop)]
struct TwoAtATime {
    sink: MemSink,
}

impl Sink for TwoAtATime {
    ghost use Rattle.std.specs.Prelude.{⊤};

    ghost stands_for = { λ _ _. ⊤ };

    ghost faults = { λ s. s.sink.faults };

    fn write(&mut self, from: &[u8]) -> Result<usize, Failed> {
        self.sink.write(&from[..from.len().min(2)])
    }
}

#[test]
fn writes_all_or_says_how_many(rt: HostRuntime) -> Result<(), Fail> {
    for (capacity, fails, wanted, held) in [
        (5, 0, Ok(()), b"abcde".as_slice()),
        (5, 2, Err(WriteFault { written: 2 }), b"ab".as_slice()),
        (4, 0, Err(WriteFault { written: 4 }), b"abcd".as_slice()),
        (5, 1, Err(WriteFault { written: 0 }), b"".as_slice()),
    ] {
        let mut to = TwoAtATime {
            sink: MemSink::new(rt.alloc(), capacity)?,
        };
        to.sink.fail_at(fails)?;
        assert_eq!(rt; write_all(&mut to, b"abcde"), wanted);
        assert_eq!(rt; to.sink.bytes(), held);
    }
    Ok(())
}
