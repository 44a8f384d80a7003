//! Files, sources and sinks in memory, whose calls fail where they are told to.

use raw_io::{Failed, Files, MemFiles, MemSink, MemSource, Sink, Source};
use std::test::Fail;

#[test]
fn a_source_gives_its_bytes_once(rt: HostRuntime) -> Result<(), Fail> {
    let mut source = MemSource::new(rt.alloc(), &[1, 2, 3, 4, 5])?;
    source.fail_at(2)?;
    let mut into = [0u8; 3];
    for (answer, bytes) in [
        (Ok(3), [1, 2, 3]),
        (Err(Failed), [1, 2, 3]),
        (Ok(2), [4, 5, 3]),
        (Ok(0), [4, 5, 3]),
    ] {
        assert_eq!(rt; source.read(&mut into), answer);
        assert_eq!(rt; into, bytes);
    }
    Ok(())
}

#[test]
fn a_sink_takes_what_fits(rt: HostRuntime) -> Result<(), Fail> {
    let mut sink = MemSink::new(rt.alloc(), 5)?;
    sink.fail_at(2)?;
    for (from, answer) in [
        (b"abc".as_slice(), Ok(3)),
        (b"d".as_slice(), Err(Failed)),
        (b"def".as_slice(), Err(Failed)),
        (b"de".as_slice(), Ok(2)),
        (b"".as_slice(), Ok(0)),
        (b"f".as_slice(), Err(Failed)),
    ] {
        assert_eq!(rt; sink.write(from), answer);
    }
    assert_eq!(rt; sink.bytes(), b"abcde".as_slice());
    Ok(())
}

#[test]
fn a_name_has_the_contents_that_it_was_given_last(rt: HostRuntime) -> Result<(), Fail> {
    let alloc = rt.alloc();
    let mut files = MemFiles::new(alloc)?;
    files.add("a", b"old")?;
    files.add("b", b"other")?;
    files.add("a", b"12345")?;
    files.fail_at(2)?;
    let mut into = [0u8; 3];
    for (name, at, answer, bytes) in [
        ("a", 0, Ok(3), *b"123"),
        ("a", 0, Err(Failed), *b"123"),
        ("a", 3, Ok(2), *b"453"),
        ("a", 5, Ok(0), *b"453"),
        ("a", u64::MAX, Ok(0), *b"453"),
        ("b", 1, Ok(3), *b"the"),
        ("c", 0, Err(Failed), *b"the"),
        ("", 0, Err(Failed), *b"the"),
    ] {
        assert_eq!(rt; files.read(name, at, &mut into), answer, "{name} from {at}");
        assert_eq!(rt; into, bytes, "{name} from {at}");
    }
    Ok(())
}
