//! Tests of settings files.

use super::outside::{Outside, ends_so, flat_file};
use developer::Status;
use std::alloc::{AllocError, Global};
use std::test::Fail;

/// The status of a run over the flat frame and a settings file, and what it wrote. The script is a region of one pixel.
fn ran_under(alloc: Global, settings: &[u8]) -> Result<(Status, Vec<u8>), AllocError> {
    let mut outside = Outside::new(alloc, &flat_file(alloc)?, b"region 0 0 1 1 ppm\n")?;
    outside.files.add("s.toml", settings)?;
    let status = outside.run(alloc, &["f.dng", "--settings", "s.toml"])?;
    Ok((status, outside.out.bytes().to_vec(alloc)?))
}

/// Whether such a run refuses the settings file with a line.
fn are_refused(alloc: Global, settings: &[u8], line: &[u8]) -> Result<bool, AllocError> {
    let (status, written) = ran_under(alloc, settings)?;
    Ok(status == Status::Settings && written.as_slice() == line)
}

fn refused_files() -> [(&'static [u8], &'static [u8]); 12] {
    [
        (b"tone = \"gamma\"", b"settings Value tone\n"),
        (b"tint = 1", b"settings Key tint\n"),
        (b"matrix = \"forward1\"", b"settings Matrix\n"),
        (b"x =", b"settings NotToml\n"),
        (b"# \xFF", b"settings NotToml\n"),
        (b"black = 65535", b"settings Levels\n"),
        (
            b"black = 65535\nmatrix = \"forward2\"",
            b"settings Matrix\n",
        ),
        (b"version = 2\ntone = 1", b"settings Value version\n"),
        (b"a-Z_9 = 1", b"settings Key a-Z_9\n"),
        (b"'' = 1", b"settings Key ?\n"),
        (b"'a b' = 1", b"settings Key ?\n"),
        (b"'\xC3\xA4' = 1", b"settings Key ?\n"),
    ]
}

#[test]
fn settings_files_are_refused(rt: HostRuntime) -> Result<(), Fail> {
    let alloc = rt.alloc();
    for (file, line) in refused_files() {
        assert!(rt; are_refused(alloc, file, line)?, "{line:?}");
    }
    Ok(())
}

/// A key of `n` letters.
fn long_key(alloc: Global, n: usize) -> Result<Vec<u8>, AllocError> {
    let mut file = vec![in alloc; b'k'; n]?;
    for byte in b" = 1" {
        file.push(*byte)?;
    }
    Ok(file)
}

/// The line of a refused key of 64 letters.
fn line_of_64_letters(alloc: Global) -> Result<Vec<u8>, AllocError> {
    let mut line = b"settings Key ".to_vec(alloc)?;
    line.resize(13 + 64, b'k')?;
    line.push(b'\n')?;
    Ok(line)
}

#[test]
fn long_names_are_not_printed(rt: HostRuntime) -> Result<(), Fail> {
    let alloc = rt.alloc();
    assert!(rt; are_refused(alloc, &long_key(alloc, 64)?, &line_of_64_letters(alloc)?)?);
    assert!(rt; are_refused(alloc, &long_key(alloc, 65)?, b"settings Key ?\n")?);
    Ok(())
}

#[test]
fn long_files_are_refused(rt: HostRuntime) -> Result<(), Fail> {
    let alloc = rt.alloc();
    let mut file = vec![in alloc; b'#'; 65_536]?;
    assert!(rt; ran_under(alloc, &file)?.0 == Status::Done);
    file.push(b'#')?;
    assert!(rt; are_refused(alloc, &file, b"settings TooLong\n")?);
    Ok(())
}

/// Whether an empty file is refused as a frame, though the settings file is no TOML either.
fn refused_as_a_frame(alloc: Global) -> Result<bool, AllocError> {
    let mut outside = Outside::new(alloc, b"", b"")?;
    outside.files.add("s.toml", b"x =")?;
    let status = outside.run(alloc, &["f.dng", "--settings", "s.toml"])?;
    Ok(status == Status::Frame && outside.out.bytes() == b"refused NotTiff\n".as_slice())
}

#[test]
fn a_frame_is_refused_before_its_settings(rt: HostRuntime) -> Result<(), Fail> {
    let alloc = rt.alloc();
    assert!(rt; refused_as_a_frame(alloc)?);
    let words = &["f.dng", "--settings", "nothing"];
    assert_eq!(rt;
        ends_so(alloc, &flat_file(alloc)?, words, b"")?,
        Some(Status::ReadFault)
    );
    Ok(())
}

/// Whether the pixel is this one under a settings file.
fn develop(alloc: Global, settings: &[u8], pixel: &[u8]) -> Result<bool, AllocError> {
    let (status, written) = ran_under(alloc, settings)?;
    Ok(status == Status::Done && written.ends_with(pixel))
}

#[test]
fn settings_are_those_of_the_development(rt: HostRuntime) -> Result<(), Fail> {
    let alloc = rt.alloc();
    assert!(rt; develop(alloc, b"exposure = 2048\n", b"\x24\x68\x24\x68\x24\x68")?);
    assert!(rt; develop(alloc, b"tone = [0, 65535, 65535, 65535]\n", &[255; 6])?);
    Ok(())
}
