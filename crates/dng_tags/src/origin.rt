//! The first group: the file, its DNG version, and the directory of its raw image.

ghost use Rattle.std.specs.Prelude.{◌≡◌, ◌<◌, length, IfOk};
ghost use Rattle.opcode_list.specs.Lists.{is_newer};
ghost use Rattle.dng_tags.specs.Origin.{first_raw, needed_version_of, origin_of, raw_directory_of};
ghost use Rattle.dng_tags.specs.Origin.{refusing, subfile_type_at, tiff_of, version_in, version_of};

use tag_rules::{Directories, FrameFault, Tag, Whole, whole_in};
use tiff_dirs::{Dir, Tiff, TiffFault};

/// The first two numbers of a DNG version.
#[derive(Clone, Copy, Debug, PartialEq, Eq)]
pub struct Version {
    pub major: u32,
    pub minor: u32,
}

impl Version {
    /// The first two of a version's four numbers.
    fn read(numbers: &Whole<'_>) -> Version
        requires { 1 < length numbers.now }
        ensures { result ≡ version_in numbers.now }
    {
        Version {
            major: numbers.at(0),
            minor: numbers.at(1),
        }
    }

    /// Whether it is later than 1.6.
    fn is_newer(self) -> bool
        ensures { result ≡ is_newer self.major self.minor }
    {
        self.major > 1 || (self.major == 1 && self.minor > 6)
    }
}

/// The file, whose header and directory 0 are there.
///
/// # Errors
///
/// `NotTiff`, `BadDirectory`.
#[tactic(auto, using(crate::proofs::OriginLemmas::file_is), unfolding(crate::specs::Origin::tiff_of))]
pub fn open(bytes: &[u8]) -> Result<Tiff<'_>, FrameFault>
    ensures answer { result ≡ tiff_of bytes.now }
    ensures whole { IfOk result (λ file. file ≡ bytes.now) }
{
    refuse(Tiff::open(bytes))
}

/// A fault of a file or a directory as a frame's.
fn refuse<T>(found: Result<T, TiffFault>) -> Result<T, FrameFault>
    ensures { result ≡ refusing found }
{
    match found {
        Ok(value) => Ok(value),
        Err(TiffFault::NotTiff) => Err(FrameFault::NotTiff),
        Err(TiffFault::BadDirectory { at }) => Err(FrameFault::BadDirectory { at }),
    }
}

/// The directories that tags are looked for in.
///
/// # Errors
///
/// `NotDng`, `Newer`, `BadDirectory`, `NoRaw`, and what reading the tags is refused for.
#[tactic(auto, unfolding(crate::specs::Origin::origin_of))]
pub fn read_origin<'a>(tiff: &'a Tiff<'a>) -> Result<Directories<'a>, FrameFault>
    ensures answer { result ≡ origin_of tiff.now }
    ensures whole { IfOk result (λ dirs. dirs.bytes ≡ tiff.now) }
{
    let version = read_version(tiff)?;
    check_needed_version(tiff, version)?;
    let raw = raw_directory(tiff)?;
    Ok(Directories::new(tiff, raw))
}

#[tactic(auto, unfolding(crate::specs::Origin::version_of))]
fn read_version<'a>(tiff: &'a Tiff<'a>) -> Result<Version, FrameFault>
    ensures { result ≡ version_of tiff.now }
{
    match whole_in(tiff, &tiff.first(), Tag::DngVersion)? {
        Some(numbers) => Ok(Version::read(&numbers)),
        None => Err(FrameFault::NotDng),
    }
}

/// The version that a reader needs, which is the file's own where the tag is absent.
#[tactic(auto, unfolding(crate::specs::Origin::needed_version_of))]
fn check_needed_version<'a>(tiff: &'a Tiff<'a>, version: Version) -> Result<Version, FrameFault>
    ensures { result ≡ needed_version_of tiff.now version }
{
    let needed = match whole_in(tiff, &tiff.first(), Tag::DngBackwardVersion)? {
        Some(numbers) => Version::read(&numbers),
        None => version,
    };
    if needed.is_newer() {
        return Err(FrameFault::Newer);
    }
    Ok(needed)
}

/// NewSubFileType of a directory.
#[tactic(auto, unfolding(crate::specs::Origin::subfile_type_at))]
fn subfile_type<'a>(tiff: &'a Tiff<'a>, dir: &Dir<'_>) -> Result<u32, FrameFault>
    ensures { result ≡ subfile_type_at tiff.now dir.now }
{
    match whole_in(tiff, dir, Tag::NewSubfileType)? {
        Some(numbers) => Ok(numbers.at(0)),
        None => Ok(0),
    }
}

/// The first directory of the raw image, among directory 0 and its SubIFDs.
#[tactic(auto, unfolding(crate::specs::Origin::raw_directory_of))]
fn raw_directory<'a>(tiff: &'a Tiff<'a>) -> Result<Dir<'a>, FrameFault>
    ensures { result ≡ raw_directory_of tiff.now }
{
    let first = tiff.first();
    if subfile_type(tiff, &first)? == 0 {
        return Ok(first);
    }
    match whole_in(tiff, &first, Tag::SubIfds)? {
        Some(offsets) => first_raw(tiff, &offsets),
        None => Err(FrameFault::NoRaw),
    }
}

/// The first directory of the raw image, among those at these offsets.
#[tactic(auto, using(crate::proofs::OriginLemmas::first_raw_step, crate::proofs::OriginLemmas::first_raw_end))]
fn first_raw<'a>(tiff: &'a Tiff<'a>, offsets: &Whole<'_>) -> Result<Dir<'a>, FrameFault>
    ensures { result ≡ first_raw tiff.now offsets.now }
{
    for i in 0..offsets.len() {
        let dir = refuse(tiff.dir(offsets.at(i)))?;
        if subfile_type(tiff, &dir)? == 0 {
            return Ok(dir);
        }
    }
    Err(FrameFault::NoRaw)
}
