//! The values of settings, as a script line or a settings file gives them.

ghost use Rattle.std.specs.Prelude.{◌≡◌, ◌≤◌, length, pos, option_and_then};
ghost use Rattle.tone_table.specs.Knots.{knots_of};
ghost use Rattle.dev_settings.specs.Values.{change_of, demosaic_of, curve_named, entries_of, entry_of, exposure_of};
ghost use Rattle.dev_settings.specs.Values.{gain_of, gains_of, level_of, matrix_named, matrix_of, points_of, tone_of};
ghost use Rattle.dev_settings.specs.Values.{wb_of, within};
ghost use Rattle.dev_settings.specs.inner.Shown.{first_point_of, shown};

use crate::integers::Integers;
use crate::key::Key;
use crate::settings::{Change, MatrixChoice};
use malvar::Kind;
use tone_table::{Curve, Knots, MAX_KNOTS};

/// A value as it is written.
#[derive(Drop)]
pub(crate) enum Written<'a> {
    /// A name, such as `frame`, or a text that is no value at all.
    Name(&'a [u8]),
    Integer(i64),
    List(Integers),
}

/// The change of a key to a value.
pub(crate) fn change(key: Key, written: &Written<'_>) -> Option<Change>
    ensures { result ≡ change_of key (shown written.now) }
{
    match key {
        Key::Black => Some(Change::Black(level(written, 0)?)),
        Key::White => Some(Change::White(level(written, 1)?)),
        Key::Demosaic => Some(Change::Demosaic(demosaic(written)?)),
        Key::Wb => Some(Change::Wb(wb(written)?)),
        Key::Exposure => Some(Change::Exposure(exposure(written)?)),
        Key::Matrix => Some(Change::Matrix(matrix(written)?)),
        Key::Tone => Some(Change::Tone(tone(written)?)),
    }
}

/// The integer, where it is from `low` to `high`.
fn within(integer: i64, low: u32, high: u32) -> Option<u32>
    ensures { result ≡ within low high integer }
{
    if integer < i64::from(low) || i64::from(high) < integer {
        None
    } else {
        Some(integer as u32)
    }
}

/// The integer, where it is from `low` to 65535.
fn short_within(integer: i64, low: u16) -> Option<u16>
    ensures { result ≡ within low 65535 integer }
{
    if integer < i64::from(low) || 65_535 < integer {
        None
    } else {
        Some(integer as u16)
    }
}

/// A black or white level from `low` on, or `frame`.
fn level(written: &Written<'_>, low: u16) -> Option<Option<u16>>
    ensures { result ≡ level_of low (shown written.now) }
{
    match written {
        Written::Name(name) => (*name == b"frame".as_slice()).then_some(None),
        Written::Integer(integer) => Some(Some(short_within(*integer, low)?)),
        Written::List(_) => None,
    }
}

/// How colours are found.
fn demosaic(written: &Written<'_>) -> Option<Kind>
    ensures { result ≡ demosaic_of (shown written.now) }
{
    match written {
        Written::Name(name) if *name == b"malvar".as_slice() => Some(Kind::Malvar),
        Written::Name(name) if *name == b"bilinear".as_slice() => Some(Kind::Bilinear),
        _ => None,
    }
}

/// Gains, or `shot`.
fn wb(written: &Written<'_>) -> Option<Option<[u32; 3]>>
    ensures { result ≡ wb_of (shown written.now) }
{
    match written {
        Written::Name(name) => (*name == b"shot".as_slice()).then_some(None),
        Written::Integer(_) => None,
        Written::List(list) => Some(Some(gains(list.as_slice())?)),
    }
}

/// A gain in 4096ths.
fn gain(integer: i64) -> Option<u32>
    ensures { result ≡ gain_of integer }
{
    within(integer, 1, 1 << 20)
}

/// The gains of red, green and blue.
fn gains(integers: &[i64]) -> Option<[u32; 3]>
    ensures { result ≡ gains_of integers.now }
{
    match integers {
        [red, green, blue] => {
            let red = gain(*red)?;
            let green = gain(*green)?;
            let blue = gain(*blue)?;
            Some([red, green, blue])
        }
        _ => None,
    }
}

/// An exposure in 1024ths.
fn exposure(written: &Written<'_>) -> Option<u32>
    ensures { result ≡ exposure_of (shown written.now) }
{
    match written {
        Written::Integer(integer) => within(*integer, 0, 1 << 16),
        _ => None,
    }
}

/// A matrix, by its name or its entries.
fn matrix(written: &Written<'_>) -> Option<MatrixChoice>
    ensures { result ≡ matrix_of (shown written.now) }
{
    match written {
        Written::Name(name) => matrix_named(name),
        Written::Integer(_) => None,
        Written::List(list) => Some(MatrixChoice::Own(entries(list.as_slice())?)),
    }
}

/// The matrix with a name.
fn matrix_named(name: &[u8]) -> Option<MatrixChoice>
    ensures { result ≡ matrix_named name.now }
{
    if name == b"auto".as_slice() {
        Some(MatrixChoice::Auto)
    } else if name == b"camera".as_slice() {
        Some(MatrixChoice::Camera)
    } else if name == b"forward1".as_slice() {
        Some(MatrixChoice::Forward1)
    } else if name == b"forward2".as_slice() {
        Some(MatrixChoice::Forward2)
    } else {
        None
    }
}

/// An entry of a matrix.
fn entry(integer: i64) -> Option<i32>
    ensures { result ≡ entry_of integer }
{
    if integer < -16_777_216 || 16_777_216 < integer {
        None
    } else {
        Some(integer as i32)
    }
}

/// The nine entries of a matrix.
fn entries(integers: &[i64]) -> Option<[i32; 9]>
    ensures { result ≡ entries_of integers.now }
{
    if integers.len() != 9 {
        return None;
    }
    let mut entries = [0i32; 9];
    for (at, integer) in integers.iter().enumerate() {
        let entry = entry(*integer)?;
        entries[at] = entry;
    }
    Some(entries)
}

/// A tone curve, by its name or its knots.
fn tone(written: &Written<'_>) -> Option<Curve>
    ensures { result ≡ tone_of (shown written.now) }
{
    match written {
        Written::Name(name) => curve_named(name),
        Written::Integer(_) => None,
        Written::List(list) => Some(Curve::Knots(knots(list.as_slice())?)),
    }
}

/// The curve with a name.
fn curve_named(name: &[u8]) -> Option<Curve>
    ensures { result ≡ curve_named name.now }
{
    if name == b"linear".as_slice() {
        Some(Curve::Linear)
    } else if name == b"root".as_slice() {
        Some(Curve::Root)
    } else {
        None
    }
}

/// The point whose coordinates are the first two integers.
fn first_point(integers: &[i64]) -> Option<(u16, u16)>
    ensures { result ≡ first_point_of integers.now }
{
    match integers {
        [x, y, ..] => {
            let x = short_within(*x, 0)?;
            let y = short_within(*y, 0)?;
            Some((x, y))
        }
        _ => None,
    }
}

/// The knots whose coordinates these are, x and y in turn.
#[tactic(auto, using(crate::proofs::Points::points_of_step, crate::proofs::Points::points_of_none))]
fn knots(integers: &[i64]) -> Option<Knots>
    requires { length integers.now ≤ 32 }
    ensures { result ≡ option_and_then knots_of (points_of integers.now) }
{
    let mut points = [(0u16, 0u16); MAX_KNOTS];
    let mut used = 0;
    let mut rest = integers;
    while rest.len() >= 2 {
        let point = first_point(rest)?;
        points[used] = point;
        used += 1;
        rest = &rest[2..];
    }
    if rest.is_empty() {
        Knots::new(&points[..used])
    } else {
        None
    }
}
