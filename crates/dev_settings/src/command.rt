//! The commands of a script, one to a line.

ghost use Rattle.std.specs.Prelude.{◌≡◌, option_map, IfOk};
ghost use Rattle.dev_settings.specs.Commands.{command_of, curve_value_of, integer_of, key_value_of, rectangle_of};
ghost use Rattle.dev_settings.specs.Commands.{region_of, set_of, stat_of, value_of};
ghost use Rattle.dev_settings.specs.Ranges.{CommandInRange};
ghost use Rattle.dev_settings.specs.inner.Shown.{shown};
ghost use Rattle.dev_settings.specs.Values.{integers_of};

use crate::format::Format;
use crate::integers::Integers;
use crate::key::{Key, key_named};
use crate::settings::Change;
use crate::word::{Words, number, signed, unsigned};
use crate::written::{Written, change};
use thiserror::Error;

/// What a line asks for.
#[derive(Clone, Copy, Debug, PartialEq, Eq)]
pub enum Command {
    /// `set KEY VALUE`: the change of a setting.
    Set(Change),
    /// `region X Y W H FORMAT`: the rectangle of `w` columns from `x` and `h` rows from `y`, as an image. Neither `w`
    /// nor `h` is 0; whether the rectangle lies in the plane is for the caller.
    Region {
        x: u32,
        y: u32,
        w: u32,
        h: u32,
        format: Format,
    },
    /// `stat`: the numbers of the work done so far.
    Stat,
}

/// Why a line is refused: its first fault, in this order.
#[derive(Clone, Copy, Debug, PartialEq, Eq, Error)]
pub enum LineFault {
    /// There is no word, the first isn't that of a command, or there are too few or too many.
    #[error("no command, or too few or too many words")]
    Word,
    /// The word after `set` isn't a key.
    #[error("an unknown key")]
    Key,
    /// The words after the key aren't of its form and range.
    #[error("a wrong value")]
    Value,
    /// A number or the format of the region isn't one, or its width or height is 0.
    #[error("a wrong region")]
    Region,
}

impl Command {
    /// The command that the text of a line gives, its carriage return already taken off.
    ///
    /// # Errors
    ///
    /// The first of the faults of [`LineFault`] that the line has.
    pub fn read(line: &[u8]) -> Result<Self, LineFault>
        ensures command { result ≡ command_of line.now }
        ensures in_range { IfOk result CommandInRange }
    {
        let mut words = Words::of(line);
        match words.next() {
            Some(word) if word == b"set".as_slice() => set(&mut words),
            Some(word) if word == b"region".as_slice() => region(&mut words),
            Some(word) if word == b"stat".as_slice() => stat(&words),
            _ => Err(LineFault::Word),
        }
    }
}

/// The command of the words after `set`.
fn set(words: &mut Words<'_>) -> Result<Command, LineFault>
    ensures { result ≡ set_of words.old }
{
    let Some(word) = words.next() else {
        return Err(LineFault::Word);
    };
    let Some(key) = key_named(word) else {
        return Err(LineFault::Key);
    };
    let Some(value) = key_value(key, words) else {
        return Err(LineFault::Value);
    };
    match change(key, &value) {
        Some(change) => Ok(Command::Set(change)),
        None => Err(LineFault::Value),
    }
}

/// The value that the words after a key give.
fn key_value<'a>(key: Key, words: &mut Words<'a>) -> Option<Written<'a>>
    ensures { option_map shown result ≡ key_value_of key words.old }
{
    match key {
        Key::Matrix => value(words, true),
        Key::Tone => curve_value(words),
        _ => value(words, false),
    }
}

/// The value that words give. A minus sign may stand before an integer where `minus` says so.
fn value<'a>(words: &mut Words<'a>, minus: bool) -> Option<Written<'a>>
    ensures { option_map shown result ≡ value_of minus words.old }
{
    let Some(word) = words.only() else {
        return Some(Written::List(integers(words, minus)?));
    };
    match integer(word, minus) {
        Some(integer) => Some(Written::Integer(integer)),
        None => Some(Written::Name(word)),
    }
}

/// The curve that words give.
fn curve_value<'a>(words: &mut Words<'a>) -> Option<Written<'a>>
    ensures { option_map shown result ≡ curve_value_of words.old }
{
    let word = words.next()?;
    if word == b"knots".as_slice() {
        Some(Written::List(integers(words, false)?))
    } else if words.is_done() {
        Some(Written::Name(word))
    } else {
        None
    }
}

/// The integers that words write.
fn integers(words: &mut Words<'_>, minus: bool) -> Option<Integers>
    ensures { result ≡ integers_of (integer_of minus) words.old }
{
    let mut list = Integers::new();
    while let Some(word) = words.next() {
        if list.is_full() {
            return None;
        }
        let integer = integer(word, minus)?;
        list.push(integer);
    }
    Some(list)
}

/// The integer that a word writes.
fn integer(word: &[u8], minus: bool) -> Option<i64>
    ensures { result ≡ integer_of minus word.now }
{
    if minus { signed(word) } else { unsigned(word) }
}

/// The command of the words after `region`.
fn region(words: &mut Words<'_>) -> Result<Command, LineFault>
    ensures { result ≡ region_of words.old }
{
    let (Some(x), Some(y), Some(w), Some(h), Some(format)) = (
        words.next(),
        words.next(),
        words.next(),
        words.next(),
        words.only(),
    ) else {
        return Err(LineFault::Word);
    };
    match rectangle(x, y, w, h, format) {
        Some(region) => Ok(region),
        None => Err(LineFault::Region),
    }
}

/// The region that the words X Y W H FORMAT name.
fn rectangle(x: &[u8], y: &[u8], w: &[u8], h: &[u8], format: &[u8]) -> Option<Command>
    ensures { result ≡ rectangle_of x.now y.now w.now h.now format.now }
{
    let x = number(x)?;
    let y = number(y)?;
    let w = number(w)?;
    let h = number(h)?;
    let format = Format::named(format)?;
    if w == 0 || h == 0 {
        return None;
    }
    Some(Command::Region { x, y, w, h, format })
}

/// The command of the words after `stat`.
fn stat(words: &Words<'_>) -> Result<Command, LineFault>
    ensures { result ≡ stat_of words.now }
{
    if words.is_done() {
        Ok(Command::Stat)
    } else {
        Err(LineFault::Word)
    }
}
