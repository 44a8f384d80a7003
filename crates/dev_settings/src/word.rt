//! The words of a line, and the numbers among them.

ghost use Rattle.std.specs.Prelude.{◌≡◌, ◌≢◌, ◌==◌, ◌∷◌, [], ◌↔◌, not, IsTrue, length, position, MatchOption};
ghost use Rattle.std.specs.Char.{is_ascii_digit};
ghost use Rattle.std.specs.List.{list_all};
ghost use Rattle.std.specs.Str.Parse.{digits_value};
ghost use Rattle.dev_settings.specs.Words.{words, is_numeral, number_of, signed_of, unsigned_of};

use std::marker::Model;

/// A number has at most this many digits.
const MAX_DIGITS: usize = 10;

/// The words of a line that are left. Contracts see it as the list of these words.
#[derive(Drop)]
pub(crate) struct Words<'a> {
    rest: &'a [u8],
}

impl<'a> Model for Words<'a> {
    ghost use Rattle.std.specs.Prelude.{ℕ, List};
    ghost use Rattle.dev_settings.specs.Words.{words};

    ghost Value = { List (List ℕ) };

    ghost view = { λ left. words left.rest.now };
}

impl<'a> Words<'a> {
    /// The words of a line.
    pub fn of(line: &'a [u8]) -> Self
        ensures { result ≡ words line.now }
    {
        Words { rest: line }
    }

    /// Takes the next word. `None` where no word is left.
    pub fn next(&mut self) -> Option<&'a [u8]>
        ensures { MatchOption result ((self.old ≡ []) × (self.new ≡ []))
            (λ word. self.old ≡ word.now ∷ self.new) }
    {
        let (word, rest) = first_word(self.rest)?;
        self.rest = rest;
        Some(word)
    }

    /// The word that is left, where it is one and no more.
    pub fn only(&self) -> Option<&'a [u8]>
        ensures { MatchOption result (length self.now ≢ 1) (λ word. self.now ≡ word.now ∷ []) }
    {
        let (word, rest) = first_word(self.rest)?;
        if first_word(rest).is_none() {
            Some(word)
        } else {
            None
        }
    }

    /// Whether no word is left.
    pub fn is_done(&self) -> bool
        ensures { IsTrue result ↔ (self.now ≡ []) }
    {
        first_word(self.rest).is_none()
    }
}

/// The first word of a line, and what follows it. `None` where the line has no word.
pub(crate) fn first_word(line: &[u8]) -> Option<(&[u8], &[u8])>
    ensures { MatchOption result (words line.now ≡ [])
        (λ p. words line.now ≡ p.0.now ∷ words p.1.now) }
{
    let line = &line[first_letter(line)?..];
    let end = first_space(line).unwrap_or(line.len());
    Some(line.split_at(end))
}

/// Where the first byte that is no space stands.
fn first_letter(line: &[u8]) -> Option<usize>
    ensures { result ≡ position (λ byte. not (byte == 32)) line.now }
{
    line.iter().position(|byte| *byte != b' ')
}

/// Where the first space stands.
fn first_space(line: &[u8]) -> Option<usize>
    ensures { result ≡ position (λ byte. byte == 32) line.now }
{
    line.iter().position(|byte| *byte == b' ')
}

/// The number that a word writes, where it is 1 to 10 decimal digits and the number fits 32 bits.
pub fn number(word: &[u8]) -> Option<u32>
    ensures { result ≡ number_of word.now }
{
    if !is_numeral(word) {
        return None;
    }
    u32::try_from(value(word)).ok()
}

/// The integer that a number writes.
pub(crate) fn unsigned(word: &[u8]) -> Option<i64>
    ensures { result ≡ unsigned_of word.now }
{
    number(word).map(i64::from)
}

/// The integer that a number writes, with a minus sign before it or without.
pub(crate) fn signed(word: &[u8]) -> Option<i64>
    ensures { result ≡ signed_of word.now }
{
    match word {
        [b'-', digits @ ..] => Some(-i64::from(number(digits)?)),
        _ => unsigned(word),
    }
}

/// Whether a word is 1 to 10 decimal digits.
fn is_numeral(word: &[u8]) -> bool
    ensures { result ≡ is_numeral word.now }
{
    !word.is_empty() && word.len() <= MAX_DIGITS && all_digits(word)
}

/// Whether each byte of a word is a decimal digit.
fn all_digits(word: &[u8]) -> bool
    ensures { result ≡ list_all is_ascii_digit word.now }
{
    word.iter().all(|byte| byte.is_ascii_digit())
}

/// The number that 1 to 10 decimal digits write.
fn value(digits: &[u8]) -> u64
    requires { IsTrue (is_numeral digits.now) }
    ensures { result ≡ digits_value 10 digits.now }
{
    let mut value = 0;
    for digit in digits {
        value = value * 10 + u64::from(*digit - b'0');
    }
    value
}
