//! Differences from stuffed data bits (ITU-T T.81, Annex H.1.2).

ghost use Rattle.std.specs.Prelude.{◌≡◌, ℕ, ◌+◌, ◌-◌, ◌*◌, ◌/◌, ◌^◌, ◌<◌, ◌≤◌, ◌⊎◌, ◌↔◌, List, [], ◌∷◌, ◌++◌, Bool};
ghost use Rattle.std.specs.Prelude.{length, map, IfOk, IfErr, OnOk, OnErr, MatchOption, ℤ};
ghost use Rattle.std.specs.Bool.{OnTrue};
ghost use Rattle.binary_digits.specs.Digits.{bits_of};
ghost use Rattle.ljpeg_huffman.specs.Words.{Table, IsPrefixFree};
ghost use Rattle.ljpeg_huffman.specs.Differences.{unstuffed, data_bits, by_turns, further_bits, difference, modulo};
ghost use Rattle.ljpeg_huffman.specs.Differences.{SpellsOne, Spells, StopsShort, Takes, EndsWithin, HasNoCode};
ghost use Rattle.ljpeg_huffman.specs.inner.Registers.{bits_left, IsWindow};

use crate::table::CodeTable;
use std::error::Error;
use std::fmt;
use std::marker::Model;

/// Why no difference could be read.
#[derive(Clone, Copy, Debug, PartialEq, Eq)]
pub enum BitFault {
    /// The data ended within a code word or its further bits.
    Ended,
    /// The data went on with the bits of no code word.
    NoCode,
}

impl fmt::Display for BitFault {
    fn fmt<W: fmt::Write>(&self, f: &mut fmt::Formatter<W>) -> fmt::Result {
        match self {
            BitFault::Ended => write!(f, "the data ended within a difference"),
            BitFault::NoCode => write!(f, "the data went on with the bits of no code word"),
        }
    }
}

impl Error for BitFault {}

/// The most bits of one difference: a code word of 16, and 15 further bits.
const MOST_BITS: u32 = 31;

/// The data bits of stuffed bytes, from the next one on. A zero byte behind an FF is taken out, and an FF that no
/// zero follows ends the data.
#[derive(Drop)]
pub struct Bits<'a> {
    register: Register<'a>,
}

impl<'a> Model for Bits<'a> {
    ghost use Rattle.std.specs.Prelude.{List, Bool};
    ghost use Rattle.ljpeg_huffman.specs.inner.Registers.{bits_left};

    ghost Value = { List Bool };

    ghost view = { λ bits. bits_left bits.register.held bits.register.word bits.register.bytes.now };
}

/// Bits that were taken from the data and not read yet: the lowest `held` bits of `word`, before those of `bytes`.
#[derive(Drop)]
struct Register<'a> {
    bytes: &'a [u8],
    word: u64,
    held: u32,
    ghost room: { held < 64 },
}

impl<'a> Bits<'a> {
    /// Stands at the first bit of stuffed data.
    pub fn new(bytes: &'a [u8]) -> Bits<'a>
        ensures { result ≡ data_bits bytes.now }
    {
        Bits {
            register: Register {
                bytes,
                word: 0,
                held: 0,
            },
        }
    }

    /// Takes one code word of the table and its further bits. After a fault the place in the data is unchanged.
    ///
    /// # Errors
    ///
    /// `Ended` where the data ended within the code word or its further bits, `NoCode` where they go on with no code
    /// word.
    pub fn next_difference(&mut self, table: &CodeTable) -> Result<i32, BitFault>
        ensures ok { IfOk result
            (λ value. (taken : List Bool) × (self.old ≡ taken ++ self.new) × SpellsOne table.now taken value) }
        ensures unchanged { OnErr result (self.new ≡ self.old) }
        ensures ended { (result ≡ Err BitFault.Ended) ↔ EndsWithin table.now self.old }
        ensures no_code { (result ≡ Err BitFault.NoCode) ↔ HasNoCode table.now self.old }
    {
        self.register.fill();
        let Some(code) = table.find(self.register.window()) else {
            return Err(BitFault::NoCode);
        };
        let further = further(code.category);
        let size = code.size as u32 + further;
        if self.register.held < size {
            return Err(BitFault::Ended);
        }
        let extra = self.register.take(size, further);
        Ok(extended(code.category, extra))
    }

    /// Takes as many differences as `line` is long, by tables that take turns, and writes them there modulo 2^16. After
    /// a fault `line` holds anything, and the place in the data is some earlier one.
    ///
    /// # Errors
    ///
    /// Those of [`Bits::next_difference`], at the first difference that can't be taken.
    pub fn next_differences(
        &mut self,
        tables: &[&CodeTable],
        line: &mut [u16],
    ) -> Result<(), BitFault>
        requires { 0 < length tables.now }
        ensures ok { OnOk result (Takes (by_turns (map (λ t. t.now) tables.now)) self.old line.new self.new) }
        ensures fault { IfErr result (StopsShort (by_turns (map (λ t. t.now) tables.now)) self.old (length line.old)) }
    {
        let mut turn = 0;
        for difference in line.iter_mut() {
            *difference = modulo(self.next_difference(tables[turn])?);
            turn = if turn + 1 < tables.len() { turn + 1 } else { 0 };
        }
        Ok(())
    }
}

/// A number modulo 2^16.
fn modulo(number: i32) -> u16
    ensures { result ≡ modulo number }
{
    (number.cast_unsigned() % 0x1_0000) as u16
}

/// Bits spell one list of so many differences at most, whatever follows them, by tables in which no code word is a
/// prefix of another.
pub fn one_spelling()
    ensures { (values others : List ℤ) (tables : ℕ → Table) → ((place : ℕ) → IsPrefixFree (tables place))
        → (bits more after behind : List Bool) → Spells tables bits values → Spells tables more others
        → length values ≡ length others → bits ++ after ≡ more ++ behind → (bits ≡ more) × (values ≡ others) }
{}

impl<'a> Register<'a> {
    /// Takes bytes until one difference at least is held, or to the end of the data.
    fn fill(&mut self)
        ensures same { bits_left self.new.held self.new.word self.new.bytes.now
            ≡ bits_left self.old.held self.old.word self.old.bytes.now }
        ensures enough { (MOST_BITS ≤ self.new.held) ⊎ (data_bits self.new.bytes.now ≡ []) }
    {
        if self.held < MOST_BITS && !self.take_four() {
            self.take_bytes();
        }
    }

    /// Takes four bytes at once, where none of them is an FF.
    fn take_four(&mut self) -> bool
        requires { self.old.held < MOST_BITS }
        ensures same { bits_left self.new.held self.new.word self.new.bytes.now
            ≡ bits_left self.old.held self.old.word self.old.bytes.now }
        ensures enough { OnTrue result (MOST_BITS ≤ self.new.held) }
    {
        let [a, b, c, d, rest @ ..] = self.bytes else {
            return false;
        };
        if *a == 0xff || *b == 0xff || *c == 0xff || *d == 0xff {
            return false;
        }
        let four = u32::from_be_bytes([*a, *b, *c, *d]);
        self.word = self.word % (1 << 32) * (1 << 32) + four as u64;
        self.held += 32;
        self.bytes = rest;
        true
    }

    /// Takes bytes one by one, to the end of the data or as many as there is room for.
    fn take_bytes(&mut self)
        ensures same { bits_left self.new.held self.new.word self.new.bytes.now
            ≡ bits_left self.old.held self.old.word self.old.bytes.now }
        ensures enough { (MOST_BITS ≤ self.new.held) ⊎ (data_bits self.new.bytes.now ≡ []) }
    {
        while self.held < 56 {
            let Some((byte, rest)) = next_byte(self.bytes) else {
                return;
            };
            self.word = self.word % (1 << 56) * (1 << 8) + byte as u64;
            self.held += 8;
            self.bytes = rest;
        }
    }

    /// The next 16 bits, and zeros where fewer are held.
    fn window(&self) -> u32
        ensures { IsWindow self.now.held self.now.word result }
    {
        if self.held >= 16 {
            ((self.word >> (self.held - 16)) % (1 << 16)) as u32
        } else {
            ((self.word % (1 << self.held)) << (16 - self.held)) as u32
        }
    }

    /// Takes `size` bits, and gives the number of the last `further` of them.
    fn take(&mut self, size: u32, further: u32) -> u32
        requires few { further ≤ size }
        requires narrow { further ≤ 15 }
        requires held { size ≤ self.old.held }
        ensures number { result < 2 ^ further }
        ensures bits { bits_of self.old.held self.old.word
            ≡ bits_of (size - further) (self.old.word / 2 ^ (self.old.held - (size - further)))
            ++ bits_of further result ++ bits_of self.new.held self.new.word }
        ensures held { self.new.held ≡ self.old.held - size }
        ensures after { self.new.bytes.now ≡ self.old.bytes.now }
    {
        self.held -= size;
        ((self.word >> self.held) % (1 << further)) as u32
    }
}

/// The next byte of the data, and the bytes behind it.
fn next_byte(bytes: &[u8]) -> Option<(u8, &[u8])>
    ensures { MatchOption result (unstuffed bytes.now ≡ [])
        (λ next. unstuffed bytes.now ≡ next.0 ∷ unstuffed next.1.now) }
{
    let (byte, rest) = bytes.split_first()?;
    if *byte != 0xff {
        return Some((*byte, rest));
    }
    let (stuffed, rest) = rest.split_first()?;
    if *stuffed == 0 {
        Some((0xff, rest))
    } else {
        None
    }
}

/// How many further bits follow a category's code word.
fn further(category: u8) -> u32
    ensures { result ≡ further_bits category }
{
    if category == 16 { 0 } else { category as u32 }
}

/// The difference of a category whose further bits are the number `extra` (T.81, figure F.12).
fn extended(category: u8, extra: u32) -> i32
    requires category { category ≤ 16 }
    requires extra { extra < 2 ^ further_bits category }
    ensures { result ≡ difference category extra }
{
    if category == 16 {
        return 32768;
    }
    let span = 1u32 << category;
    if 2 * extra < span {
        extra as i32 - (span - 1) as i32
    } else {
        extra as i32
    }
}
