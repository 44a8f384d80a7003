//! Tables of code words (ITU-T T.81, Annex C).

ghost use Rattle.std.specs.Prelude.{◌≡◌, ℕ, ◌+◌, ◌-◌, ◌*◌, ◌/◌, ◌^◌, ◌<◌, ◌≤◌, length, sum, IfOk, IfSome, IfNone};
ghost use Rattle.std.specs.Prelude.{Contains, All, find, nat_lt, replicate, ◌++◌, slice_index_or, None};
ghost use Rattle.std.specs.Result.{result_err};
ghost use Rattle.ljpeg_huffman.specs.inner.Short.{IsShort};
ghost use Rattle.binary_digits.specs.Digits.{bits_of};
ghost use Rattle.ljpeg_huffman.specs.Words.{code_words, space_from, table_fault, IsPrefixFree};
ghost use Rattle.ljpeg_huffman.specs.inner.Tables.{high_end, IsTable};

use std::error::Error;
use std::fmt;
use std::marker::Model;

/// Why lengths and values make no table.
#[derive(Clone, Copy, Debug, PartialEq, Eq)]
pub enum TableFault {
    /// There are no code words.
    Empty,
    /// There are more than 256 code words.
    TooMany,
    /// A value is no category from 0 to 16.
    Category { value: u8 },
    /// Some length has more code words than are left there.
    Overfull,
}

impl fmt::Display for TableFault {
    fn fmt<W: fmt::Write>(&self, f: &mut fmt::Formatter<W>) -> fmt::Result {
        match *self {
            TableFault::Empty => write!(f, "no code words"),
            TableFault::TooMany => write!(f, "more than 256 code words"),
            TableFault::Category { value } => write!(
                f,
                "category {value}, which is not from 0 to 16"
            ),
            TableFault::Overfull => write!(f, "more code words of a length than are left there"),
        }
    }
}

impl Error for TableFault {}

/// A table of code words, each with the category from 0 to 16 that it stands for.
#[derive(Drop)]
pub struct CodeTable {
    /// How many code words have 1 bit, 2 bits and so on.
    counts: [u8; 16],
    /// The categories in the order of the code words, and zeros behind them.
    values: [u8; 256],
    /// By the next `SHORT` bits, the code word that begins them, where it has no more bits.
    short: [Option<Code>; 512],
}

/// The most bits of a code word that is looked up at once.
const SHORT: u8 = 9;

impl Model for CodeTable {
    ghost use Rattle.std.specs.Prelude.{List, Bool, ℕ, ◌<◌, slice_index_or, None};
    ghost use Rattle.ljpeg_huffman.specs.Words.{code_words};
    ghost use Rattle.ljpeg_huffman.specs.inner.Tables.{IsTable};
    ghost use Rattle.ljpeg_huffman.specs.inner.Short.{IsShort};

    ghost Value = { List (List Bool × ℕ) };

    ghost view = { λ table. code_words table.counts table.values };

    ghost invariant = { λ table. IsTable table.counts table.values
        × ((place : ℕ) → place < 512
        → IsShort table.counts table.values place (slice_index_or table.short place None)) };
}

impl CodeTable {
    /// The table whose code words of 1 to 16 bits are as many as `counts` says, for the categories `values` in this
    /// order.
    ///
    /// # Errors
    ///
    /// The first of these: `Empty` where there are no code words, `TooMany` where there are more than 256, `Category`
    /// with the first value above 16, `Overfull` where some length has more code words than are left there.
    pub fn read(counts: &[u8; 16], values: &[u8]) -> Result<CodeTable, TableFault>
        requires { length values.now ≡ sum counts.now }
        ensures table { IfOk result (λ table. table ≡ code_words counts.now values.now) }
        ensures prefix_free { IfOk result IsPrefixFree }
        ensures fault { result_err result ≡ table_fault counts.now values.now }
    {
        if values.is_empty() {
            return Err(TableFault::Empty);
        }
        if values.len() > 256 {
            return Err(TableFault::TooMany);
        }
        if let Some(value) = first_unknown(values) {
            return Err(TableFault::Category { value });
        }
        if space(counts) > 0x1_0000 {
            return Err(TableFault::Overfull);
        }
        let values = padded(values);
        Ok(CodeTable {
            counts: *counts,
            values,
            short: short_codes(counts, &values),
        })
    }

    /// A law of each table: no code word is a prefix of another.
    pub fn prefix_free(&self)
        ensures { IsPrefixFree self.now }
    {
        let _ = &self.counts;
    }

    /// The code word that begins the 16 bits of `window`.
    pub(crate) fn find(&self, window: u32) -> Option<Code>
        requires { window < 2 ^ 16 }
        ensures size { IfSome result (λ code. code.size ≤ 16) }
        ensures category { IfSome result (λ code. code.category ≤ 16) }
        ensures found { IfSome result
            (λ code. Contains self.now
            (bits_of code.size (window / 2 ^ (16 - code.size)), code.category)) }
        ensures none { IfNone result (All (λ entry. high_end entry.0 ≤ window) self.now) }
        ensures prefix_free { IsPrefixFree self.now }
        ensures sizes { All (λ entry. length entry.0 ≤ 16) self.now }
    {
        match self.short[(window >> (16 - SHORT)) as usize] {
            Some(code) => Some(code),
            None => walk(&self.counts, &self.values, window),
        }
    }
}

/// The first value that is no category.
fn first_unknown(values: &[u8]) -> Option<u8>
    ensures { result ≡ find (nat_lt 16) values.now }
{
    values.iter().copied().find(|value| 16 < *value)
}

/// The values, and zeros behind them.
fn padded(values: &[u8]) -> [u8; 256]
    requires { length values.now ≤ 256 }
    ensures { result ≡ values.now ++ replicate (256 - length values.now) 0 }
{
    let mut padded = [0; 256];
    padded[..values.len()].copy_from_slice(values);
    padded
}

/// How many of the words of 16 bits begin with a code word.
fn space(counts: &[u8; 16]) -> u32
    ensures { result ≡ space_from 1 counts.now }
{
    let mut space = 0;
    for place in 0..16 {
        space += (counts[place] as u32) << (15 - place);
    }
    space
}

/// A code word that begins some bits: its size in bits, and its category.
#[derive(Clone, Copy)]
pub(crate) struct Code {
    pub size: u8,
    pub category: u8,
}

/// By each number of `SHORT` bits, the code word that begins them, where it has no more bits.
fn short_codes(counts: &[u8; 16], values: &[u8]) -> [Option<Code>; 512]
    requires { IsTable counts.now values.now }
    ensures { (place : ℕ) → place < 512 → IsShort counts.now values.now place (slice_index_or result place None) }
{
    let mut short = [None; 512];
    for place in 0..512u32 {
        short[place as usize] = short_code(counts, values, place);
    }
    short
}

/// The code word that begins the `SHORT` bits of `place`, where it has no more bits.
fn short_code(counts: &[u8; 16], values: &[u8], place: u32) -> Option<Code>
    requires table { IsTable counts.now values.now }
    requires place { place < 512 }
    ensures { IsShort counts.now values.now place result }
{
    let code = walk(counts, values, place << (16 - SHORT))?;
    if code.size <= SHORT { Some(code) } else { None }
}

/// The code word that begins the 16 bits of `window`.
fn walk(counts: &[u8; 16], values: &[u8], window: u32) -> Option<Code>
    requires table { IsTable counts.now values.now }
    requires window { window < 2 ^ 16 }
    ensures size { IfSome result (λ code. code.size ≤ 16) }
    ensures category { IfSome result (λ code. code.category ≤ 16) }
    ensures found { IfSome result
        (λ code. Contains (code_words counts.now values.now)
        (bits_of code.size (window / 2 ^ (16 - code.size)), code.category)) }
    ensures none { IfNone result (space_from 1 counts.now ≤ window) }
{
    let mut first = 0;
    let mut start = 0;
    for place in 0..16u32 {
        let count = counts[place as usize] as u32;
        let code = window >> (15 - place);
        if code < first + count {
            let category = values[start + (code - first) as usize];
            return Some(Code {
                size: place as u8 + 1,
                category,
            });
        }
        first = 2 * (first + count);
        start += count as usize;
    }
    None
}
