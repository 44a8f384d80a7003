//! Streams from samples: one component, with one table for all of them.

ghost use Rattle.std.specs.Prelude.{ℕ, List, All, ◌≡◌, ◌+◌, ◌-◌, ◌*◌, ◌/◌, ◌%◌, ◌^◌, ◌<◌, ◌≤◌, [], ◌++◌, length};
ghost use Rattle.std.specs.Prelude.{unsigned_abs, IfOk, OnOk, OnErr};
ghost use Rattle.std.specs.Io.{StartsWith};
ghost use Rattle.binary_digits.specs.Digits.{bits_of};
ghost use Rattle.ljpeg_huffman.specs.Differences.{further_bits, modulo};
ghost use Rattle.ljpeg_predict.specs.Encoding.{Appends, IsStream, category_of, code_word, difference_bits, extra_of};
ghost use Rattle.ljpeg_predict.specs.Encoding.{head, sample_bits, signed, written_scan};
ghost use Rattle.ljpeg_predict.specs.Headers.{predictor_of};
ghost use Rattle.ljpeg_predict.specs.Prediction.{prediction};
ghost use Rattle.ljpeg_predict.specs.Streams.{IsAnswer};
ghost use Rattle.ljpeg_predict.specs.inner.Writing.{Adds, AddsLast};

use crate::lines::predict;
use crate::scan::{Predictor, read_predictor};
use crate::writer::Pending;
use std::alloc::AllocError;
use std::error::Error;
use std::fmt;

/// Why no stream was appended.
#[derive(Clone, Copy, Debug, PartialEq, Eq)]
pub enum EncodeFault {
    /// Out of memory.
    Memory,
}

impl fmt::Display for EncodeFault {
    fn fmt<W: fmt::Write>(&self, f: &mut fmt::Formatter<W>) -> fmt::Result {
        match self {
            EncodeFault::Memory => write!(f, "out of memory"),
        }
    }
}

impl Error for EncodeFault {}

/// How the samples of a scan of one component are predicted.
#[derive(Clone, Copy)]
struct Shape {
    precision: u32,
    columns: usize,
    predictor: Predictor,
}

/// What the sample at a place, which stands in `column` of its line, is predicted as.
fn predicted_at(shape: Shape, samples: &[u16], place: usize, column: usize) -> u16
    requires low { 1 ≤ shape.precision }
    requires high { shape.precision ≤ 16 }
    requires columns { 0 < shape.columns }
    requires place { place < length samples.now }
    requires column { column ≡ place % shape.columns }
    ensures { (lines : ℕ) → result
        ≡ modulo (prediction (written_scan shape.precision lines shape.columns shape.predictor []) samples.now place) }
{
    if place == 0 {
        return 1 << (shape.precision - 1);
    }
    let west = samples[place - 1];
    if place < shape.columns {
        return west;
    }
    let north = samples[place - shape.columns];
    if column == 0 {
        return north;
    }
    let corner = samples[place - shape.columns - 1];
    predict(shape.predictor, west, north, corner)
}

/// The code word of a category and how many bits it has.
fn code_of(category: u32) -> (u32, u32)
    requires { category ≤ 16 }
    ensures word { bits_of result.1 result.0 ≡ code_word category }
    ensures fits { result.0 < 2 ^ result.1 }
    ensures size { result.1 ≤ 5 }
    ensures number { result.0 < 32 }
{
    if category < 14 {
        (category, 4)
    } else {
        (category + 14, 5)
    }
}

/// The magnitude of a difference that is given modulo 2^16.
fn magnitude(number: u16) -> u32
    ensures is { result ≡ unsigned_abs (signed number) }
    ensures few { result ≤ 32768 }
{
    if number > 0x8000 {
        0x1_0000 - u32::from(number)
    } else {
        u32::from(number)
    }
}

/// The category of a difference that is given modulo 2^16.
fn category_of(number: u16) -> u32
    ensures is { result ≡ category_of (signed number) }
    ensures few { result ≤ 16 }
{
    32 - magnitude(number).leading_zeros()
}

/// The number that the further bits of a difference spell, which is given modulo 2^16.
fn extra_of(number: u16, category: u32) -> u32
    requires category { category ≡ category_of (signed number) }
    requires few { category < 16 }
    ensures is { result ≡ extra_of (signed number) }
    ensures fits { result < 2 ^ category }
{
    if number > 0x8000 {
        (1 << category) - 1 - magnitude(number)
    } else {
        u32::from(number)
    }
}

/// Writes the bits of a difference, given modulo 2^16, behind pending ones.
fn write_difference(number: u16, pending: Pending, out: &mut Vec<u8>) -> Result<Pending, AllocError>
    requires { pending.held < 8 }
    ensures few { IfOk result (λ left. left.held < 8) }
    ensures bits { IfOk result (Adds out.old.items out.new.items
        (bits_of pending.held pending.word ++ difference_bits (signed number))) }
    ensures kept { StartsWith out.new.items out.old.items }
{
    let category = category_of(number);
    let (code, size) = code_of(category);
    if category == 16 {
        return pending.push(code, size, out);
    }
    let extra = extra_of(number, category);
    pending.push(code * (1 << category) + extra, size + category, out)
}

/// Writes the bits of the differences of all samples.
fn write_samples(shape: Shape, samples: &[u16], out: &mut Vec<u8>) -> Result<(), AllocError>
    requires low { 1 ≤ shape.precision }
    requires high { shape.precision ≤ 16 }
    requires columns { 0 < shape.columns }
    ensures ok { OnOk result ((lines : ℕ) → AddsLast out.old.items out.new.items
        (sample_bits (written_scan shape.precision lines shape.columns shape.predictor [])
        samples.now (length samples.now))) }
    ensures kept { StartsWith out.new.items out.old.items }
{
    let mut pending = Pending::NONE;
    let mut column = 0;
    for place in 0..samples.len() {
        let predicted = predicted_at(shape, samples, place, column);
        let difference = samples[place].wrapping_sub(predicted);
        pending = write_difference(difference, pending, out)?;
        column = if column + 1 < shape.columns {
            column + 1
        } else {
            0
        };
    }
    pending.finish(out)
}

/// The headers of a stream.
fn head_of(precision: u8, lines: u16, columns: u16, selection: u8) -> [u8; 63]
    ensures { result ≡ head precision lines columns selection }
{
    let lines = ((lines / 256) as u8, (lines % 256) as u8);
    let columns = ((columns / 256) as u8, (columns % 256) as u8);
    [
        // SOI
        0xff, 0xd8,
        // SOF3, of one component
        0xff, 0xc3, 0, 11, precision, lines.0, lines.1, columns.0, columns.1, 1, 1, 0x11, 0,
        // DHT, of one table
        0xff, 0xc4, 0, 36, 0, 0, 0, 0, 14, 3, 0, 0, 0, 0, 0, 0, 0, 0, 0, 0, 0, 0, 1, 2, 3, 4, 5, 6,
        7, 8, 9, 10, 11, 12, 13, 14, 15, 16,
        // SOS
        0xff, 0xda, 0, 8, 1, 1, 0, selection, 0, 0,
    ]
}

/// The marker that a stream ends with, EOI.
const END_OF_IMAGE: [u8; 2] = [0xff, 0xd9];

/// Writes the stream behind what `out` has.
fn write_stream(
    shape: Shape,
    samples: &[u16],
    selection: u8,
    out: &mut Vec<u8>,
) -> Result<(), AllocError>
    requires low { 1 ≤ shape.precision }
    requires high { shape.precision ≤ 16 }
    requires some { 0 < shape.columns }
    requires columns { shape.columns < 2 ^ 16 }
    requires lines { length samples.now / shape.columns < 2 ^ 16 }
    requires predictor { predictor_of selection ≡ Ok shape.predictor }
    ensures ok { OnOk result (Appends out.old.items out.new.items
        (IsStream samples.now (length samples.now / shape.columns) shape.columns shape.precision selection)) }
    ensures kept { StartsWith out.new.items out.old.items }
{
    let lines = (samples.len() / shape.columns) as u16;
    let head = head_of(
        shape.precision as u8,
        lines,
        shape.columns as u16,
        selection,
    );
    out.extend_from_slice(&head)?;
    write_samples(shape, samples, out)?;
    out.extend_from_slice(&END_OF_IMAGE)?;
    Ok(())
}

/// Appends a stream of one component: the samples in lines of `cols`, each predicted by the predictor of a selection
/// value, 1 to 7 (T.81, table H.1). The frame header says `precision`, 2 to 16 bits; greater samples are coded too.
///
/// # Errors
///
/// `Memory` where there is none; `out` is then as before.
pub fn encode(
    samples: &[u16],
    cols: u32,
    precision: u32,
    predictor: u8,
    out: &mut Vec<u8>,
) -> Result<(), EncodeFault>
    requires low { 2 ≤ precision }
    requires high { precision ≤ 16 }
    requires some { 1 ≤ predictor }
    requires seven { predictor ≤ 7 }
    requires columns { 1 ≤ cols }
    requires few_columns { cols < 2 ^ 16 }
    requires whole_lines { length samples.now % cols ≡ 0 }
    requires lines { 1 ≤ length samples.now / cols }
    requires few_lines { length samples.now / cols < 2 ^ 16 }
    ensures ok { OnOk result (Appends out.old.items out.new.items
        (IsStream samples.now (length samples.now / cols) cols precision predictor)) }
    ensures memory { OnErr result (out.new.items ≡ out.old.items) }
{
    let before = out.len();
    let shape = Shape {
        precision,
        columns: cols as usize,
        predictor: chosen(predictor),
    };
    match write_stream(shape, samples, predictor, out) {
        Ok(()) => Ok(()),
        Err(_) => {
            out.truncate(before);
            Err(EncodeFault::Memory)
        }
    }
}

/// The predictor of a selection value that is one.
fn chosen(selection: u8) -> Predictor
    requires some { 1 ≤ selection }
    requires seven { selection ≤ 7 }
    ensures { predictor_of selection ≡ Ok result }
{
    match read_predictor(selection) {
        Ok(predictor) => predictor,
        Err(_) => unreachable!(),
    }
}

/// The encoder's stream is decoded to the samples.
pub fn decoding_gives_back()
    ensures { (samples bytes : List ℕ) (lines columns precision selection : ℕ) → 0 < length samples
        → length samples ≡ lines * columns → lines < 2 ^ 16 → columns < 2 ^ 16 → 2 ≤ precision → precision ≤ 16
        → All (λ sample. sample < 2 ^ 16) samples → IsStream samples lines columns precision selection bytes
        → IsAnswer bytes (length samples) (Ok tt) samples }
{}
