//! A scan, and what its header tells (ITU-T T.81, B.2.3).

ghost use Rattle.std.specs.Prelude.{◌≡◌, ◌≤◌, ◌<◌, ◌-◌, ◌^◌, List, Option, length, map, take, unwrap_or, option_copied};
ghost use Rattle.ljpeg_huffman.specs.Words.{Table};
ghost use Rattle.ljpeg_predict.specs.Headers.{has_other_component, lacks_table, predictor_of, scan_of, table_numbers};
ghost use Rattle.ljpeg_predict.specs.Headers.{told_table};
ghost use Rattle.ljpeg_predict.specs.inner.Frames.{IsFrame};
ghost use Rattle.ljpeg_predict.specs.Scans.{components, row_length, sample_count};

use crate::JpegFault;
use crate::headers::FrameHeader;
use crate::segments::byte_or_zero;
use ljpeg_huffman::CodeTable;
use std::marker::Model;

/// How a sample is predicted from those to the left, above, and above to the left (table H.1).
#[derive(Clone, Copy)]
pub(crate) enum Predictor {
    /// The sample to the left.
    Left,
    /// The sample above.
    Above,
    /// The sample above to the left.
    AboveLeft,
    /// Left, and above less above left.
    Plane,
    /// Left, and half of above less above left.
    LeftAndSlope,
    /// Above, and half of left less above left.
    AboveAndSlope,
    /// Half of left and above.
    Mean,
}

/// The scan that the headers tell.
#[derive(Drop)]
pub(crate) struct Scan<'a> {
    frame: FrameHeader,
    predictor: Predictor,
    /// The tables that were told, by their number.
    tables: [Option<CodeTable>; 4],
    /// The number of each component's table, and zeros.
    numbers: [u8; 4],
    /// The bytes from the first one of the data on.
    bytes: &'a [u8],
}

impl<'a> Model for Scan<'a> {
    ghost use Rattle.std.specs.Prelude.{◌≡◌, false, length, take};
    ghost use Rattle.ljpeg_predict.specs.Headers.{chosen_tables, lacks_table};
    ghost use Rattle.ljpeg_predict.specs.inner.Frames.{IsFrame};
    ghost use Rattle.ljpeg_predict.specs.Scans as spec;

    ghost Value = { spec.Scan };

    ghost view = { λ scan. record {
      precision = scan.frame.precision;
      lines = scan.frame.lines;
      columns = scan.frame.columns;
      tables = chosen_tables scan.tables (take scan.frame.components scan.numbers);
      predictor = scan.predictor;
      bytes = scan.bytes.now;
    } };

    ghost invariant = { λ scan. IsFrame scan.frame
        × (length scan.numbers ≡ 4)
        × (lacks_table scan.tables (take scan.frame.components scan.numbers) ≡ false) };
}

/// The scan that the body of its header tells, before its data.
#[tactic(auto, unfolding(crate::specs::Headers::scan_of))]
pub(crate) fn read_scan<'a>(
    frame: FrameHeader,
    tables: [Option<CodeTable>; 4],
    body: &[u8],
    bytes: &'a [u8],
) -> Result<Scan<'a>, JpegFault>
    requires { IsFrame frame }
    ensures { result ≡ scan_of frame tables body.now bytes.now }
{
    if body.len() < 4 || body.len() != 4 + 2 * usize::from(body[0]) {
        return Err(JpegFault::HeaderLength);
    }
    let count = body[0];
    if count != frame.components || has_other_component(body, &frame.ids, count) {
        return Err(JpegFault::Components);
    }
    let numbers = table_numbers(body);
    if lacks_table(&tables, &numbers[..usize::from(count)]) {
        return Err(JpegFault::NoTable);
    }
    let place = 1 + 2 * usize::from(count);
    let predictor = read_predictor(body[place])?;
    if body[place + 2] % 16 != 0 {
        return Err(JpegFault::PointTransform);
    }
    Ok(Scan {
        frame,
        predictor,
        tables,
        numbers,
        bytes,
    })
}

/// The numbers of the tables of four components of a scan header's body, 0 where there are fewer.
fn table_numbers(body: &[u8]) -> [u8; 4]
    ensures { result ≡ table_numbers body.now }
{
    [
        byte_or_zero(body, 2) / 16,
        byte_or_zero(body, 4) / 16,
        byte_or_zero(body, 6) / 16,
        byte_or_zero(body, 8) / 16,
    ]
}

/// Whether some component of a scan header's body is another than the frame has at that place.
#[tactic(auto, unfolding(crate::specs::Headers::has_other_component))]
fn has_other_component(body: &[u8], ids: &[u8], components: u8) -> bool
    ensures { result ≡ has_other_component body.now ids.now components }
{
    (0..components).any(|c| {
        byte_or_zero(body, 1 + 2 * usize::from(c)) != byte_or_zero(ids, usize::from(c))
    })
}

/// The predictor of a selection value.
pub(crate) fn read_predictor(selection: u8) -> Result<Predictor, JpegFault>
    ensures { result ≡ predictor_of selection }
{
    match selection {
        1 => Ok(Predictor::Left),
        2 => Ok(Predictor::Above),
        3 => Ok(Predictor::AboveLeft),
        4 => Ok(Predictor::Plane),
        5 => Ok(Predictor::LeftAndSlope),
        6 => Ok(Predictor::AboveAndSlope),
        7 => Ok(Predictor::Mean),
        _ => Err(JpegFault::Predictor),
    }
}

/// A component's table, if it was told.
fn told_table(tables: &[Option<CodeTable>; 4], number: u8) -> Option<&CodeTable>
    ensures { option_copied result ≡ told_table tables.now number }
{
    tables.get(usize::from(number))?.as_ref()
}

/// Whether one of some tables was never told.
#[tactic(auto, unfolding(crate::specs::Headers::lacks_table))]
fn lacks_table(tables: &[Option<CodeTable>; 4], numbers: &[u8]) -> bool
    ensures { result ≡ lacks_table tables.now numbers.now }
{
    numbers
        .iter()
        .any(|number| told_table(tables, *number).is_none())
}

/// A component's table if it was told, else another one.
fn table_or<'t>(
    tables: &'t [Option<CodeTable>; 4],
    number: u8,
    other: &'t CodeTable,
) -> &'t CodeTable
    ensures { result.now ≡ unwrap_or (told_table tables.now number) other.now }
{
    told_table(tables, number).unwrap_or(other)
}

impl<'a> Scan<'a> {
    /// The number of samples of all components.
    pub(crate) fn sample_count(&self) -> u64
        ensures { result ≡ sample_count self.now }
    {
        self.lines() as u64 * self.row_length() as u64
    }

    /// The number of lines.
    pub(crate) fn lines(&self) -> usize
        ensures is { result ≡ self.now.lines }
        ensures small { result < 2 ^ 16 }
    {
        usize::from(self.frame.lines)
    }

    /// The number of samples of a line, of all components.
    pub(crate) fn row_length(&self) -> usize
        ensures is { result ≡ row_length self.now }
        ensures small { result < 2 ^ 18 }
    {
        usize::from(self.frame.columns) * self.components()
    }

    /// The number of components, 1 to 4.
    pub(crate) fn components(&self) -> usize
        ensures is { result ≡ components self.now }
        ensures some { 1 ≤ result }
        ensures few { result ≤ 4 }
    {
        usize::from(self.frame.components)
    }

    /// How samples are predicted.
    pub(crate) fn predictor(&self) -> Predictor
        ensures { result ≡ self.now.predictor }
    {
        self.predictor
    }

    /// What the first samples are predicted as.
    pub(crate) fn start(&self) -> u16
        ensures { result ≡ 2 ^ (self.now.precision - 1) }
    {
        1 << (self.frame.precision - 1)
    }

    /// The bytes from the first one of the data on.
    pub(crate) fn bytes(&self) -> &[u8]
        ensures { result.now ≡ self.now.bytes }
    {
        self.bytes
    }

    /// The tables of the components, and others where there are fewer than four.
    pub(crate) fn tables(&self) -> [&CodeTable; 4]
        ensures { take (components self.now) (map (λ t. t.now) result) ≡ self.now.tables }
    {
        let first = told_table(&self.tables, self.numbers[0]).unwrap();
        [
            first,
            table_or(&self.tables, self.numbers[1], first),
            table_or(&self.tables, self.numbers[2], first),
            table_or(&self.tables, self.numbers[3], first),
        ]
    }
}
