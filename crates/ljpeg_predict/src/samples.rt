//! The samples of a scan.

ghost use Rattle.std.specs.Prelude.{ℕ, ◌≡◌, ◌+◌, ◌*◌, ◌<◌, length, OnOk, IfErr};
ghost use Rattle.ljpeg_huffman.specs.Words.{IsPrefixFree};
ghost use Rattle.ljpeg_predict.specs.inner.Lines.{IsLine};
ghost use Rattle.ljpeg_predict.specs.Scans.{row_length, sample_count, table_at};
ghost use Rattle.ljpeg_predict.specs.Streams.{IsCutShort, IsDecoded};

use crate::lines::{first_line, next_line};
use crate::scan::Scan;
use ljpeg_huffman::{BitFault, Bits};

/// Writes the samples of a scan, which are as many as `out` is long.
pub(crate) fn read_samples(scan: &Scan<'_>, out: &mut [u16]) -> Result<(), BitFault>
    requires some { 0 < length out.old }
    requires size { length out.old ≡ sample_count scan.now }
    requires free { (place : ℕ) → IsPrefixFree (table_at scan.now place) }
    ensures ok { OnOk result (IsDecoded scan.now (length out.old) out.new) }
    ensures fault { IfErr result (IsCutShort scan.now (length out.old)) }
{
    let tables = scan.tables();
    let tables = &tables[..scan.components()];
    let row = scan.row_length();
    let mut bits = Bits::new(scan.bytes());
    for line in 0..scan.lines() {
        let (above, rest) = out.split_at_mut(line * row);
        let line = &mut rest[..row];
        bits.next_differences(tables, line)?;
        predict_line(scan, above, line);
    }
    Ok(())
}

/// Adds their predictions to the differences of a line, below the lines of `above`.
fn predict_line(scan: &Scan<'_>, above: &[u16], line: &mut [u16])
    requires some { 0 < length line.old }
    requires row { length line.old ≡ row_length scan.now }
    requires lines { (lines : ℕ) × (length above.now ≡ lines * row_length scan.now) }
    ensures { IsLine scan.now above.now line.old line.new }
{
    let step = scan.components();
    if above.is_empty() {
        first_line(line, step, scan.start());
    } else {
        let above = &above[above.len() - line.len()..];
        next_line(scan.predictor(), above, line, step);
    }
}
