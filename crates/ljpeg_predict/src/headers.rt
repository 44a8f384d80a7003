//! The headers up to a scan's data (ITU-T T.81, B.2).

ghost use Rattle.std.specs.Prelude.{◌≡◌, ◌≤◌, ◌<◌, ◌+◌, length, sum, IfOk, MatchResult};
ghost use Rattle.ljpeg_predict.specs.inner.Answers.{Gives};
ghost use Rattle.ljpeg_predict.specs.Headers.{frame_of, headers_in, headers_of, interval_of, is_subsampled, table_in};
ghost use Rattle.ljpeg_predict.specs.Headers.{tables_of};
ghost use Rattle.ljpeg_predict.specs.inner.Frames.{IsFrame};

use crate::JpegFault;
use crate::scan::{Scan, read_scan};
use crate::segments::{Kind, byte_or_zero, number, read_body, read_marker, segment_kind};
use ljpeg_huffman::CodeTable;

/// The frame header: the samples' precision in bits, the lines, the samples a line, and the components with their
/// identifiers, 0 where there are fewer than four.
#[derive(Clone, Copy)]
pub(crate) struct FrameHeader {
    pub precision: u8,
    pub lines: u16,
    pub columns: u16,
    pub components: u8,
    pub ids: [u8; 4],
}

/// The frame header that a body tells.
#[tactic(auto, unfolding(crate::specs::Headers::frame_of))]
fn frame_header(body: &[u8]) -> Result<FrameHeader, JpegFault>
    ensures gives { result ≡ frame_of body.now }
    ensures whole { IfOk result IsFrame }
{
    if body.len() < 6 || body.len() != 6 + 3 * usize::from(body[5]) {
        return Err(JpegFault::HeaderLength);
    }
    let precision = body[0];
    if precision < 2 || precision > 16 {
        return Err(JpegFault::Precision);
    }
    let components = body[5];
    if components < 1 || components > 4 {
        return Err(JpegFault::Components);
    }
    if is_subsampled(body, components) {
        return Err(JpegFault::Sampling);
    }
    Ok(FrameHeader {
        precision,
        lines: number(body, 1),
        columns: number(body, 3),
        components,
        ids: [
            byte_or_zero(body, 6),
            byte_or_zero(body, 9),
            byte_or_zero(body, 12),
            byte_or_zero(body, 15),
        ],
    })
}

/// Whether some component of a frame header's body has sampling factors other than 1.
#[tactic(auto, unfolding(crate::specs::Headers::is_subsampled))]
fn is_subsampled(body: &[u8], components: u8) -> bool
    ensures { result ≡ is_subsampled body.now components }
{
    (0..components).any(|c| byte_or_zero(body, 7 + 3 * usize::from(c)) != 0x11)
}

/// Refuses a restart interval but 0.
#[tactic(auto, unfolding(crate::specs::Headers::interval_of))]
fn restart_interval(body: &[u8]) -> Result<(), JpegFault>
    ensures { result ≡ interval_of body.now }
{
    if body.len() != 2 {
        return Err(JpegFault::HeaderLength);
    }
    if number(body, 0) != 0 {
        return Err(JpegFault::Restart);
    }
    Ok(())
}

/// How many values the counts of the lengths announce.
fn total(counts: &[u8]) -> usize
    requires { length counts.now ≤ 16 }
    ensures { result ≡ sum counts.now }
{
    counts.iter().map(|count| usize::from(*count)).sum()
}

/// The table that a body begins with, its number, and the bytes behind it.
#[tactic(auto, unfolding(crate::specs::Headers::table_in))]
fn read_table(body: &[u8]) -> Result<(u8, CodeTable, &[u8]), JpegFault>
    ensures gives { Gives (λ told. record { number = told.0; table = told.1; rest = told.2.now })
        result (table_in body.now) }
    ensures number { IfOk result (λ told. told.0 < 4) }
    ensures shorter { IfOk result (λ told. length told.2.now < length body.now) }
{
    let Some((head, behind)) = body.split_first() else {
        return Err(JpegFault::HeaderLength);
    };
    let Some((counts, behind)) = behind.split_first_chunk::<16>() else {
        return Err(JpegFault::HeaderLength);
    };
    let (class, number) = (head / 16, head % 16);
    if class > 0 || number > 3 {
        return Err(JpegFault::Table);
    }
    let total = total(counts);
    if behind.len() < total {
        return Err(JpegFault::HeaderLength);
    }
    let (values, rest) = behind.split_at(total);
    match CodeTable::read(counts, values) {
        Ok(table) => Ok((number, table, rest)),
        Err(_) => Err(JpegFault::Table),
    }
}

/// Takes the tables of a body, one or more.
fn read_tables(tables: &mut [Option<CodeTable>; 4], body: &[u8]) -> Result<(), JpegFault>
    ensures { MatchResult result (λ _. tables_of tables.old body.now ≡ Ok tables.new)
        (λ fault. tables_of tables.old body.now ≡ Err fault) }
{
    let mut left = body;
    loop {
        let (number, table, rest) = read_table(left)?;
        tables[usize::from(number)] = Some(table);
        if rest.is_empty() {
            return Ok(());
        }
        left = rest;
    }
}

/// The scan of a stream, or the first refusal of its headers.
#[tactic(auto, unfolding(crate::specs::Headers::headers_of))]
pub(crate) fn read_headers(bytes: &[u8]) -> Result<Scan<'_>, JpegFault>
    ensures { result ≡ headers_of bytes.now }
{
    if !bytes.starts_with(&START_OF_IMAGE) {
        return Err(JpegFault::NoStart);
    }
    read_segments(&bytes[2..])
}

/// The marker that a stream begins with, SOI.
const START_OF_IMAGE: [u8; 2] = [0xff, 0xd8];

/// The scan of the segments from a marker on.
fn read_segments(bytes: &[u8]) -> Result<Scan<'_>, JpegFault>
    ensures { result ≡ headers_in bytes.now }
{
    let mut frame = None;
    let mut tables = [None, None, None, None];
    let mut left = bytes;
    loop {
        let (marker, behind) = read_marker(left)?;
        let kind = segment_kind(frame, marker)?;
        let (body, behind) = read_body(behind)?;
        match kind {
            Kind::Frame => frame = Some(frame_header(body)?),
            Kind::Tables => read_tables(&mut tables, body)?,
            Kind::RestartInterval => restart_interval(body)?,
            Kind::PassedOver => {}
            Kind::Scan(frame) => return read_scan(frame, tables, body, behind),
        }
        left = behind;
    }
}
