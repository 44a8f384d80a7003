//! Segments, decoded into a buffer.

ghost use Rattle.std.specs.Prelude.{◌≡◌, ℕ, ◌+◌, ◌-◌, ◌*◌, ◌<◌, ◌≤◌, ◌^◌, length, slice_get, slice_index, None, Some};
ghost use Rattle.std.specs.Prelude.{take, IfErr, OnOk};
ghost use Rattle.std.specs.Bool.{OnTrue};
ghost use Rattle.plane_view.specs.Lent.{sample_at};
ghost use Rattle.plane_view.specs.Rectangles.{HasPixel};
ghost use Rattle.plane_view.specs.Tiles.{loan, tile_rect, SameLoan};
ghost use Rattle.ljpeg_predict.specs.Decoded.{decoded, told};
ghost use Rattle.dng_tags.specs.Raw.{coded_count, coded_place, fault_from, jpeg_samples, packed_samples, samples_in};
ghost use Rattle.dng_tags.specs.declared.record.Segment.{Segment as SegmentRecord};
ghost use Rattle.frame_segments.specs.inner.Buffers.{Fits, Holds, IsCoded, IsCoding, IsCoding-prop, IsDecodable};

use dng_tags::{Coding, FrameFault, Segment, SegmentFault};
use ljpeg_predict::decode;
use plane_view::{Rect, TileMut, View};
use strip_unpack::unpack;
use tiff_dirs::Order;

/// A file's bytes, and how the samples of its segments are coded.
#[derive(Clone, Copy)]
pub(crate) struct Coded<'a> {
    pub bytes: &'a [u8],
    pub coding: Coding,
    ghost depth: { IsCoding coding } by { IsCoding-prop coding },
}

/// How many samples of a segment are coded.
fn coded_count(segment: &Segment) -> usize
    ensures { result ≡ coded_count segment.now }
{
    segment.full_rows as usize * segment.full_cols as usize
}

/// The most samples that are coded in one of the segments.
pub(crate) fn largest_count(segments: &[Segment]) -> usize
    ensures { (k : ℕ) (segment : SegmentRecord) → slice_get segments.now k ≡ Some segment
        → coded_count segment ≤ result }
{
    let mut largest = 0;
    for segment in segments {
        largest = largest.max(coded_count(segment));
    }
    largest
}

/// Unpacks the coded samples of a segment from its bytes.
fn unpack_samples(
    bytes: &[u8],
    order: Order,
    depth: u32,
    segment: &Segment,
    out: &mut [u16],
) -> Result<(), SegmentFault>
    requires low { 8 ≤ depth }
    requires high { depth ≤ 16 }
    requires long { length out.old ≡ coded_count segment.now }
    ensures { packed_samples bytes.now order depth segment.now ≡ told result out.new }
{
    match unpack(
        bytes,
        depth,
        order,
        segment.full_rows,
        segment.full_cols,
        out,
    ) {
        Ok(()) => Ok(()),
        Err(short) => Err(SegmentFault::Short(short)),
    }
}

/// Decodes the coded samples of a segment, which is one lossless JPEG stream.
fn decode_stream(bytes: &[u8], out: &mut [u16]) -> Result<(), SegmentFault>
    requires some { 1 ≤ length out.old }
    requires few { length out.old ≤ 2 ^ 25 }
    ensures { jpeg_samples (decoded bytes.now (length out.old)) ≡ told result out.new }
{
    match decode(bytes, out) {
        Ok(()) => Ok(()),
        Err(fault) => Err(SegmentFault::Jpeg(fault)),
    }
}

impl<'a> Coded<'a> {
    /// Decodes a segment into the buffer, from its beginning on.
    pub(crate) fn decode(&self, segment: &Segment, buffer: &mut [u16]) -> Result<(), SegmentFault>
        requires { Fits self.now.bytes.now buffer.old segment.now }
        ensures { samples_in self.now.bytes.now self.now.coding segment.now
            ≡ told result (take (coded_count segment.now) buffer.new) }
    {
        let start = segment.at as usize;
        let bytes = &self.bytes[start..start + segment.length as usize];
        let samples = &mut buffer[..coded_count(segment)];
        match self.coding {
            Coding::Packed { order, depth } => unpack_samples(
                bytes, order, depth, segment, samples,
            ),
            Coding::LosslessJpeg => decode_stream(bytes, samples),
        }
    }

    /// Decodes a segment that can be decoded into the buffer, from its beginning on, unless the buffer holds it.
    pub(crate) fn bring(&self, segment: &Segment, is_held: bool, buffer: &mut [u16])
        requires fits { Fits self.now.bytes.now buffer.old segment.now }
        requires decodable { IsDecodable self.now.bytes.now self.now.coding segment.now }
        requires held { OnTrue is_held (Holds buffer.old self.now.bytes.now self.now.coding segment.now) }
        ensures { Holds buffer.new self.now.bytes.now self.now.coding segment.now }
    {
        if is_held {
            return;
        }
        let _ = self.decode(segment, buffer);
    }

    /// Decodes the segments in their order, each into the buffer from its beginning on, up to the first that can't be
    /// decoded.
    pub(crate) fn decode_all(
        &self,
        segments: &[Segment],
        buffer: &mut [u16],
    ) -> Result<(), FrameFault>
        requires fit { (k : ℕ) (segment : SegmentRecord) → slice_get segments.now k ≡ Some segment
            → Fits self.now.bytes.now buffer.old segment }
        requires few { length segments.now ≤ 65536 }
        ensures decoded { OnOk result (fault_from self.now.bytes.now self.now.coding 0 segments.now ≡ None) }
        ensures fault { IfErr result
            (λ fault. fault_from self.now.bytes.now self.now.coding 0 segments.now ≡ Some fault) }
        ensures decodable { OnOk result ((k : ℕ) (segment : SegmentRecord) → slice_get segments.now k ≡ Some segment
            → IsDecodable self.now.bytes.now self.now.coding segment) }
        ensures last { OnOk result ((k : ℕ) (segment : SegmentRecord) → k + 1 ≡ length segments.now
            → slice_get segments.now k ≡ Some segment
            → Holds buffer.new self.now.bytes.now self.now.coding segment) }
    {
        for (k, segment) in segments.iter().enumerate() {
            if let Err(why) = self.decode(segment, buffer) {
                return Err(FrameFault::Segment {
                    segment: k as u32,
                    why,
                });
            }
        }
        Ok(())
    }
}

/// Copies a segment's pixels from its coded samples, with which the buffer begins, into a tile over its rectangle.
pub(crate) fn copy_pixels(segment: &Segment, buffer: &[u16], out: &mut TileMut<'_>)
    requires segment { IsCoded segment.now }
    requires room { coded_count segment.now ≤ length buffer.now }
    requires rect { tile_rect out.old ≡ segment.now.rect }
    requires planes { (loan out.old).planes ≡ 1 }
    ensures loan { SameLoan out.old out.new }
    ensures pixels { (r c p : ℕ) → HasPixel segment.now.rect r c → p < 1
        → sample_at (loan out.new) r c p
        ≡ slice_index (take (coded_count segment.now) buffer.now) (coded_place segment.now r c) }
{
    let Rect { top, left, .. } = segment.rect;
    let whole = Rect {
        top,
        left,
        bottom: top + segment.full_rows,
        right: left + segment.full_cols,
    };
    out.copy_from(&View::new(whole, 1, &buffer[..coded_count(segment)]));
}
