//! The segments of a frame, opened.

ghost use Rattle.std.proofs.Common.{rules};
ghost use Rattle.std.specs.Prelude.{◌≡◌, ◌≢◌, ℕ, ◌+◌, ◌<◌, ◌≤◌, length, slice_get, None, Some, IfErr};
ghost use Rattle.std.specs.Prelude.{IfOk, OnOk};
ghost use Rattle.std.specs.Io.Iter.{u64_saturate};
ghost use Rattle.dng_tags.specs.Facts.{IsFrame};
ghost use Rattle.dng_tags.specs.Raw.{raw, undecoded};
ghost use Rattle.frame_segments.specs.Opened.{rects_of};

use crate::decoding::{Coded, copy_pixels, largest_count};
use dng_tags::{Frame, FrameFault, Segment};
use lists::Items;
use plane_view::{Rect, Shape, TileMut};
use stage_core::{Base, Steps};
use std::alloc::Global;
use std::marker::Model;
use std::sync::ledger::Ledger;

/// The segments of a frame. A segment is a cell of the raw plane.
#[derive(Drop)]
pub struct Segments<'a> {
    coded: Coded<'a>,
    shape: Shape,
    segments: Items<Segment>,
    /// The coded samples of one segment, and then what others left.
    buffer: Vec<u16>,
    /// The number of that segment.
    held: u32,
    fetched: u64,
}

impl<'a> Model for Segments<'a> {
    ghost use Rattle.dng_tags.specs.Raw.{segments_plane};
    ghost use Rattle.frame_segments.specs.inner.Buffers.{AreOpened};
    ghost use Rattle.frame_segments.specs.Opened.{OpenedSegments, rects_of};

    ghost Value = { OpenedSegments };

    ghost view = { λ s. record {
      plane = segments_plane s.coded.bytes.now s.coded.coding s.shape s.segments;
      cells = rects_of s.segments;
      fetches = s.fetched;
    } };

    ghost invariant = { λ s. AreOpened s.coded.bytes.now s.coded.coding s.shape s.segments s.buffer.items s.held };
}

impl<'a> Segments<'a> {
    /// Opens the segments of a frame that was read from these bytes: decodes each of them once, in their order, into
    /// one buffer as long as the largest, which it keeps.
    ///
    /// # Errors
    ///
    /// `Segment` exactly where a segment can't be decoded, for the first such one; `Memory` where the buffer or the
    /// list of segments is out of memory.
    pub fn open(alloc: Global, bytes: &'a [u8], frame: &Frame) -> Result<Segments<'a>, FrameFault>
        requires frame { IsFrame frame.now bytes.now }
        ensures opened { IfOk result
            (λ segments. segments ≡ record {
              plane = raw bytes.now frame.now;
              cells = rects_of frame.now.segments;
              fetches = 0;
            }) }
        ensures decoded { OnOk result (undecoded bytes.now frame.now ≡ None) }
        ensures refused { IfErr result
            (λ fault. fault ≢ FrameFault.Memory → undecoded bytes.now frame.now ≡ Some fault) }
    {
        let segments = frame.segments.as_slice();
        let Ok(mut buffer) = vec![in alloc; 0u16; largest_count(segments)] else {
            return Err(FrameFault::Memory);
        };
        let coded = Coded {
            bytes,
            coding: frame.coding(),
        };
        coded.decode_all(segments, &mut buffer)?;
        let Ok(segments) = Items::from_slice(alloc, segments) else {
            return Err(FrameFault::Memory);
        };
        let held = segments.len() as u32 - 1;
        Ok(Segments {
            coded,
            shape: frame.shape,
            segments,
            buffer,
            held,
            fetched: 0,
        })
    }
}

impl<'a> Base for Segments<'a> {
    ghost plane = { λ s. s.plane };

    ghost cells_of = { λ s. s.cells };

    ghost fetches = { λ s. u64_saturate s.fetches };

    ghost held = { λ s. Prim.search rules };

    fn shape(&self) -> Shape {
        self.shape
    }

    fn cells(&self) -> u32 {
        self.segments.len() as u32
    }

    fn cell(&self, k: u32) -> Rect {
        self.segments.as_slice()[k as usize].rect
    }

    fn fetch<L: Ledger>(&mut self, k: u32, out: &mut TileMut<'_>, work: &mut Steps<L>) {
        let segment = self.segments.as_slice()[k as usize];
        self.coded.bring(&segment, self.held == k, &mut self.buffer);
        self.held = k;
        copy_pixels(&segment, &self.buffer, out);
        self.fetched = self.fetched.saturating_add(1);
        work.tick();
    }
}
