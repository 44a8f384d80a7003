//! The third and fourth groups: the strips or tiles, and that they lie in the file.

ghost use Rattle.std.specs.Prelude.{◌≡◌, ◌*◌, ◌<◌, ◌≤◌, length, IfNone, IfOk, IfSome, Ok};
ghost use Rattle.std.specs.List.{position};
ghost use Rattle.tag_rules.specs.Answers.{Answers};
ghost use Rattle.dng_tags.specs.Facts.{AreParts, IsRawShape, LieWithin};
ghost use Rattle.dng_tags.specs.Layout.{checked_layout, checked_tile_side, layout_of, passes_end, segment_at};
ghost use Rattle.dng_tags.specs.Layout.{segment_count, segments_in, segments_of};
ghost use Rattle.dng_tags.specs.Layout.{strip_rows_of, strips_of, tiles_of};
ghost use Rattle.dng_tags.specs.inner.Layout.{HasSides, IsChecked};

use crate::record::Segment;
use lists::Items;
use plane_view::{MAX_SAMPLES, Shape};
use std::alloc::Global;
use tag_rules::{Directories, FrameFault, Tag, Whole};

/// The most rows or columns of a tile.
const MAX_TILE_SIDE: u32 = 16384;

/// The most segments.
const MAX_SEGMENTS: u32 = 65536;

/// How an image is cut into segments.
#[derive(Clone, Copy, Debug, PartialEq, Eq)]
pub struct Cut {
    /// The rows of a whole segment.
    pub rows: u32,
    /// Its columns.
    pub cols: u32,
    /// Whether a segment at the image's edge is coded at the whole size.
    pub padded: bool,
}

impl Cut {
    /// How many segments there are.
    fn count(self, shape: Shape) -> u32
        requires shape { IsRawShape shape }
        requires sides { HasSides self }
        ensures { result ≡ segment_count shape self }
    {
        shape.part_count(self.rows, self.cols)
    }
}

/// How an image is cut, and where the segments stand in the file.
#[derive(Drop)]
pub struct Layout<'a> {
    pub cut: Cut,
    pub offsets: Whole<'a>,
    pub counts: Whole<'a>,
}

impl<'a> Layout<'a> {
    /// A layout that isn't too large, with an offset and a byte count for each segment.
    #[tactic(auto, unfolding(crate::specs::Layout::checked_layout))]
    fn checked(self, shape: Shape) -> Result<Layout<'a>, FrameFault>
        requires shape { IsRawShape shape }
        requires sides { HasSides self.cut }
        ensures answer { result ≡ checked_layout shape self.entry }
        ensures checked { IfOk result (IsChecked shape) }
    {
        let count = self.cut.count(shape);
        let coded = u64::from(self.cut.rows) * u64::from(self.cut.cols);
        if count > MAX_SEGMENTS
            || coded > u64::from(MAX_SAMPLES)
            || self.offsets.len() < count
            || self.counts.len() < count
        {
            return Err(FrameFault::Layout);
        }
        Ok(self)
    }

    /// Segment k.
    #[tactic(auto, unfolding(crate::specs::Layout::segment_at))]
    fn segment(&self, shape: Shape, k: u32) -> Segment
        requires shape { IsRawShape shape }
        requires checked { IsChecked shape self.now }
        requires within { k < segment_count shape self.now.cut }
        ensures { result ≡ segment_at shape self.now k }
    {
        let rect = shape.part(self.cut.rows, self.cut.cols, k);
        let full_rows = if self.cut.padded {
            self.cut.rows
        } else {
            rect.bottom - rect.top
        };
        Segment {
            at: self.offsets.at(k),
            length: self.counts.at(k),
            rect,
            full_rows,
            full_cols: self.cut.cols,
        }
    }

    /// The segments.
    #[tactic(auto, using(crate::proofs::LayoutLemmas::segments_more), unfolding(crate::specs::Layout::segments_in))]
    fn segments(&self, alloc: Global, shape: Shape) -> Result<Items<Segment>, FrameFault>
        requires shape { IsRawShape shape }
        requires checked { IsChecked shape self.now }
        ensures answer { Answers result (Ok (segments_in shape self.now)) }
        ensures parts { IfOk result (AreParts shape) }
    {
        let count = self.cut.count(shape);
        let mut segments = Vec::new(alloc);
        for k in 0..count {
            if segments.push(self.segment(shape, k)).is_err() {
                return Err(FrameFault::Memory);
            }
        }
        Ok(Items::from_vec(segments))
    }
}

/// The strips or tiles, none of which passes the end of the file.
///
/// # Errors
///
/// `Layout`, `Outside`, `Memory`, and what reading the tags is refused for.
#[tactic(auto, unfolding(crate::specs::Layout::segments_of))]
pub fn read_segments(
    alloc: Global,
    dirs: &Directories<'_>,
    shape: Shape,
) -> Result<Items<Segment>, FrameFault>
    requires { IsRawShape shape }
    ensures answer { Answers result (segments_of dirs.now shape) }
    ensures parts { IfOk result (AreParts shape) }
    ensures inside { IfOk result (LieWithin (length dirs.now.bytes)) }
{
    let layout = read_layout(dirs, shape)?;
    let segments = layout.segments(alloc, shape)?;
    match first_outside(&segments, dirs.file_len()) {
        Some(k) => Err(FrameFault::Outside { segment: k as u32 }),
        None => Ok(segments),
    }
}

/// The number of the first segment that passes the end of a file of this many bytes.
fn first_outside(segments: &Items<Segment>, file_len: u64) -> Option<usize>
    ensures answer { result ≡ position (passes_end file_len) segments.now }
    ensures some { IfSome result (λ k. k < length segments.now) }
    ensures none { IfNone result (LieWithin file_len segments.now) }
{
    segments.as_slice().iter().position(|segment| u64::from(segment.at) + u64::from(segment.length)
        > file_len)
}

#[tactic(auto, unfolding(crate::specs::Layout::layout_of))]
fn read_layout<'a>(dirs: &Directories<'a>, shape: Shape) -> Result<Layout<'a>, FrameFault>
    requires { IsRawShape shape }
    ensures answer { result ≡ layout_of dirs.now shape }
    ensures checked { IfOk result (IsChecked shape) }
{
    let layout = match dirs.number(Tag::TileWidth)? {
        Some(width) => read_tiles(dirs, width)?,
        None => read_strips(dirs, shape)?,
    };
    layout.checked(shape)
}

/// Tiles, whose width was found.
#[tactic(auto, unfolding(crate::specs::Layout::tiles_of))]
fn read_tiles<'a>(dirs: &Directories<'a>, width: u32) -> Result<Layout<'a>, FrameFault>
    ensures answer { result ≡ tiles_of dirs.now width }
    ensures sides { IfOk result (λ layout. HasSides layout.cut) }
{
    let cols = tile_side(width)?;
    let rows = tile_side(dirs.required_number(Tag::TileLength)?)?;
    let offsets = dirs.required_whole(Tag::TileOffsets)?;
    let counts = dirs.required_whole(Tag::TileByteCounts)?;
    let cut = Cut {
        rows,
        cols,
        padded: true,
    };
    Ok(Layout {
        cut,
        offsets,
        counts,
    })
}

/// A side of a tile.
#[tactic(auto, unfolding(crate::specs::Layout::checked_tile_side))]
fn tile_side(side: u32) -> Result<u32, FrameFault>
    ensures answer { result ≡ checked_tile_side side }
    ensures range { IfOk result (λ side. (1 ≤ side) × (side ≤ 16384)) }
{
    if !(1..=MAX_TILE_SIDE).contains(&side) {
        return Err(FrameFault::Layout);
    }
    Ok(side)
}

#[tactic(auto, unfolding(crate::specs::Layout::strips_of))]
fn read_strips<'a>(dirs: &Directories<'a>, shape: Shape) -> Result<Layout<'a>, FrameFault>
    requires { IsRawShape shape }
    ensures answer { result ≡ strips_of dirs.now shape }
    ensures sides { IfOk result (λ layout. HasSides layout.cut) }
{
    let offsets = dirs.required_whole(Tag::StripOffsets)?;
    let rows = read_strip_rows(dirs, shape)?;
    let counts = dirs.required_whole(Tag::StripByteCounts)?;
    let cut = Cut {
        rows,
        cols: shape.cols,
        padded: false,
    };
    Ok(Layout {
        cut,
        offsets,
        counts,
    })
}

/// The rows of a strip, which are those of the image where the tag is absent.
#[tactic(auto, unfolding(crate::specs::Layout::strip_rows_of))]
fn read_strip_rows(dirs: &Directories<'_>, shape: Shape) -> Result<u32, FrameFault>
    requires { IsRawShape shape }
    ensures answer { result ≡ strip_rows_of dirs.now shape }
    ensures range { IfOk result (λ rows. (1 ≤ rows) × (rows ≤ 8192)) }
{
    let rows = dirs.number(Tag::RowsPerStrip)?.unwrap_or(u32::MAX);
    if rows == 0 {
        return Err(FrameFault::Layout);
    }
    Ok(rows.min(shape.rows))
}
