//! Regions of what the stages of a session make: band by band, each a part of one row of cells.

ghost use Rattle.std.specs.Prelude.{◌≡◌, ℕ, ◌+◌, ◌-◌, ◌*◌, ◌^◌, ◌≤◌, ◌<◌, ◌⊎◌, ◌++◌, [], ◌∷◌, length, Err, IfOk, IfErr};
ghost use Rattle.std.specs.Prelude.{IfSome, OnOk, min};
ghost use Rattle.plane_view.specs.Plane.{crop};
ghost use Rattle.plane_view.specs.Rectangles.{area_of};
ghost use Rattle.plane_view.specs.Shapes.{IsShape};
ghost use Rattle.plane_view.specs.declared.Shape.{Shape};
ghost use Rattle.stage_core.specs.Planes.{IsPart, IsPlane};
ghost use Rattle.stage_core.specs.Stages.{shape_of};
ghost use Rattle.stage_chain.specs.Chains.{whole_of};
ghost use Rattle.region_session.specs.Stacks.{last_shape};
ghost use Rattle.dev_stages.specs.Members.{apply_of, shaped_of};
ghost use Rattle.image_out.specs.Image.{head_of, pixels_of, reply_head_of};
ghost use Rattle.developer.specs.Answered.{AreMade, IsRefused, MadeUpTo};
ghost use Rattle.developer.specs.inner.Developed.{Develops};
ghost use Rattle.developer.specs.inner.Pieces.{InPieces};
ghost use Rattle.developer.specs.Replies.{image, image_reply, part_of};
ghost use Rattle.developer.specs.Sessions.{band_at, bands_of};
ghost use Rattle.developer.specs.inner.Writes.{Writes};

use crate::writing::{Cause, Stop, write_piece, write_samples};
use dev_settings::Format;
use dev_stages::DevStage;
use image_out::{Piece, TIFF_HEAD, pixmap_head, reply_line, tiff_head};
use plane_view::{Rect, Shape};
use raw_io::Sink;
use region_session::Session;
use stage_core::{Base, Steps};
use std::alloc::Global;
use std::sync::ledger::Ledger;

/// The rectangle of `w` columns from `x` and `h` rows from `y`, where it has a pixel and lies in the last plane.
pub(crate) fn part<B: Base>(
    session: &Session<B, DevStage>,
    x: u32,
    y: u32,
    w: u32,
    h: u32,
) -> Option<Rect>
    ensures rect { result ≡ part_of (whole_of apply_of session.now.stages session.now.plane) x y w h }
    ensures within { IfSome result (λ rect. IsPart rect
        (shape_of (whole_of apply_of session.now.stages session.now.plane))) }
    ensures plane { (last : Shape) × IsShape last × IsPlane (whole_of apply_of session.now.stages session.now.plane)
        last
        × (last ≡ last_shape shaped_of (shape_of session.now.plane) session.now.stages) }
{
    let Shape { rows, cols, .. } = session.shape();
    let right = u64::from(x) + u64::from(w);
    let bottom = u64::from(y) + u64::from(h);
    if 0 < w && 0 < h && right <= u64::from(cols) && bottom <= u64::from(rows) {
        Some(Rect {
            top: y,
            left: x,
            bottom: y + h,
            right: x + w,
        })
    } else {
        None
    }
}

/// Writes a part of the last plane as an image, after the line that tells its length. The line, the image's head and
/// its first rows go out together, and rows in pieces of at least 64 KiB where there are as many.
pub(crate) fn write_image<B: Base, O: Sink, L: Ledger>(
    alloc: Global,
    session: &mut Session<B, DevStage>,
    rect: Rect,
    format: Format,
    out: &mut O,
    work: &mut Steps<L>,
) -> Result<u64, Stop>
    requires develops { Develops session.old.plane session.old.stages }
    requires within { IsPart rect (shape_of (whole_of apply_of session.old.stages session.old.plane)) }
    ensures writes { Writes O.stands_for O.faults out.old out.new
        (image_reply (image (whole_of apply_of session.old.stages session.old.plane) rect format)) (λ n. n) result }
    ensures made { OnOk result (AreMade session.old session.new (bands_of session.old.side rect) work.old work.new) }
    ensures left { IfErr result (λ stop. MadeUpTo stop.cause session.old session.new (bands_of session.old.side rect)
        work.old work.new) }
{
    let mut piece = Piece::new(alloc)?;
    push_heads(
        rect.right - rect.left,
        rect.bottom - rect.top,
        format,
        &mut piece,
    );
    let rows = (rect.bottom - rect.top).min(session.side());
    let mut samples = vec![in alloc; 0u16; rows as usize * row_length(rect)]?;
    write_bands(session, rect, format, &mut piece, &mut samples, out, work)
}

/// How many samples a row of a rectangle has, three to a pixel.
fn row_length(rect: Rect) -> usize
    requires cols { rect.left ≤ rect.right }
    ensures { result ≡ (rect.right - rect.left) * 3 }
{
    (rect.right - rect.left) as usize * 3
}

/// Puts the line before an image of `w` columns and `h` rows, and the image's head, into an empty piece.
fn push_heads(w: u32, h: u32, format: Format, piece: &mut Piece)
    requires empty { piece.old ≡ [] }
    requires cols { w ≤ 8192 }
    requires rows { h ≤ 8192 }
    ensures heads { piece.new ≡ reply_head_of (length (head_of format w h) + h * (6 * w)) ++ head_of format w h }
    ensures short { length piece.new ≤ 256 }
{
    let pixels = u64::from(h) * (6 * u64::from(w));
    match format {
        Format::Ppm => {
            let head = pixmap_head(w, h);
            piece.push_line(&reply_line(head.as_bytes().len() as u64 + pixels));
            piece.push_line(&head);
        }
        Format::Tiff => {
            let mut head = [0; TIFF_HEAD];
            tiff_head(w, h, &mut head);
            piece.push_line(&reply_line(head.len() as u64 + pixels));
            piece.push(&head);
        }
    }
}

/// Writes what a piece holds and then the samples of a rectangle of the last plane. Its rows that lie in one row of
/// cells are a band, for whose samples there is room.
fn write_bands<B: Base, O: Sink, L: Ledger>(
    session: &mut Session<B, DevStage>,
    rect: Rect,
    format: Format,
    piece: &mut Piece,
    samples: &mut [u16],
    out: &mut O,
    work: &mut Steps<L>,
) -> Result<u64, Stop>
    requires develops { Develops session.old.plane session.old.stages }
    requires within { IsPart rect (shape_of (whole_of apply_of session.old.stages session.old.plane)) }
    requires heads { length piece.old ≤ 256 }
    requires samples { length samples.old ≡ min (rect.bottom - rect.top) session.old.side *
        ((rect.right - rect.left) * 3) }
    ensures writes { Writes O.stands_for O.faults out.old out.new
        (piece.old ++ pixels_of format (crop (whole_of apply_of session.old.stages session.old.plane) rect).samples)
        (λ n. n) result }
    ensures made { OnOk result (AreMade session.old session.new (bands_of session.old.side rect) work.old work.new) }
    ensures left { IfErr result (λ stop. MadeUpTo stop.cause session.old session.new (bands_of session.old.side rect)
        work.old work.new) }
{
    let side = session.side();
    let mut written = 0;
    for k in rect.top / side..rect.bottom.div_ceil(side) {
        let band = band_at(rect, k, side);
        written = write_band(session, band, format, piece, samples, written, out, work)?;
    }
    Ok(write_piece(piece, written, out)?)
}

/// The rows of a rectangle that lie in row `k` of the cells.
fn band_at(rect: Rect, k: u32, side: u32) -> Rect
    requires small { k ≤ 8192 }
    requires side { side ≤ 512 }
    ensures { result ≡ band_at side rect k }
{
    Rect {
        top: rect.top.max(k * side),
        bottom: rect.bottom.min(k * side + side),
        ..rect
    }
}

/// Appends the samples of a band to a piece, and writes the piece where it is full. Before them `written` bytes were
/// written. Gives the number of these and of those that it wrote.
fn write_band<B: Base, O: Sink, L: Ledger>(
    session: &mut Session<B, DevStage>,
    band: Rect,
    format: Format,
    piece: &mut Piece,
    samples: &mut [u16],
    written: u64,
    out: &mut O,
    work: &mut Steps<L>,
) -> Result<u64, Stop>
    requires develops { Develops session.old.plane session.old.stages }
    requires within { IsPart band (shape_of (whole_of apply_of session.old.stages session.old.plane)) }
    requires samples { area_of band * 3 ≤ length samples.old }
    requires room { length piece.old < 65536 }
    requires few { written + length piece.old + 2 * (area_of band * 3) < 2 ^ 60 }
    ensures pieces { (first : _) (all : _) → InPieces O.stands_for O.faults first out.old all piece.old written
        → IfOk result (λ total. InPieces O.stands_for O.faults first out.new
        (all ++ pixels_of format (crop (whole_of apply_of session.old.stages session.old.plane) band).samples) piece.new
        total) }
    ensures stops { (first : _) (all : _) → InPieces O.stands_for O.faults first out.old all piece.old written
        → IfErr result (λ stop. Writes {T = ℕ} O.stands_for O.faults first out.new
        (all ++ pixels_of format (crop (whole_of apply_of session.old.stages session.old.plane) band).samples) (λ n. n)
        (Err stop)) }
    ensures room { OnOk result (length piece.new < 65536) }
    ensures number { IfOk result (λ total. total + length piece.new ≡ written + length piece.old + 2 *
        (area_of band * 3)) }
    ensures made { OnOk result (AreMade session.old session.new (band ∷ []) work.old work.new) }
    ensures left { IfErr result (λ stop. AreMade session.old session.new (band ∷ []) work.old work.new
        ⊎ ((stop.cause ≡ Cause.Memory) × IsRefused session.old session.new)) }
    ensures samples { length samples.new ≡ length samples.old }
{
    let width = row_length(band);
    let made = &mut samples[..(band.bottom - band.top) as usize * width];
    match session.band(band, made, work) {
        Ok(()) => Ok(write_samples(made, width, format, piece, written, out)?),
        Err(_) => Err(Stop {
            written,
            cause: Cause::Memory,
        }),
    }
}
