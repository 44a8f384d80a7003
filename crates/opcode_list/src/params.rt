//! The parameters of the opcodes that are run.

ghost use Rattle.std.specs.Prelude.{◌≡◌, ◌+◌, ◌*◌, ◌≤◌, length, IfOk, IfSome};
ghost use Rattle.opcode_list.specs.Cuts.{long_at, short_at};
ghost use Rattle.opcode_list.specs.Params.{CanRun, CanRunIn, MayStandIn, constant_of, fix_list_of, list_of, map_of};
ghost use Rattle.opcode_list.specs.Params.{opcode_with, points_at, rect_at, rects_at, table_at, trim_of};

use crate::opcode::Opcode;
use byteorder::{BigEndian, ByteOrder};
use lists::Items;
use plane_view::Rect;
use std::alloc::{AllocError, Global};

/// The ID of FixBadPixelsConstant (DNG 1.6, "Opcode List Processing"); those of the others follow.
pub(crate) const FIX_BAD_PIXELS_CONSTANT: u32 = 4;

/// The ID of FixBadPixelsList.
pub(crate) const FIX_BAD_PIXELS_LIST: u32 = 5;

/// The ID of TrimBounds.
pub(crate) const TRIM_BOUNDS: u32 = 6;

/// The ID of MapTable.
pub(crate) const MAP_TABLE: u32 = 7;

const MAX_PHASE: u32 = 3;

const MAX_POINTS: u32 = 65_536;

const MAX_RECTS: u32 = 1_024;

const MAX_TABLE: u32 = 65_536;

/// The 16-bit number at a place.
#[tactic(auto, unfolding(crate::specs::Cuts::short_at))]
fn short(bytes: &[u8], place: usize) -> u16
    requires { place + 2 ≤ length bytes.now }
    ensures { result ≡ short_at bytes.now place }
{
    BigEndian::read_u16(&bytes[place..])
}

/// The 32-bit number at a place.
#[tactic(auto, unfolding(crate::specs::Cuts::long_at))]
pub(crate) fn long(bytes: &[u8], place: usize) -> u32
    requires { place + 4 ≤ length bytes.now }
    ensures { result ≡ long_at bytes.now place }
{
    BigEndian::read_u32(&bytes[place..])
}

/// The rectangle at a place.
#[tactic(auto, unfolding(crate::specs::Params::rect_at))]
fn rect(params: &[u8], place: usize) -> Rect
    requires { place + 16 ≤ length params.now }
    ensures { result ≡ rect_at params.now place }
{
    Rect {
        top: long(params, place),
        left: long(params, place + 4),
        bottom: long(params, place + 8),
        right: long(params, place + 12),
    }
}

/// So many points from a place on.
fn points(
    alloc: Global,
    params: &[u8],
    place: usize,
    count: usize,
) -> Result<Items<(u32, u32)>, AllocError>
    requires { place + 8 * count ≤ length params.now }
    ensures points { IfOk result (λ points. points ≡ points_at params.now place count) }
    ensures count { IfOk result (λ points. length points ≡ count) }
{
    let mut points = Vec::with_capacity(alloc, count)?;
    for k in 0..count {
        let at = place + 8 * k;
        points.push((long(params, at), long(params, at + 4)))?;
    }
    Ok(Items::from_vec(points))
}

/// So many rectangles from a place on.
fn rects(
    alloc: Global,
    params: &[u8],
    place: usize,
    count: usize,
) -> Result<Items<Rect>, AllocError>
    requires { place + 16 * count ≤ length params.now }
    ensures rects { IfOk result (λ rects. rects ≡ rects_at params.now place count) }
    ensures count { IfOk result (λ rects. length rects ≡ count) }
{
    let mut rects = Vec::with_capacity(alloc, count)?;
    for k in 0..count {
        rects.push(rect(params, place + 16 * k))?;
    }
    Ok(Items::from_vec(rects))
}

/// So many entries of a table from a place on.
fn table(alloc: Global, params: &[u8], place: usize, count: usize) -> Result<Items<u16>, AllocError>
    requires { place + 2 * count ≤ length params.now }
    ensures table { IfOk result (λ table. table ≡ table_at params.now place count) }
    ensures count { IfOk result (λ table. length table ≡ count) }
{
    let mut table = Vec::with_capacity(alloc, count)?;
    for k in 0..count {
        table.push(short(params, place + 2 * k))?;
    }
    Ok(Items::from_vec(table))
}

/// FixBadPixelsConstant.
#[tactic(auto, unfolding(crate::specs::Params::constant_of))]
fn fix_constant(params: &[u8]) -> Option<Opcode>
    ensures opcode { result ≡ constant_of params.now }
    ensures can_run { IfSome result CanRun }
{
    if params.len() != 8 {
        return None;
    }
    let phase = long(params, 4);
    if phase > MAX_PHASE {
        return None;
    }
    Some(Opcode::FixConstant {
        constant: long(params, 0),
        phase: phase as u8,
    })
}

/// FixBadPixelsList.
#[tactic(auto, unfolding(crate::specs::Params::list_of))]
fn fix_list(alloc: Global, params: &[u8]) -> Result<Option<Opcode>, AllocError>
    ensures opcode { IfOk result (λ opcode. opcode ≡ list_of params.now) }
    ensures can_run { IfOk result (λ opcode. IfSome opcode CanRun) }
{
    if params.len() < 12 {
        return Ok(None);
    }
    let phase = long(params, 0);
    let point_count = long(params, 4);
    let rect_count = long(params, 8);
    let rects_place = 12 + 8 * point_count as usize;
    if params.len() != rects_place + 16 * rect_count as usize
        || phase > MAX_PHASE
        || point_count > MAX_POINTS
        || rect_count > MAX_RECTS
    {
        return Ok(None);
    }
    Ok(Some(Opcode::FixList {
        phase: phase as u8,
        points: points(alloc, params, 12, point_count as usize)?,
        rects: rects(alloc, params, rects_place, rect_count as usize)?,
    }))
}

/// TrimBounds.
#[tactic(auto, unfolding(crate::specs::Params::trim_of, crate::specs::Params::rect_at))]
fn trim(params: &[u8]) -> Option<Opcode>
    ensures opcode { result ≡ trim_of params.now }
    ensures can_run { IfSome result (CanRunIn 3) }
{
    if params.len() != 16 {
        return None;
    }
    let rect = rect(params, 0);
    if rect.top >= rect.bottom || rect.left >= rect.right {
        return None;
    }
    Some(Opcode::Trim { rect })
}

/// MapTable.
#[tactic(auto, unfolding(crate::specs::Params::map_of))]
fn map_table(alloc: Global, params: &[u8]) -> Result<Option<Opcode>, AllocError>
    ensures opcode { IfOk result (λ opcode. opcode ≡ map_of params.now) }
    ensures can_run { IfOk result (λ opcode. IfSome opcode (CanRunIn 3)) }
{
    if params.len() < 36 {
        return Ok(None);
    }
    let row_pitch = long(params, 24);
    let col_pitch = long(params, 28);
    let size = long(params, 32);
    if params.len() != 36 + 2 * size as usize
        || size == 0
        || size > MAX_TABLE
        || row_pitch == 0
        || col_pitch == 0
    {
        return Ok(None);
    }
    Ok(Some(Opcode::Map {
        rect: rect(params, 0),
        plane: long(params, 16),
        planes: long(params, 20),
        row_pitch,
        col_pitch,
        table: table(alloc, params, 36, size as usize)?,
    }))
}

/// The opcode of an ID that can be run, if its parameters can.
#[tactic(auto, unfolding(crate::specs::Params::opcode_with))]
pub(crate) fn opcode_with(
    alloc: Global,
    id: u32,
    params: &[u8],
) -> Result<Option<Opcode>, AllocError>
    ensures opcode { IfOk result (λ opcode. opcode ≡ opcode_with id params.now) }
    ensures can_run { IfOk result (λ opcode. IfSome opcode CanRun) }
    ensures mends { 6 ≤ id → IfOk result (λ opcode. IfSome opcode (MayStandIn 3)) }
{
    match id {
        FIX_BAD_PIXELS_CONSTANT => Ok(fix_constant(params)),
        FIX_BAD_PIXELS_LIST => fix_list(alloc, params),
        TRIM_BOUNDS => Ok(trim(params)),
        _ => map_table(alloc, params),
    }
}
