//! The fifth group: the colours of the filter array.

ghost use Rattle.std.specs.Prelude.{◌≡◌, ◌≤◌, length, IfOk, IfSome, IsTrue};
ghost use Rattle.std.specs.List.{Contains, find};
ghost use Rattle.dng_tags.specs.Pattern.{are_red_green_blue, colours_of, has_plane_colours, has_rectangular_layout};
ghost use Rattle.dng_tags.specs.Pattern.{is_same_pattern, pattern_of, pattern_size_of, patterns};

use tag_rules::{Directories, FrameFault, Tag, Whole};

/// The patterns of 2 by 2 that are accepted, row by row: 0 is red, 1 green, 2 blue.
const PATTERNS: [[u8; 4]; 4] = [[0, 1, 1, 2], [2, 1, 1, 0], [1, 0, 2, 1], [1, 2, 0, 1]];

/// The value of CFALayout for rows and columns of squares.
const SQUARE: u32 = 1;

/// The colours of the pattern.
///
/// # Errors
///
/// `Cfa`, and what reading the tags is refused for.
#[tactic(auto, unfolding(crate::specs::Pattern::pattern_of))]
pub fn read_pattern(dirs: &Directories<'_>) -> Result<[u8; 4], FrameFault>
    ensures answer { result ≡ pattern_of dirs.now }
    ensures known { IfOk result (Contains patterns) }
{
    check_pattern_size(dirs)?;
    let cfa = read_colours(dirs)?;
    check_plane_colours(dirs)?;
    check_layout(dirs)?;
    Ok(cfa)
}

/// A pattern of 2 by 2.
#[tactic(auto, unfolding(crate::specs::Pattern::pattern_size_of))]
fn check_pattern_size<'a>(dirs: &Directories<'a>) -> Result<Whole<'a>, FrameFault>
    ensures { result ≡ pattern_size_of dirs.now }
{
    let dims = dirs.required_whole(Tag::CfaRepeatPatternDim)?;
    if dims.at(0) != 2 || dims.at(1) != 2 {
        return Err(FrameFault::Cfa);
    }
    Ok(dims)
}

/// One of the four patterns.
#[tactic(auto, unfolding(crate::specs::Pattern::colours_of))]
fn read_colours(dirs: &Directories<'_>) -> Result<[u8; 4], FrameFault>
    ensures answer { result ≡ colours_of dirs.now }
    ensures known { IfOk result (Contains patterns) }
{
    let colours = dirs.required_whole(Tag::CfaPattern)?;
    match known_pattern(&colours) {
        Some(pattern) => Ok(pattern),
        None => Err(FrameFault::Cfa),
    }
}

/// The pattern of these four colours, if it is accepted.
fn known_pattern(colours: &Whole<'_>) -> Option<[u8; 4]>
    requires { 4 ≤ length colours.now }
    ensures answer { result ≡ find (λ pattern. is_same_pattern pattern colours.now) patterns }
    ensures known { IfSome result (Contains patterns) }
{
    PATTERNS
        .iter()
        .copied()
        .find(|pattern| is_pattern(pattern, colours))
}

/// Whether the colours are those of a pattern.
fn is_pattern(pattern: &[u8; 4], colours: &Whole<'_>) -> bool
    requires { 4 ≤ length colours.now }
    ensures { result ≡ is_same_pattern pattern.now colours.now }
{
    u32::from(pattern[0]) == colours.at(0)
        && u32::from(pattern[1]) == colours.at(1)
        && u32::from(pattern[2]) == colours.at(2)
        && u32::from(pattern[3]) == colours.at(3)
}

/// Planes of red, green and blue, in this order.
#[tactic(auto, unfolding(crate::specs::Pattern::has_plane_colours))]
fn check_plane_colours(dirs: &Directories<'_>) -> Result<bool, FrameFault>
    ensures { result ≡ has_plane_colours dirs.now }
{
    if let Some(colours) = dirs.whole(Tag::CfaPlaneColor)? {
        if !are_red_green_blue(&colours) {
            return Err(FrameFault::Cfa);
        }
    }
    Ok(true)
}

fn are_red_green_blue(colours: &Whole<'_>) -> bool
    requires { 3 ≤ length colours.now }
    ensures { result ≡ are_red_green_blue colours.now }
{
    colours.at(0) == 0 && colours.at(1) == 1 && colours.at(2) == 2
}

/// Squares in rows and columns.
#[tactic(auto, unfolding(crate::specs::Pattern::has_rectangular_layout))]
fn check_layout(dirs: &Directories<'_>) -> Result<bool, FrameFault>
    ensures { result ≡ has_rectangular_layout dirs.now }
{
    if dirs.number_or(Tag::CfaLayout, SQUARE)? != SQUARE {
        return Err(FrameFault::Cfa);
    }
    Ok(true)
}
