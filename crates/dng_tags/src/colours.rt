//! The group of the colour tags.

ghost use Rattle.std.specs.Prelude.{◌≡◌, ◌*◌, ◌+◌, ◌<ℤ◌, ◌≤◌, ◌<◌, ◌^◌, ℕ, pos, int_lt, length, map, slice_index};
ghost use Rattle.std.specs.Prelude.{slice_index_or, None, Some, IfOk, IfSome, IsTrue, if◌then◌else◌};
ghost use Rattle.std.specs.Bool.{OnTrue};
ghost use Rattle.std.specs.List.{list_all};
ghost use Rattle.tiff_dirs.specs.Numbers.{IsOf32Bits};
ghost use Rattle.dng_tags.specs.Colours.{analog_of, calibration_of, colour_fault, colour_of, colours_in, gain_of};
ghost use Rattle.dng_tags.specs.Colours.{gains_in, gains_of, has_gain, has_zeros, is_diagonal, is_positive, is_zero};
ghost use Rattle.dng_tags.specs.Colours.{matrix_of};
ghost use Rattle.dng_tags.specs.Facts.{AreColours, IsMatrix};
ghost use Rattle.tag_rules.specs.Quantities.{AreWithin};
ghost use Rattle.tag_rules.specs.Tags.{are_fractions, rule_of};

use crate::record::Colour;
use tag_rules::{COLOURS, Directories, Fractions, FrameFault, Tag};

/// Ones in 65536ths.
const ONES: [i32; 3] = [65536; 3];

/// A gain of one in 4096ths.
const UNIT_GAIN: u32 = 4096;

/// The greatest gain.
const MAX_GAIN: u128 = 1 << 20;

/// The camera's colours.
///
/// # Errors
///
/// `Colour`, and what reading the tags is refused for.
#[tactic(auto, unfolding(crate::specs::Colours::colour_of))]
pub fn read_colour(dirs: &Directories<'_>) -> Result<Colour, FrameFault>
    ensures answer { result ≡ colour_of dirs.now }
    ensures range { IfOk result AreColours }
{
    let matrix1 = read_matrix(dirs, Tag::ColorMatrix1)?;
    let matrix2 = read_matrix(dirs, Tag::ColorMatrix2)?;
    let calibration1 = read_calibration(dirs, Tag::CameraCalibration1)?;
    let calibration2 = read_calibration(dirs, Tag::CameraCalibration2)?;
    let analog = read_analog(dirs)?;
    let gains = read_gains(dirs)?;
    let forward1 = read_matrix(dirs, Tag::ForwardMatrix1)?;
    let forward2 = read_matrix(dirs, Tag::ForwardMatrix2)?;
    Ok(Colour {
        gains,
        forward1,
        forward2,
        matrix1,
        matrix2,
        analog,
        calibration1,
        calibration2,
    })
}

/// The refusal of a colour tag.
fn colour_fault(tag: Tag) -> FrameFault
    ensures { result ≡ colour_fault tag }
{
    FrameFault::Colour {
        tag: tag.rule().number,
    }
}

/// The fractions of a colour tag in 65536ths.
fn read_entries<const N: usize>(tag: Tag, fractions: &Fractions<'_>) -> Result<[i32; N], FrameFault>
    requires { length fractions.now ≡ N }
    ensures answer { result ≡ colours_in tag fractions.now }
    ensures within { IfOk result (AreWithin 1048576) }
{
    let mut entries = [0; N];
    if !COLOURS.read(fractions, &mut entries) {
        return Err(colour_fault(tag));
    }
    Ok(entries)
}

/// A matrix by rows, if the tag is there.
#[tactic(auto, unfolding(crate::specs::Colours::matrix_of))]
fn read_matrix(dirs: &Directories<'_>, tag: Tag) -> Result<Option<[i32; 9]>, FrameFault>
    requires kinds { IsTrue (are_fractions (rule_of tag).kinds) }
    requires fewest { (rule_of tag).fewest ≡ 9 }
    requires most { (rule_of tag).most ≡ 9 }
    ensures answer { result ≡ matrix_of dirs.now tag }
    ensures range { IfOk result IsMatrix }
{
    match dirs.fractions(tag)? {
        Some(fractions) => Ok(Some(read_entries(tag, &fractions)?)),
        None => Ok(None),
    }
}

/// The diagonal of a camera's calibration, which is ones where the tag is absent.
#[tactic(auto, unfolding(crate::specs::Colours::calibration_of))]
fn read_calibration(dirs: &Directories<'_>, tag: Tag) -> Result<[i32; 3], FrameFault>
    requires kinds { IsTrue (are_fractions (rule_of tag).kinds) }
    requires fewest { (rule_of tag).fewest ≡ 9 }
    requires most { (rule_of tag).most ≡ 9 }
    ensures { result ≡ calibration_of dirs.now tag }
{
    let Some(fractions) = dirs.fractions(tag)? else {
        return Ok(ONES);
    };
    let entries: [i32; 9] = read_entries(tag, &fractions)?;
    if !is_diagonal(&fractions) {
        return Err(colour_fault(tag));
    }
    Ok([entries[0], entries[4], entries[8]])
}

/// Whether a matrix of 3 by 3 has zeros off the diagonal.
#[tactic(auto, unfolding(crate::specs::Colours::is_diagonal))]
fn is_diagonal(fractions: &Fractions<'_>) -> bool
    requires { length fractions.now ≡ 9 }
    ensures { result ≡ is_diagonal fractions.now }
{
    has_zeros(fractions, 1) && has_zeros(fractions, 5)
}

/// Whether three numerators in a row are 0.
fn has_zeros(fractions: &Fractions<'_>, from: u32) -> bool
    requires length { length fractions.now ≡ 9 }
    requires within { from ≤ 6 }
    ensures { result ≡ has_zeros fractions.now from }
{
    is_zero(fractions.at(from).0)
        && is_zero(fractions.at(from + 1).0)
        && is_zero(fractions.at(from + 2).0)
}

fn is_zero(n: i64) -> bool
    ensures { result ≡ is_zero n }
{
    n.unsigned_abs() == 0
}

/// The analog balance, which is ones where the tag is absent.
#[tactic(auto, unfolding(crate::specs::Colours::analog_of))]
fn read_analog(dirs: &Directories<'_>) -> Result<[i32; 3], FrameFault>
    ensures { result ≡ analog_of dirs.now }
{
    let Some(fractions) = dirs.fractions(Tag::AnalogBalance)? else {
        return Ok(ONES);
    };
    let entries: [i32; 3] = read_entries(Tag::AnalogBalance, &fractions)?;
    if !are_positive(&entries) {
        return Err(colour_fault(Tag::AnalogBalance));
    }
    Ok(entries)
}

fn are_positive(entries: &[i32]) -> bool
    ensures { result ≡ list_all (int_lt (pos 0)) entries.now }
{
    entries.iter().all(|entry| 0 < *entry)
}

/// The gains of the three channels, which are one where the neutral is absent.
#[tactic(auto, unfolding(crate::specs::Colours::gains_of))]
fn read_gains(dirs: &Directories<'_>) -> Result<[u32; 3], FrameFault>
    ensures answer { result ≡ gains_of dirs.now }
    ensures range { IfOk result (λ gains. (k : ℕ) → k < 3
        → (1 ≤ slice_index gains k) × (slice_index gains k ≤ 1048576)) }
{
    match dirs.fractions(Tag::AsShotNeutral)? {
        Some(neutral) => gains_in(&neutral),
        None => Ok([UNIT_GAIN; 3]),
    }
}

/// The gains that turn the neutral into equal channels.
fn gains_in(neutral: &Fractions<'_>) -> Result<[u32; 3], FrameFault>
    requires { length neutral.now ≡ 3 }
    ensures answer { result ≡ gains_in (Some neutral.now) }
    ensures range { IfOk result (λ gains. (k : ℕ) → k < 3
        → (1 ≤ slice_index gains k) × (slice_index gains k ≤ 1048576)) }
{
    let mut gains = [0; 3];
    if !fill_gains(neutral, &mut gains) {
        return Err(colour_fault(Tag::AsShotNeutral));
    }
    Ok(gains)
}

/// The gain of each channel. Whether each has one.
fn fill_gains(neutral: &Fractions<'_>, gains: &mut [u32]) -> bool
    requires green { 2 ≤ length neutral.now }
    requires room { length gains.old ≡ length neutral.now }
    ensures all { result ≡ list_all (has_gain (slice_index_or neutral.now 1 (pos 0, pos 0))) neutral.now }
    ensures gains { OnTrue result
        (gains.new ≡ map (gain_of (slice_index_or neutral.now 1 (pos 0, pos 0))) neutral.now) }
    ensures range { OnTrue result ((k : ℕ) → k < length neutral.now
        → (1 ≤ slice_index gains.new k) × (slice_index gains.new k ≤ 1048576)) }
{
    let green = neutral.at(1);
    for i in 0..neutral.len() {
        match gain(green, neutral.at(i)) {
            Some(gain) => gains[i as usize] = gain,
            None => return false,
        }
    }
    true
}

/// The gain of a channel in 4096ths, if it has one.
#[tactic(auto, unfolding(crate::specs::Colours::has_gain))]
fn gain(green: (i64, i64), channel: (i64, i64)) -> Option<u32>
    requires green_above { IsOf32Bits green.0 }
    requires green_below { IsOf32Bits green.1 }
    requires above { IsOf32Bits channel.0 }
    requires below { IsOf32Bits channel.1 }
    ensures value { result ≡ (if has_gain green channel then Some (gain_of green channel) else None) }
    ensures range { IfSome result (λ gain. (1 ≤ gain) × (gain ≤ 1048576)) }
{
    if !is_positive(green) || !is_positive(channel) {
        return None;
    }
    let gain = rounded_gain(green, channel);
    if 1 <= gain && gain <= MAX_GAIN {
        Some(gain as u32)
    } else {
        None
    }
}

/// Whether a number of the neutral is positive.
#[tactic(auto, unfolding(crate::specs::Colours::is_positive))]
fn is_positive(fraction: (i64, i64)) -> bool
    ensures value { result ≡ is_positive fraction }
    ensures above { IsTrue result → pos 0 <ℤ fraction.0 }
    ensures below { IsTrue result → pos 0 <ℤ fraction.1 }
{
    0 < fraction.0 && 0 < fraction.1
}

/// The gain of a channel in 4096ths: green over the channel, rounded.
#[tactic(auto, unfolding(crate::specs::Colours::gain_of))]
fn rounded_gain(green: (i64, i64), channel: (i64, i64)) -> u128
    requires green_above { IsOf32Bits green.0 }
    requires green_below { IsOf32Bits green.1 }
    requires above { IsOf32Bits channel.0 }
    requires below { IsOf32Bits channel.1 }
    requires green_positive { pos 0 <ℤ green.1 }
    requires positive { pos 0 <ℤ channel.0 }
    ensures { result ≡ gain_of green channel }
{
    let above = product(green.0.unsigned_abs(), channel.1.unsigned_abs());
    let below = product(green.1.unsigned_abs(), channel.0.unsigned_abs());
    (2 * 4096 * above + below) / (2 * below)
}

/// The product of two numbers of at most 2^32.
fn product(one: u64, other: u64) -> u128
    requires one { one ≤ 2 ^ 32 }
    requires other { other ≤ 2 ^ 32 }
    ensures value { result ≡ one * other }
    ensures most { result ≤ 2 ^ 64 }
    ensures positive { 0 < one → 0 < other → 0 < result }
{
    u128::from(one) * u128::from(other)
}
