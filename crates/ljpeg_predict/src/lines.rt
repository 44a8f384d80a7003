//! Samples from their differences, line by line (ITU-T T.81, H.1.2.1).

ghost use Rattle.std.specs.Prelude.{◌≡◌, ℕ, ◌+◌, ◌-◌, ◌%◌, ◌^◌, ◌<◌, ◌≤◌, pos, ◌-ℤ◌, length, slice_index};
ghost use Rattle.ljpeg_huffman.specs.Differences.{modulo};
ghost use Rattle.ljpeg_predict.specs.inner.Lines.{IsFirstLine, IsNextLine};
ghost use Rattle.ljpeg_predict.specs.Prediction.{half, predicted};
ghost use Rattle.ljpeg_predict.specs.declared.scan.Predictor.TheVariants as kind;

use crate::scan::Predictor;

/// Adds to the differences of the first line their predictions: `start` for the first sample of each component, the
/// sample to the left for the others.
pub(crate) fn first_line(line: &mut [u16], step: usize, start: u16)
    requires { 0 < step }
    ensures { IsFirstLine start step line.old line.new }
{
    for place in 0..line.len() {
        let predicted = if place < step {
            start
        } else {
            line[place - step]
        };
        line[place] = predicted.wrapping_add(line[place]);
    }
}

/// Adds to the differences of a later line their predictions: the sample above for the first of each component, the
/// predictor's for the others.
pub(crate) fn next_line(predictor: Predictor, above: &[u16], line: &mut [u16], step: usize)
    requires step { 0 < step }
    requires above { length above.now ≡ length line.old }
    requires room { step ≤ length line.old }
    ensures { IsNextLine predictor step above.now line.old line.new }
{
    first_samples(above, line, step);
    match predictor {
        Predictor::Left => inner_samples(left, above, line, step),
        Predictor::Above => inner_samples(above_only, above, line, step),
        Predictor::AboveLeft => inner_samples(above_left, above, line, step),
        Predictor::Plane => inner_samples(plane, above, line, step),
        Predictor::LeftAndSlope => inner_samples(left_and_slope, above, line, step),
        Predictor::AboveAndSlope => inner_samples(above_and_slope, above, line, step),
        Predictor::Mean => inner_samples(mean, above, line, step),
    }
}

/// Adds the samples above to the first difference of each component.
fn first_samples(above: &[u16], line: &mut [u16], step: usize)
    requires above { length above.now ≡ length line.old }
    requires room { step ≤ length line.old }
    ensures first { (place : ℕ) → place < step
        → slice_index line.new place ≡ (slice_index above.now place + slice_index line.old place) % 2 ^ 16 }
    ensures others { (place : ℕ) → step ≤ place → slice_index line.new place ≡ slice_index line.old place }
{
    for place in 0..step {
        line[place] = above[place].wrapping_add(line[place]);
    }
}

/// Adds their predictions to the differences behind the first one of each component.
fn inner_samples<P: Fn(u16, u16, u16) -> u16>(
    predict: P,
    above: &[u16],
    line: &mut [u16],
    step: usize,
)
    requires callable { P.IsAlwaysCallable predict }
    requires step { 0 < step }
    requires above { length above.now ≡ length line.old }
    ensures first { (place : ℕ) → place < step → slice_index line.new place ≡ slice_index line.old place }
    ensures others { (place : ℕ) → step ≤ place → place < length line.old
        → (p : ℕ) × P.post predict
        (slice_index line.new (place - step)) (slice_index above.now place) (slice_index above.now (place - step)) p
        × (slice_index line.new place ≡ (p + slice_index line.old place) % 2 ^ 16) }
{
    for place in step..line.len() {
        let predicted = predict(line[place - step], above[place], above[place - step]);
        line[place] = predicted.wrapping_add(line[place]);
    }
}

fn left(left: u16, _above: u16, _corner: u16) -> u16
    ensures { result ≡ modulo (predicted kind.Left left _above _corner) }
{
    left
}

fn above_only(_left: u16, above: u16, _corner: u16) -> u16
    ensures { result ≡ modulo (predicted kind.Above _left above _corner) }
{
    above
}

fn above_left(_left: u16, _above: u16, corner: u16) -> u16
    ensures { result ≡ modulo (predicted kind.AboveLeft _left _above corner) }
{
    corner
}

fn plane(left: u16, above: u16, corner: u16) -> u16
    ensures { result ≡ modulo (predicted kind.Plane left above corner) }
{
    left.wrapping_add(above).wrapping_sub(corner)
}

fn left_and_slope(left: u16, above: u16, corner: u16) -> u16
    ensures { result ≡ modulo (predicted kind.LeftAndSlope left above corner) }
{
    left.wrapping_add(half_slope(above, corner))
}

fn above_and_slope(left: u16, above: u16, corner: u16) -> u16
    ensures { result ≡ modulo (predicted kind.AboveAndSlope left above corner) }
{
    above.wrapping_add(half_slope(left, corner))
}

fn mean(left: u16, above: u16, _corner: u16) -> u16
    ensures { result ≡ modulo (predicted kind.Mean left above _corner) }
{
    ((u32::from(left) + u32::from(above)) / 2) as u16
}

/// Half of one sample less another, rounded down, modulo 2^16.
fn half_slope(sample: u16, corner: u16) -> u16
    ensures { result ≡ modulo (half (pos sample -ℤ pos corner)) }
{
    ((u32::from(sample) + 0x2_0000 - u32::from(corner)) / 2 % 0x1_0000) as u16
}

/// The prediction from the samples to the left, above, and above to the left.
pub(crate) fn predict(predictor: Predictor, west: u16, north: u16, corner: u16) -> u16
    ensures { result ≡ modulo (predicted predictor west north corner) }
{
    match predictor {
        Predictor::Left => left(west, north, corner),
        Predictor::Above => above_only(west, north, corner),
        Predictor::AboveLeft => above_left(west, north, corner),
        Predictor::Plane => plane(west, north, corner),
        Predictor::LeftAndSlope => left_and_slope(west, north, corner),
        Predictor::AboveAndSlope => above_and_slope(west, north, corner),
        Predictor::Mean => mean(west, north, corner),
    }
}
