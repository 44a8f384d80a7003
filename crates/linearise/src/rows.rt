//! Rows of linear values.

ghost use Rattle.std.specs.Prelude.{◌≡◌, ◌*◌, ◌<◌, pos, ◌+ℤ◌, ◌-ℤ◌, length, IsTrue};
ghost use Rattle.tag_rules.specs.Quantities.{AreWithin, IsWithin};
ghost use Rattle.linearise.specs.inner.Rows.{IsLinearTo, IsTabled};

use crate::scale::Scale;

/// Writes each sample after the table: the last entry where it is past the table; an empty table changes nothing.
#[tactic(auto, unfolding(crate::specs::Linear::by_table))]
pub(crate) fn look_up(table: &[u16], samples: &[u16], out: &mut [u16])
    requires { length samples.now ≡ length out.old }
    ensures { IsTabled table.now samples.now out.new }
{
    if table.is_empty() {
        out.copy_from_slice(samples);
        return;
    }
    let last = table.len() - 1;
    for k in 0..out.len() {
        out[k] = table[usize::from(samples[k]).min(last)];
    }
}

/// Makes linear values of the samples of a row, in their place. `across` has the black level of each column, and `down`
/// is what the row adds.
pub(crate) fn make_linear(scale: Scale, across: &[i32], down: i32, out: &mut [u16])
    requires long { length across.now ≡ length out.old }
    requires across { AreWithin 33554432 across.now }
    requires down { IsWithin 16777216 down }
    ensures { IsLinearTo scale.span across.now down out.old out.new (length out.old) }
{
    if scale.is_short() {
        make_linear_by(scale, true, across, down, out);
    } else {
        make_linear_by(scale, false, across, down, out);
    }
}

/// The same, by one product a sample or by two: a loop of its own for each.
#[inline(always)]
fn make_linear_by(scale: Scale, short: bool, across: &[i32], down: i32, out: &mut [u16])
    requires short { IsTrue short → scale.shift ≡ 16 }
    requires long { length across.now ≡ length out.old }
    requires across { AreWithin 33554432 across.now }
    requires down { IsWithin 16777216 down }
    ensures { IsLinearTo scale.span across.now down out.old out.new (length out.old) }
{
    for k in 0..out.len() {
        out[k] = scale.value(short, above_black(out[k], across[k], down));
    }
}

/// How far a sample is above a black level and what a row adds, in 256ths.
#[inline(always)]
fn above_black(sample: u16, across: i32, down: i32) -> i32
    requires across { IsWithin 33554432 across }
    requires down { IsWithin 16777216 down }
    ensures { result ≡ pos (256 * sample) -ℤ (across +ℤ down) }
{
    i32::from(sample) * 256 - (across + down)
}
