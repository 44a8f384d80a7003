//! A row of samples that is mapped.

ghost use Rattle.std.specs.Prelude.{◌*◌, ◌^◌, ◌<◌, ◌≤◌, length};
ghost use Rattle.opcode_stages.specs.inner.MapRows.{MapsColumns, IsFirstFrom};

/// The columns from one on, at a pitch, up to another.
#[derive(Clone, Copy)]
pub(crate) struct Columns {
    pub(crate) from: usize,
    pub(crate) to: usize,
    pub(crate) pitch: usize,
}

/// The first number from `start` on, at a pitch, that is not below `low`.
pub(crate) fn first_from(start: u32, pitch: u32, low: u32) -> u64
    requires { 1 ≤ pitch }
    ensures first { IsFirstFrom start pitch low result }
    ensures near { result < 2 ^ 33 }
{
    let (start, pitch, low) = (u64::from(start), u64::from(pitch), u64::from(low));
    if low <= start {
        return start;
    }
    let past = (low - start) % pitch;
    if past == 0 { low } else { low + (pitch - past) }
}

/// Maps the samples from one up to another of a row of one sample a pixel.
fn map_run(table: &[u16], from: usize, to: usize, row: &mut [u16])
    requires table { 1 ≤ length table.now }
    requires order { from ≤ to }
    requires row { to ≤ length row.old }
    ensures { MapsColumns table.now row.old row.new 1 0 from to 1 }
{
    let last = table.len() - 1;
    for k in from..to {
        row[k] = table[usize::from(row[k]).min(last)];
    }
}

/// Maps the samples of plane `p` at some columns of a row whose pixels have so many samples.
pub(crate) fn map_columns(table: &[u16], planes: usize, p: usize, columns: Columns, row: &mut [u16])
    requires table { 1 ≤ length table.now }
    requires pitch { 1 ≤ columns.pitch }
    requires near { columns.pitch < 2 ^ 32 }
    requires plane { p < planes }
    requires planes { planes ≤ 3 }
    requires cols { columns.to ≤ 8192 }
    requires row { columns.to * planes ≤ length row.old }
    ensures { MapsColumns table.now row.old row.new planes p columns.from columns.to columns.pitch }
{
    if planes == 1 && columns.pitch == 1 && columns.from <= columns.to {
        map_run(table, columns.from, columns.to, row);
        return;
    }
    let last = table.len() - 1;
    let mut k = columns.from;
    while k < columns.to {
        let sample = &mut row[k * planes + p];
        *sample = table[usize::from(*sample).min(last)];
        k += columns.pitch;
    }
}
