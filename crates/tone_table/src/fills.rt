//! Tables of curves.

ghost use Rattle.std.specs.Prelude.{◌≡◌, ◌+◌, ◌-◌, ◌*◌, ◌<◌, ◌≤◌, ◌^◌, IsTrue, length};
ghost use Rattle.tone_table.specs.Tones.{root_of, line_at, knots_at};
ghost use Rattle.tone_table.specs.inner.Fills.{HasEntries, SameBelow, rise_from_first, first_of};

/// How many entries a table has.
pub(crate) const ENTRIES: usize = 65536;

/// Fills a table so that each sample stays.
pub(crate) fn fill_linear(table: &mut [u16])
    requires { length table.old ≡ 65536 }
    ensures { HasEntries (λ x. x) table.new 0 65536 }
{
    for x in 0..ENTRIES {
        table[x] = x as u16;
    }
}

/// The root of a number, rounded down, from one that isn't greater.
fn root_from(start: u64, number: u64) -> u64
    requires start { start * start ≤ number }
    requires number { number < 2 ^ 40 }
    ensures root { result ≡ root_of number }
    ensures square { result * result ≤ number }
{
    let mut root = start;
    while (root + 1) * (root + 1) <= number {
        root += 1;
    }
    root
}

/// Fills a table with roots, scaled so that 65535 stays.
pub(crate) fn fill_root(table: &mut [u16])
    requires { length table.old ≡ 65536 }
    ensures { HasEntries (λ x. root_of (x * 65535)) table.new 0 65536 }
{
    let mut root = 0;
    for x in 0..ENTRIES {
        root = root_from(root, x as u64 * 65535);
        table[x] = root as u16;
    }
}

/// The height at `x` of the line from one point to another that is to its right.
fn on_line(one: (u16, u16), other: (u16, u16), x: u16) -> u16
    requires left { one.0 ≤ x }
    requires right { x < other.0 }
    ensures { result ≡ line_at one other x }
{
    let along = u32::from(x - one.0);
    let over = u32::from(other.0 - one.0);
    if one.1 <= other.1 {
        one.1 + (along * u32::from(other.1 - one.1) / over) as u16
    } else {
        one.1 - ((along * u32::from(one.1 - other.1) + over - 1) / over) as u16
    }
}

/// Fills the entries from one point up to the next one.
fn fill_line(one: (u16, u16), other: (u16, u16), table: &mut [u16])
    requires order { one.0 < other.0 }
    requires long { length table.old ≡ 65536 }
    ensures entries { HasEntries (line_at one other) table.new one.0 other.0 }
    ensures before { SameBelow table.old table.new one.0 }
{
    for x in one.0..other.0 {
        table[usize::from(x)] = on_line(one, other, x);
    }
}

/// Fills the entries from the first point on by the lines between points.
pub(crate) fn fill_knots(points: &[(u16, u16)], table: &mut [u16])
    requires rise { IsTrue (rise_from_first points.now) }
    requires long { length table.old ≡ 65536 }
    ensures entries { HasEntries (knots_at points.now) table.new (first_of points.now) 65536 }
    ensures before { SameBelow table.old table.new (first_of points.now) }
{
    if let [one, rest @ ..] = points {
        if let [other, ..] = rest {
            fill_line(*one, *other, table);
            fill_knots(rest, table);
        } else {
            table[usize::from(one.0)] = one.1;
        }
    }
}
