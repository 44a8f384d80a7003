//! One row of pixels, from rows of samples.

ghost use Rattle.std.specs.Prelude.{◌≡◌, ◌+◌, ◌-◌, ◌*◌, ◌%◌, ◌≤◌, length};
ghost use Rattle.plane_view.specs.Lent.{HasRow, sample_at};
ghost use Rattle.plane_view.specs.Plane.{coloured};
ghost use Rattle.plane_view.specs.Rectangles.{LiesIn, grown, whole_rect, width};
ghost use Rattle.plane_view.specs.Rows.{IsRowOf};
ghost use Rattle.plane_view.specs.Shapes.{IsShape};
ghost use Rattle.stage_core.specs.Planes.{IsPart};
ghost use Rattle.malvar.specs.Demosaic.{demosaiced_at, table_of, reach_of};
ghost use Rattle.malvar.specs.Mosaics.{IsMosaic, colours_of};
ghost use Rattle.malvar.specs.inner.Around.{even_site, odd_site};
ghost use Rattle.malvar.specs.inner.Rows.{HasColumns, SameBelow, Spans, with_pixel};

use crate::Kind;
use crate::filters::{RowSites, Site};
use crate::pattern::Pattern;
use crate::windows::Window;
use plane_view::{Rect, Shape, View};

/// Writes pixel `k` of a row.
#[inline(always)]
fn put(out: &mut [u16], k: usize, pixel: [u16; 3])
    requires { k * 3 + 3 ≤ length out.old }
    ensures { out.new ≡ with_pixel out.old k pixel }
{
    let at = k * 3;
    out[at] = pixel[0];
    out[at + 1] = pixel[1];
    out[at + 2] = pixel[2];
}

/// A row of pixels that is developed by pairs: the kind, the sites of its even and odd columns, and its first column.
#[derive(Clone, Copy)]
pub(crate) struct Row {
    pub(crate) kind: Kind,
    pub(crate) even: Site,
    pub(crate) odd: Site,
    pub(crate) first: usize,
}

/// Develops the columns from `from` up to `to`, reflecting columns outside the plane.
fn fill_reflecting(
    window: &Window,
    sites: RowSites,
    kind: Kind,
    first: usize,
    from: usize,
    to: usize,
    out: &mut [u16],
)
    requires spans { Spans (reach_of kind) window.now from to }
    requires first { first ≤ from }
    requires out { (to - first) * 3 ≤ length out.old }
    ensures pixels { HasColumns kind (even_site sites) (odd_site sites) window.now first out.new from to }
    ensures before { SameBelow out.old out.new (from - first) }
{
    for c in from..to {
        put(
            out,
            c - first,
            sites.site(c).pixel(kind, window.around_at(kind, c)),
        );
    }
}

/// Develops so many pairs of columns from the even column `from` on, whose neighbours all lie in the plane.
#[inline(always)]
fn fill_pairs(window: &Window, row: Row, from: usize, pairs: usize, out: &mut [u16])
    requires spans { Spans (reach_of row.kind) window.now from (from + pairs * 2) }
    requires even { from % 2 ≡ 0 }
    requires low { reach_of row.kind ≤ from }
    requires high { from + pairs * 2 + reach_of row.kind ≤ window.now.cols }
    requires first { row.first ≤ from }
    requires out { (from + pairs * 2 - row.first) * 3 ≤ length out.old }
    ensures pixels { HasColumns row.kind row.even row.odd window.now row.first out.new from (from + pairs * 2) }
    ensures before { SameBelow out.old out.new (from - row.first) }
{
    let reach = row.kind.reach() as usize;
    let start = from - reach - window.left;
    let pixel = from - row.first;
    for k in 0..pairs {
        let far_left = start + k * 2;
        let c = far_left + reach;
        let one = window.around_by(far_left, c - 1, c, c + 1, c + reach);
        let two = window.around_by(far_left + 1, c, c + 1, c + 2, c + reach + 1);
        let one_pixel = row.even.pixel(row.kind, one);
        let two_pixel = row.odd.pixel(row.kind, two);
        put(out, pixel + k * 2, one_pixel);
        put(out, pixel + k * 2 + 1, two_pixel);
    }
}

/// The same, by a loop of its own for each kind of demosaicing.
#[inline(always)]
fn fill_kinds(window: &Window, row: Row, from: usize, pairs: usize, out: &mut [u16])
    requires spans { Spans (reach_of row.kind) window.now from (from + pairs * 2) }
    requires even { from % 2 ≡ 0 }
    requires low { reach_of row.kind ≤ from }
    requires high { from + pairs * 2 + reach_of row.kind ≤ window.now.cols }
    requires first { row.first ≤ from }
    requires out { (from + pairs * 2 - row.first) * 3 ≤ length out.old }
    ensures pixels { HasColumns row.kind row.even row.odd window.now row.first out.new from (from + pairs * 2) }
    ensures before { SameBelow out.old out.new (from - row.first) }
{
    match row.kind {
        Kind::Malvar => fill_pairs(
            window,
            Row {
                kind: Kind::Malvar,
                ..row
            },
            from,
            pairs,
            out,
        ),
        Kind::Bilinear => fill_pairs(
            window,
            Row {
                kind: Kind::Bilinear,
                ..row
            },
            from,
            pairs,
            out,
        ),
    }
}

/// The same, by one loop for each kind of row.
fn fill_sites(
    window: &Window,
    sites: RowSites,
    kind: Kind,
    first: usize,
    from: usize,
    pairs: usize,
    out: &mut [u16],
)
    requires spans { Spans (reach_of kind) window.now from (from + pairs * 2) }
    requires even { from % 2 ≡ 0 }
    requires low { reach_of kind ≤ from }
    requires high { from + pairs * 2 + reach_of kind ≤ window.now.cols }
    requires first { first ≤ from }
    requires out { (from + pairs * 2 - first) * 3 ≤ length out.old }
    ensures pixels { HasColumns kind (even_site sites) (odd_site sites) window.now first out.new from
        (from + pairs * 2) }
    ensures before { SameBelow out.old out.new (from - first) }
{
    match sites {
        RowSites::RedGreen => {
            let row = Row {
                kind,
                even: Site::Red,
                odd: Site::GreenByRed,
                first,
            };
            fill_kinds(window, row, from, pairs, out);
        }
        RowSites::GreenRed => {
            let row = Row {
                kind,
                even: Site::GreenByRed,
                odd: Site::Red,
                first,
            };
            fill_kinds(window, row, from, pairs, out);
        }
        RowSites::GreenBlue => {
            let row = Row {
                kind,
                even: Site::GreenByBlue,
                odd: Site::Blue,
                first,
            };
            fill_kinds(window, row, from, pairs, out);
        }
        RowSites::BlueGreen => {
            let row = Row {
                kind,
                even: Site::Blue,
                odd: Site::GreenByBlue,
                first,
            };
            fill_kinds(window, row, from, pairs, out);
        }
    }
}

/// Develops the columns from `first` up to `to`.
fn fill(window: &Window, sites: RowSites, kind: Kind, first: usize, to: usize, out: &mut [u16])
    requires spans { Spans (reach_of kind) window.now first to }
    requires out { length out.old ≡ (to - first) * 3 }
    ensures { HasColumns kind (even_site sites) (odd_site sites) window.now first out.new first to }
{
    let reach = kind.reach() as usize;
    let from = (first.max(reach) + 1) / 2 * 2;
    let upto = to.min(window.cols as usize - reach);
    if upto < from {
        fill_reflecting(window, sites, kind, first, first, to, out);
        return;
    }
    let pairs = (upto - from) / 2;
    fill_reflecting(window, sites, kind, first, first, from, out);
    fill_sites(window, sites, kind, first, from, pairs, out);
    fill_reflecting(window, sites, kind, first, from + pairs * 2, to, out);
}

/// Develops row `r` of a rectangle.
pub(crate) fn fill_row(
    input: &View<'_>,
    whole: Shape,
    kind: Kind,
    pattern: Pattern,
    rect: Rect,
    r: u32,
    out: &mut [u16],
)
    requires whole { IsShape whole }
    requires takes { IsMosaic whole }
    requires planes { input.now.planes ≡ 1 }
    requires part { IsPart rect (coloured whole) }
    requires need { LiesIn (grown rect (reach_of kind) (whole_rect whole.rows whole.cols)) input.now.rect }
    requires row { HasRow rect r }
    requires out { length out.old ≡ width rect * 3 }
    ensures { IsRowOf (demosaiced_at (table_of kind) (colours_of pattern) whole.rows whole.cols (sample_at input.now))
        rect 3 r out.new }
{
    let part = rect.grow(kind.reach(), &whole.rect());
    let window = Window::of_part(input, whole, kind, r, part);
    fill(
        &window,
        pattern.sites(r),
        kind,
        rect.left as usize,
        rect.right as usize,
        out,
    );
}
