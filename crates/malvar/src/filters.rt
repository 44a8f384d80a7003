//! The filters of each kind, on sums of samples round one pixel: those of Malvar, He and Cutler (2004, figure 2), and
//! means of the nearest samples.

ghost use Rattle.std.specs.Prelude.{◌≡◌, ◌<◌, ◌^◌, pos, ◌-ℤ◌};
ghost use Rattle.malvar.specs.Demosaic.{rounded, table_of};

use crate::Kind;

/// The samples round a pixel, summed by where they stand.
#[derive(Clone, Copy)]
pub(crate) struct Around {
    pub(crate) centre: u32,
    /// Left and right.
    pub(crate) horizontal: u32,
    /// Up and down.
    pub(crate) vertical: u32,
    /// The four diagonal ones.
    pub(crate) diagonal: u32,
    /// Left and right, as far away as the filters reach.
    pub(crate) horizontal_far: u32,
    /// Up and down, as far away as the filters reach.
    pub(crate) vertical_far: u32,
}

/// What a pixel's own colour is, and which colour stands left and right of it.
#[derive(Clone, Copy)]
pub(crate) enum Site {
    Red,
    GreenByRed,
    GreenByBlue,
    Blue,
}

/// The two kinds of sites in a row, that of the even columns first.
#[derive(Clone, Copy)]
pub(crate) enum RowSites {
    RedGreen,
    GreenRed,
    GreenBlue,
    BlueGreen,
}

/// The difference of two sums of sixteenths as a sample.
#[inline(always)]
fn scaled(plus: u32, minus: u32) -> u16
    requires { plus < 2 ^ 24 }
    ensures { result ≡ rounded (pos plus -ℤ pos minus) }
{
    ((plus + 8).saturating_sub(minus) / 16).min(65535) as u16
}

impl Around {
    ghost use Rattle.malvar.specs.inner.Around.{IsAround, weighted};

    /// Green at red or blue.
    #[inline(always)]
    fn green(self, kind: Kind) -> u16
        requires { IsAround self }
        ensures { result ≡ rounded (weighted (table_of kind).green self) }
    {
        match kind {
            Kind::Malvar => scaled(
                8 * self.centre + 4 * (self.horizontal + self.vertical),
                2 * (self.horizontal_far + self.vertical_far),
            ),
            Kind::Bilinear => scaled(4 * (self.horizontal + self.vertical), 0),
        }
    }

    /// Red or blue at green, that colour left and right.
    #[inline(always)]
    fn in_row(self, kind: Kind) -> u16
        requires { IsAround self }
        ensures { result ≡ rounded (weighted (table_of kind).in_row self) }
    {
        match kind {
            Kind::Malvar => scaled(
                10 * self.centre + 8 * self.horizontal + self.vertical_far,
                2 * (self.diagonal + self.horizontal_far),
            ),
            Kind::Bilinear => scaled(8 * self.horizontal, 0),
        }
    }

    /// Red or blue at green, that colour up and down.
    #[inline(always)]
    fn in_column(self, kind: Kind) -> u16
        requires { IsAround self }
        ensures { result ≡ rounded (weighted (table_of kind).in_column self) }
    {
        match kind {
            Kind::Malvar => scaled(
                10 * self.centre + 8 * self.vertical + self.horizontal_far,
                2 * (self.diagonal + self.vertical_far),
            ),
            Kind::Bilinear => scaled(8 * self.vertical, 0),
        }
    }

    /// Red at blue, blue at red.
    #[inline(always)]
    fn opposite(self, kind: Kind) -> u16
        requires { IsAround self }
        ensures { result ≡ rounded (weighted (table_of kind).opposite self) }
    {
        match kind {
            Kind::Malvar => scaled(
                12 * self.centre + 4 * self.diagonal,
                3 * (self.horizontal_far + self.vertical_far),
            ),
            Kind::Bilinear => scaled(4 * self.diagonal, 0),
        }
    }
}

impl Site {
    ghost use Rattle.malvar.specs.inner.Around.{IsAround, IsPixel, sample_by, own_colour, next_colour};

    /// Red, green and blue of a pixel.
    #[inline(always)]
    pub(crate) fn pixel(self, kind: Kind, around: Around) -> [u16; 3]
        requires { IsAround around }
        ensures { IsPixel (sample_by (table_of kind) (own_colour self) (next_colour self) around) result }
    {
        let own = around.centre as u16;
        match self {
            Site::Red => [own, around.green(kind), around.opposite(kind)],
            Site::GreenByRed => [around.in_row(kind), own, around.in_column(kind)],
            Site::GreenByBlue => [around.in_column(kind), own, around.in_row(kind)],
            Site::Blue => [around.opposite(kind), around.green(kind), own],
        }
    }
}

impl RowSites {
    ghost use Rattle.malvar.specs.inner.Around.{even_site, odd_site, site_at};

    /// The site of column `c`.
    pub(crate) fn site(self, c: usize) -> Site
        ensures { result ≡ site_at (even_site self) (odd_site self) c }
    {
        let even = c % 2 == 0;
        match self {
            RowSites::RedGreen if even => Site::Red,
            RowSites::RedGreen => Site::GreenByRed,
            RowSites::GreenRed if even => Site::GreenByRed,
            RowSites::GreenRed => Site::Red,
            RowSites::GreenBlue if even => Site::GreenByBlue,
            RowSites::GreenBlue => Site::Blue,
            RowSites::BlueGreen if even => Site::Blue,
            RowSites::BlueGreen => Site::GreenByBlue,
        }
    }
}
