//! Rows of pixels that a matrix maps.

ghost use Rattle.std.specs.Prelude.{◌≡◌, ℕ, ◌+◌, ◌*◌, ◌/◌, ◌<◌, ◌≤◌, ◌^◌, ℤ, List, [], ◌∷◌, length, All};
ghost use Rattle.colour_matrix.specs.Matrices.{IsEntry};
ghost use Rattle.colour_matrix.specs.inner.MatrixRows.{IsRaised, IsRow, AreRows, AreDigits, HaveDigits, HasMatrixed};
ghost use Rattle.colour_matrix.specs.inner.MatrixRows.{product_of, with_pixel};

/// An entry of a matrix that was raised by 2^24, in two digits whose products with a sample have 32 bits: what is above
/// 14 bits, and the 14 lowest.
#[derive(Clone, Copy)]
struct Raised {
    high: u32,
    low: u32,
}

/// A row of a matrix.
#[derive(Clone, Copy)]
struct Row {
    red: Raised,
    green: Raised,
    blue: Raised,
}

/// The three rows of a matrix.
#[derive(Clone, Copy)]
pub(crate) struct Rows {
    red: Row,
    green: Row,
    blue: Row,
}

impl Raised {
    fn new(entry: i32) -> Raised
        requires { IsEntry entry }
        ensures { IsRaised entry result }
    {
        let raised = (entry + (1 << 24)) as u32;
        Raised {
            high: raised / (1 << 14),
            low: raised % (1 << 14),
        }
    }
}

/// The samples of a pixel.
#[derive(Clone, Copy)]
struct Pixel {
    red: u16,
    green: u16,
    blue: u16,
}

impl Row {
    fn new(red: i32, green: i32, blue: i32) -> Row
        requires red { IsEntry red }
        requires green { IsEntry green }
        requires blue { IsEntry blue }
        ensures row { IsRow red green blue result }
        ensures digits { AreDigits result }
    {
        Row {
            red: Raised::new(red),
            green: Raised::new(green),
            blue: Raised::new(blue),
        }
    }

    /// The row times a pixel, rounded and held within 0 and 65535.
    #[inline(always)]
    fn times(self, pixel: Pixel) -> u16
        requires { AreDigits self }
        ensures { (red green blue : ℤ) → IsRow red green blue self
            → result ≡ product_of red green blue pixel.red pixel.green pixel.blue }
    {
        let red = u32::from(pixel.red);
        let green = u32::from(pixel.green);
        let blue = u32::from(pixel.blue);
        let low = self.red.low * red + self.green.low * green + self.blue.low * blue + (1 << 15);
        let high = self.red.high * red + self.green.high * green + self.blue.high * blue;
        let raise = (1 << 10) * (red + green + blue);
        ((high + low / (1 << 14)).saturating_sub(raise) / 4).min(65535) as u16
    }
}

impl Rows {
    /// The rows of the matrix with these entries, row by row.
    pub(crate) fn new(c: [i32; 9]) -> Rows
        requires { All IsEntry c }
        ensures rows { AreRows c result }
        ensures digits { HaveDigits result }
    {
        Rows {
            red: Row::new(c[0], c[1], c[2]),
            green: Row::new(c[3], c[4], c[5]),
            blue: Row::new(c[6], c[7], c[8]),
        }
    }
}

/// Writes pixel `k` of a row.
#[inline(always)]
fn put(out: &mut [u16], k: usize, pixel: Pixel)
    requires { k * 3 + 3 ≤ length out.old }
    ensures { out.new ≡ with_pixel out.old k pixel.red pixel.green pixel.blue }
{
    let at = k * 3;
    out[at] = pixel.red;
    out[at + 1] = pixel.green;
    out[at + 2] = pixel.blue;
}

/// Maps each pixel of a row, the three planes of a pixel side by side.
pub(crate) fn map_pixels(from: &[u16], rows: Rows, out: &mut [u16])
    requires same { length from.now ≡ length out.old }
    requires digits { HaveDigits rows }
    ensures { (c : List ℤ) → AreRows c rows → HasMatrixed c from.now out.new (length from.now / 3) }
{
    for k in 0..out.len() / 3 {
        let at = k * 3;
        let pixel = Pixel {
            red: from[at],
            green: from[at + 1],
            blue: from[at + 2],
        };
        let red = rows.red.times(pixel);
        let green = rows.green.times(pixel);
        let blue = rows.blue.times(pixel);
        put(out, k, Pixel { red, green, blue });
    }
}
