//! A colour matrix as a stage.

ghost use Rattle.std.specs.Prelude.{◌≡◌, ◌*◌, ◌<◌, ◌≤◌, List, ℤ, pos, neg_ℤ, ◌+ℤ◌, ◌*ℤ◌, ◌≤ℤ◌, unsigned_abs, All};
ghost use Rattle.std.specs.Prelude.{IsTrue, ◌↔◌, length};
ghost use Rattle.std.specs.Int.{int_div_euclid};
ghost use Rattle.plane_view.specs.Lent.{HasRowPart, sample_at};
ghost use Rattle.plane_view.specs.Rectangles.{width};
ghost use Rattle.plane_view.specs.Rows.{IsRowOf};
ghost use Rattle.colour_matrix.specs.Matrices.{IsEntry, IsForwardEntry, matrixed, matrixed_at, forward_matrix};
ghost use Rattle.colour_matrix.specs.Matrices.{camera_matrix};
ghost use Rattle.colour_matrix.specs.inner.MatrixRows.{AreRows, HaveDigits, product_with};

use crate::matrix_rows::{Rows, map_pixels};
use plane_view::{Rect, Shape, TileMut, View};
use stage_core::{Stage, Steps};
use std::marker::Model;
use std::sync::ledger::Ledger;

/// Maps each pixel by a matrix of 3 by 3. It refuses all but three planes. Contracts see the entries, row by row.
#[derive(Clone, Copy, Debug, PartialEq, Eq)]
pub struct Matrix {
    entries: [i32; 9],
}

impl Model for Matrix {
    ghost use Rattle.std.specs.Prelude.{List, ℤ, All};
    ghost use Rattle.colour_matrix.specs.Matrices.{IsEntry};

    ghost Value = { List ℤ };

    ghost view = { λ s. s.entries };

    ghost invariant = { λ s. All IsEntry s.entries };

    ghost inverse = { λ s. record { entries = s } };
}

/// Red of XYZ under D50, in 10000ths.
const RED_OF_XYZ: [i32; 3] = [31339, -16169, -4906];

/// Green of XYZ under D50, in 10000ths.
const GREEN_OF_XYZ: [i32; 3] = [-9788, 19161, 335];

/// Blue of XYZ under D50, in 10000ths.
const BLUE_OF_XYZ: [i32; 3] = [719, -2290, 14052];

/// An entry in 10000ths times one of a forward matrix.
fn term(weight: i32, entry: i32) -> i64
    requires weight { unsigned_abs weight ≤ 31339 }
    requires entry { IsForwardEntry entry }
    ensures value { result ≡ weight *ℤ entry }
    ensures low { neg_ℤ (pos 32861323264) ≤ℤ result }
    ensures high { result ≤ℤ pos 32861323264 }
{
    i64::from(weight) * i64::from(entry)
}

/// So many 10000ths, rounded to the nearest number, a half up.
fn rounded(sum: i64) -> i32
    requires low { neg_ℤ (pos 98583969792) ≤ℤ sum }
    requires high { sum ≤ℤ pos 98583969792 }
    ensures value { result ≡ int_div_euclid (sum +ℤ pos 5000) (pos 10000) }
    ensures entry { IsEntry result }
{
    (sum + 5000).div_euclid(10000) as i32
}

/// A row in 10000ths times a column of a forward matrix.
fn product(row: [i32; 3], f: &[i32; 9], column: usize) -> i32
    requires row { All (λ z. unsigned_abs z ≤ 31339) row }
    requires entries { All IsForwardEntry f.now }
    requires column { column < 3 }
    ensures value { result ≡ product_with row f.now column }
    ensures entry { IsEntry result }
{
    let first = term(row[0], f[column]);
    let second = term(row[1], f[3 + column]);
    let third = term(row[2], f[6 + column]);
    rounded(first + second + third)
}

impl Matrix {
    /// The matrix with these entries, row by row, in 65536ths, each within 2^24 of 0.
    pub fn new(c: [i32; 9]) -> Matrix
        requires { All IsEntry c }
        ensures { result ≡ c }
    {
        Matrix { entries: c }
    }

    /// The matrix from balanced samples to linear light of the primaries of IEC 61966-2-1 (sRGB), by a forward matrix
    /// (DNG 1.6, ForwardMatrix1) whose entries, row by row, are in 65536ths and within 2^20 of 0.
    pub fn forward(f: &[i32; 9]) -> Matrix
        requires { All IsForwardEntry f.now }
        ensures { result ≡ forward_matrix f.now }
    {
        Matrix {
            entries: [
                product(RED_OF_XYZ, f, 0),
                product(RED_OF_XYZ, f, 1),
                product(RED_OF_XYZ, f, 2),
                product(GREEN_OF_XYZ, f, 0),
                product(GREEN_OF_XYZ, f, 1),
                product(GREEN_OF_XYZ, f, 2),
                product(BLUE_OF_XYZ, f, 0),
                product(BLUE_OF_XYZ, f, 1),
                product(BLUE_OF_XYZ, f, 2),
            ],
        }
    }

    /// The matrix that leaves samples as they are.
    pub fn camera() -> Matrix
        ensures { result ≡ camera_matrix }
    {
        Matrix {
            entries: [65536, 0, 0, 0, 65536, 0, 0, 0, 65536],
        }
    }

    /// Whether two are equal, which is exactly where their nine entries are.
    pub fn is_same(&self, other: &Matrix) -> bool
        ensures { IsTrue result ↔ (self.now ≡ other.now) }
    {
        self == other
    }
}

/// Maps row `r` of a rectangle.
fn map_row(input: &View<'_>, rows: Rows, rect: Rect, r: u32, out: &mut [u16])
    requires row_part { HasRowPart input.now.rect r rect.left rect.right }
    requires planes { input.now.planes ≡ 3 }
    requires long { length out.old ≡ width rect * 3 }
    requires digits { HaveDigits rows }
    ensures { (c : List ℤ) → AreRows c rows → IsRowOf (matrixed_at c (sample_at input.now)) rect 3 r out.new }
{
    map_pixels(input.row_part(r, rect.left, rect.right), rows, out);
}

impl Stage for Matrix {
    ghost use Rattle.std.specs.Prelude.{◌≡◌};
    ghost use Rattle.stage_core.proofs.Formulas.{planes_by, local_by};
    ghost use Rattle.colour_matrix.specs.Matrices.{matrixed, matrixed_at};
    ghost use Rattle.colour_matrix.specs.Laws.{matrixed_rests};
    ghost use Rattle.colour_matrix.specs.Equal.{same_matrices};

    ghost apply = { λ s P. matrixed s P };

    ghost takes = { λ s input. input.planes ≡ 3 };

    ghost shaped = { λ s input. input };

    ghost needed = { λ s input rect. rect };

    fn shape(&self, input: Shape) -> Option<Shape> {
        if input.planes == 3 { Some(input) } else { None }
    }

    fn need(&self, _input: Shape, rect: Rect) -> Rect {
        rect
    }

    fn run<L: Ledger>(
        &self,
        input: &View<'_>,
        _whole: Shape,
        out: &mut TileMut<'_>,
        work: &mut Steps<L>,
    ) {
        work.tick();
        let rows = Rows::new(self.entries);
        let rect = out.rect();
        out.write_rows(|r, row| map_row(input, rows, rect, r, row));
    }

    ghost makes_shapes = { λ s input shape takes. shape };

    ghost makes_planes = { λ s input P shape takes is. planes_by (λ t. t) (λ t at. matrixed_at s at) input P is };

    ghost needs_part = { λ s input rect shape takes part. part };

    ghost local = { λ s input rect shape takes part. local_by (λ t. t) (λ t at. matrixed_at s at) input rect rect part
        (matrixed_rests s input.planes rect takes) };

    ghost equal_alike = { same_matrices };
}
