//! White balance and exposure as a stage.

ghost use Rattle.std.specs.Prelude.{◌≡◌, ◌≤◌, ◌*◌, All, IsTrue, ◌↔◌, length};
ghost use Rattle.plane_view.specs.Lent.{HasRowPart, sample_at};
ghost use Rattle.plane_view.specs.Rectangles.{width};
ghost use Rattle.plane_view.specs.Rows.{IsRowOf};
ghost use Rattle.colour_matrix.specs.Balances.{Balancing, IsGain, balanced, balanced_at};
ghost use Rattle.colour_matrix.specs.inner.Factors.{AreFactors};

use crate::factors::{Factors, balance_samples};
use plane_view::{Rect, Shape, TileMut, View};
use stage_core::{Stage, Steps};
use std::marker::Model;
use std::sync::ledger::Ledger;

/// Multiplies each sample by the gain of its plane and by an exposure. It refuses all but three planes. Contracts see
/// the gains and the exposure.
#[derive(Clone, Copy, Debug, PartialEq, Eq)]
pub struct Balance {
    gains: [u32; 3],
    exposure: u32,
}

impl Model for Balance {
    ghost use Rattle.std.specs.Prelude.{◌≤◌, All};
    ghost use Rattle.colour_matrix.specs.Balances.{Balancing, IsGain};

    ghost Value = { Balancing };

    ghost view = { λ s. record { gains = s.gains; exposure = s.exposure } };

    ghost invariant = { λ s. All IsGain s.gains × (s.exposure ≤ 65536) };

    ghost inverse = { λ s. record { gains = s.gains; exposure = s.exposure } };
}

impl Balance {
    /// Gains of red, green and blue in 4096ths, from 1 to 2^20, and an exposure in 1024ths, from 0 to 65536.
    pub fn new(gains: [u32; 3], exposure: u32) -> Balance
        requires gains { All IsGain gains }
        requires exposure { exposure ≤ 65536 }
        ensures { result ≡ record { gains = gains; exposure = exposure } }
    {
        Balance { gains, exposure }
    }

    /// Whether two are equal, which is exactly where their gains and their exposures are.
    pub fn is_same(&self, other: &Balance) -> bool
        ensures { IsTrue result ↔ ((self.now.gains ≡ other.now.gains) × (self.now.exposure ≡ other.now.exposure)) }
    {
        self == other
    }
}

/// Balances row `r` of a rectangle.
fn balance_row(input: &View<'_>, factors: &Factors, rect: Rect, r: u32, out: &mut [u16])
    requires row_part { HasRowPart input.now.rect r rect.left rect.right }
    requires planes { input.now.planes ≡ 3 }
    requires long { length out.old ≡ width rect * 3 }
    ensures { (s : Balancing) → AreFactors s factors.now
        → IsRowOf (balanced_at s (sample_at input.now)) rect 3 r out.new }
{
    balance_samples(input.row_part(r, rect.left, rect.right), factors, out);
}

impl Stage for Balance {
    ghost use Rattle.std.specs.Prelude.{◌≡◌};
    ghost use Rattle.stage_core.proofs.Formulas.{planes_by, local_by};
    ghost use Rattle.colour_matrix.specs.Balances.{balanced, balanced_at};
    ghost use Rattle.colour_matrix.specs.Laws.{balanced_rests};
    ghost use Rattle.colour_matrix.specs.Equal.{same_balances};

    ghost apply = { λ s P. balanced s P };

    ghost takes = { λ s input. input.planes ≡ 3 };

    ghost shaped = { λ s input. input };

    ghost needed = { λ s input rect. rect };

    fn shape(&self, input: Shape) -> Option<Shape> {
        if input.planes == 3 { Some(input) } else { None }
    }

    fn need(&self, _input: Shape, rect: Rect) -> Rect {
        rect
    }

    fn run<L: Ledger>(
        &self,
        input: &View<'_>,
        _whole: Shape,
        out: &mut TileMut<'_>,
        work: &mut Steps<L>,
    ) {
        work.tick();
        let factors = Factors::new(self.gains, self.exposure);
        let rect = out.rect();
        out.write_rows(|r, row| balance_row(input, &factors, rect, r, row));
    }

    ghost makes_shapes = { λ s input shape takes. shape };

    ghost makes_planes = { λ s input P shape takes is. planes_by (λ t. t) (λ t at. balanced_at s at) input P is };

    ghost needs_part = { λ s input rect shape takes part. part };

    ghost local = { λ s input rect shape takes part. local_by (λ t. t) (λ t at. balanced_at s at) input rect rect part
        (balanced_rests s input.planes rect) };

    ghost equal_alike = { same_balances };
}
