//! What makes a plane of a plane.

ghost use Rattle.std.specs.Prelude.{◌≡◌, ◌+◌, true, IfSome, IsNone, ◌↔◌};
ghost use Rattle.plane_view.specs.declared.Rect.{Rect};
ghost use Rattle.plane_view.specs.declared.Shape.{Shape};
ghost use Rattle.plane_view.specs.Plane.{Plane};
ghost use Rattle.plane_view.specs.Rectangles.{LiesIn};
ghost use Rattle.plane_view.specs.Shapes.{IsShape};
ghost use Rattle.plane_view.specs.Tiles.{loan, tile_rect, SameLoan};
ghost use Rattle.stage_core.specs.Planes.{IsPlane, IsPart};
ghost use Rattle.stage_core.specs.Stages.{Makes, IsLocal, AreAlike};

use crate::Steps;
use plane_view::{Rect, Shape, TileMut, View};
use std::sync::ledger::Ledger;

/// What makes a whole plane of a whole plane, and any rectangle of it from the part of the input that the rectangle
/// rests on. No call takes memory.
pub trait Stage: PartialEq + Drop {
    /// The plane that it makes of a plane.
    ghost apply: { Self → Plane → Plane };

    /// It takes planes of this shape.
    ghost takes: { Self → Shape → Type 0 };

    /// The shape of what it makes of a plane of this shape.
    ghost shaped: { Self → Shape → Shape };

    /// The rectangle of the input, which has this shape, that a rectangle of the output rests on.
    ghost needed: { Self → Shape → Rect → Rect };

    /// The shape of what it makes of a plane of this shape; `None` exactly where it refuses the shape.
    fn shape(&self, input: Shape) -> Option<Shape>
        requires { IsShape input }
        ensures none { IsNone result ↔ (takes self.now input → ⊥) }
        ensures some { IfSome result (λ made. takes self.now input × (made ≡ shaped self.now input)) };

    /// The rectangle of the input that `rect` rests on.
    fn need(&self, input: Shape, rect: Rect) -> Rect
        requires input { IsShape input }
        requires takes { takes self.now input }
        requires rect { IsPart rect (shaped self.now input) }
        ensures { result ≡ needed self.now input rect };

    /// Writes the rectangle of `out`, from a view that has what it rests on of a plane of shape `whole`, and counts one
    /// step.
    fn run<L: Ledger>(
        &self,
        input: &View<'_>,
        whole: Shape,
        out: &mut TileMut<'_>,
        work: &mut Steps<L>,
    )
        requires whole { IsShape whole }
        requires takes { takes self.now whole }
        requires rect { IsPart (tile_rect out.old) (shaped self.now whole) }
        requires need { LiesIn (needed self.now whole (tile_rect out.old)) input.now.rect }
        requires input { input.now.planes ≡ whole.planes }
        requires output { (loan out.old).planes ≡ (shaped self.now whole).planes }
        ensures loan { SameLoan out.old out.new }
        ensures made { Makes (apply self.now) whole input.now (needed self.now whole (tile_rect out.old)) out.new }
        ensures work { work.new ≡ work.old + 1 };

    /// What is made of a shape is a shape.
    ghost makes_shapes: { (s : Self) (input : Shape) → IsShape input → takes s input → IsShape (shaped s input) };

    /// What is made of a whole plane is a whole plane of that shape.
    ghost makes_planes: { (s : Self) (input : Shape) (P : Plane) → IsShape input → takes s input → IsPlane P input
        → IsPlane (apply s P) (shaped s input) };

    /// What a part rests on is a part of the input.
    ghost needs_part: { (s : Self) (input : Shape) (rect : Rect) → IsShape input → takes s input
        → IsPart rect (shaped s input) → IsPart (needed s input rect) input };

    /// What is made of planes that agree on what a part rests on agrees on the part.
    ghost local: { (s : Self) (input : Shape) (rect : Rect) → IsShape input → takes s input
        → IsPart rect (shaped s input) → IsLocal (apply s) input (needed s input rect) rect };

    /// Equal stages take the same shapes, and have the same shapes, needs and meanings.
    ghost equal_alike: { (s t : Self) → Self.eq s t ≡ true → AreAlike takes shaped needed apply s t };
}
