//! A base and stages that count their calls and the samples that they write.

ghost use Rattle.std.specs.Prelude.{◌≡◌, ◌*◌, ◌-◌, ◌^◌, ◌≤◌, ◌%◌, length, IfOk};
ghost use Rattle.plane_view.specs.Shapes.{IsShape};

use plane_view::{Rect, Shape, TileMut, View};
use region_session::{OpenFault, Session, ShapeChanged};
use stage_core::{Base, Stage, Steps};
use std::alloc::{AllocError, Global};
use std::cell::Cell;
use std::sync::ledger::Ledger;

/// What a base or a stage did: its calls, and the samples that it wrote.
#[derive(Drop)]
pub struct Done {
    calls: Cell<u64>,
    samples: Cell<u64>,
}

impl Done {
    /// No call and no sample.
    pub fn new() -> Done {
        Done {
            calls: Cell::new(0),
            samples: Cell::new(0),
        }
    }

    /// How many calls there were, and how many samples they wrote.
    pub fn counts(&self) -> [u64; 2] {
        [self.calls.get(), self.samples.get()]
    }

    fn add(&self, rect: Rect, planes: u32) {
        self.calls.set(self.calls.get().saturating_add(1));
        let samples = rect.area().saturating_mul(u64::from(planes));
        self.samples.set(self.samples.get().saturating_add(samples));
    }
}

/// Makes the plane that it is given, and asks for some pixels more on each side. It refuses planes of more than so many
/// rows.
#[derive(Drop)]
#[derive_where(PartialEq)]
pub struct Near<'a> {
    pub by: u32,
    pub most: u32,
    #[derive_where(skip)]
    pub done: &'a Done,
}

impl<'a> Stage for Near<'a> {
    ghost use Rattle.std.specs.Prelude.{◌≤◌, refl};
    ghost use Rattle.session_tests.specs.Examples.{margin, margin_local, margin_part, same_margin, same_most};

    ghost apply = { λ _ P. P };

    ghost takes = { λ s input. input.rows ≤ s.most };

    ghost shaped = { λ _ input. input };

    ghost needed = { λ s input rect. margin s.by input rect };

    fn shape(&self, input: Shape) -> Option<Shape> {
        if input.rows <= self.most {
            Some(input)
        } else {
            None
        }
    }

    fn need(&self, input: Shape, rect: Rect) -> Rect {
        rect.grow(self.by, &input.rect())
    }

    fn run<L: Ledger>(
        &self,
        input: &View<'_>,
        _whole: Shape,
        out: &mut TileMut<'_>,
        work: &mut Steps<L>,
    ) {
        self.done.add(out.rect(), out.planes());
        out.copy_from(input);
        work.tick();
    }

    ghost makes_shapes = { λ _ input is takes. is };

    ghost makes_planes = { λ _ input P shape takes is. is };

    ghost needs_part = { λ s input rect is takes part. margin_part s.by input rect part };

    ghost local = { λ s input rect is takes part. margin_local s.by input rect part };

    ghost equal_alike = { λ s t same. record {
      inputs = λ input takes. same_most s.by t.by s.most t.most input.rows same takes;
      shapes = λ input. refl;
      needs = λ input rect. same_margin s.by t.by s.most t.most input rect same;
      meanings = λ P. refl;
    } };
}

/// A plane that is one cell.
#[derive(Drop)]
pub struct Whole<'a> {
    shape: Shape,
    samples: Vec<u16>,
    fetched: u64,
    done: &'a Done,
    ghost limits: { IsShape shape },
    ghost long: { length samples.items ≡ shape.rows * shape.cols * shape.planes },
    ghost held: { fetched ≤ 2 ^ 64 - 1 },
}

impl<'a> Base for Whole<'a> {
    ghost use Rattle.std.specs.Prelude.{[], ◌∷◌};
    ghost use Rattle.plane_view.specs.Rectangles.{whole_rect};

    ghost plane = { λ b. record {
      rows = b.shape.rows;
      cols = b.shape.cols;
      planes = b.shape.planes;
      samples = b.samples.items;
    } };

    ghost cells_of = { λ b. whole_rect b.shape.rows b.shape.cols ∷ [] };

    ghost fetches = { λ b. b.fetched };

    ghost held = { λ b. b.held };

    fn shape(&self) -> Shape {
        self.shape
    }

    fn cells(&self) -> u32 {
        1
    }

    fn cell(&self, _k: u32) -> Rect {
        self.shape.rect()
    }

    fn fetch<L: Ledger>(&mut self, _k: u32, out: &mut TileMut<'_>, work: &mut Steps<L>) {
        self.done.add(out.rect(), out.planes());
        out.copy_from(&View::new(self.shape.rect(), self.shape.planes, &self.samples));
        self.fetched = self.fetched.saturating_add(1);
        work.tick();
    }
}

/// Makes a rectangle of the last plane, where it has pixels and the samples have room.
pub fn make_rect<B: Base, S: Stage, L: Ledger>(
    session: &mut Session<B, S>,
    rect: Rect,
    out: &mut [u16],
    work: &mut Steps<L>,
) -> Result<(), AllocError>
    ensures stages { session.new.stages ≡ session.old.stages }
    ensures stamps { session.new.stamps ≡ session.old.stamps }
{
    let shape = session.shape();
    let rows = rect.top < rect.bottom && rect.bottom <= shape.rows;
    let cols = rect.left < rect.right && rect.right <= shape.cols;
    if rows && cols {
        let count = rect.area() as usize * shape.planes as usize;
        if let Some(samples) = out.get_mut(..count) {
            session.band(rect, samples, work)?;
        }
    }
    Ok(())
}

/// Makes some rows of the last plane.
pub fn make_rows<B: Base, S: Stage, L: Ledger>(
    session: &mut Session<B, S>,
    top: u32,
    bottom: u32,
    out: &mut [u16],
    work: &mut Steps<L>,
) -> Result<(), AllocError>
    ensures stages { session.new.stages ≡ session.old.stages }
    ensures stamps { session.new.stamps ≡ session.old.stamps }
{
    let right = session.shape().cols;
    let rect = Rect {
        top,
        left: 0,
        bottom,
        right,
    };
    make_rect(session, rect, out, work)
}

/// The numbers from 0 up.
pub fn numbers(alloc: Global, count: usize) -> Result<Vec<u16>, AllocError>
    ensures { IfOk result (λ numbers. length numbers.items ≡ count) }
{
    let mut numbers = vec![in alloc; 0u16; count]?;
    for i in 0..count {
        numbers[i] = (i % 65536) as u16;
    }
    Ok(numbers)
}

/// A base of so many rows and columns, whose samples are the numbers from 0 up.
pub fn numbered<'a>(
    alloc: Global,
    rows: u32,
    cols: u32,
    done: &'a Done,
) -> Result<Whole<'a>, AllocError>
    requires some_rows { 1 ≤ rows }
    requires rows { rows ≤ 40 }
    requires some_cols { 1 ≤ cols }
    requires cols { cols ≤ 48 }
{
    Ok(Whole {
        shape: Shape {
            rows,
            cols,
            planes: 1,
        },
        samples: numbers(alloc, rows as usize * cols as usize)?,
        fetched: 0,
        done,
    })
}

/// A session of seven stages over a plane, of which the fifth takes so many rows. The third stage looks two pixels
/// round itself.
pub fn open<'a>(
    alloc: Global,
    rows: u32,
    cols: u32,
    side: u32,
    budget: u64,
    most: u32,
    done: &'a [Done; 3],
) -> Result<Session<Whole<'a>, Near<'a>>, OpenFault>
    requires some_rows { 1 ≤ rows }
    requires rows { rows ≤ 40 }
    requires some_cols { 1 ≤ cols }
    requires cols { cols ≤ 48 }
    requires least { 16 ≤ side }
    requires most { side ≤ 512 }
    requires multiple { side % 16 ≡ 0 }
    requires budget { budget ≤ 2 ^ 30 }
    ensures stages { IfOk result (λ session. length session.stages ≡ 7) }
    ensures changes { IfOk result (λ session. session.stamps.changes ≡ 0) }
{
    let [source, lower, upper] = done;
    let base = numbered(alloc, rows, cols, source)?;
    let mut stages = Vec::new(alloc);
    for k in 0..7u32 {
        let stage = Near {
            by: if k == 2 { 2 } else { 0 },
            most: if k == 4 { most } else { 40 },
            done: if k < 2 { lower } else { upper },
        };
        let Ok(()) = stages.push(stage) else {
            return Err(OpenFault::Memory);
        };
    }
    Session::open(alloc, base, stages, side, budget)
}

/// Puts a stage in the place of stage `k` of seven.
pub fn put<'a>(
    session: &mut Session<Whole<'a>, Near<'a>>,
    k: u32,
    stage: Near<'a>,
) -> Option<Result<(), ShapeChanged>>
    requires least { 1 ≤ k }
    requires last { k ≤ 7 }
    requires stages { length session.old.stages ≡ 7 }
    ensures stages { length session.new.stages ≡ 7 }
{
    if session.changes() < 1 << 40 {
        Some(session.replace(k, stage))
    } else {
        None
    }
}
