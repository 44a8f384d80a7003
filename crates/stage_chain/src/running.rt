//! Stages that run one after the other.

ghost use Rattle.std.specs.Prelude.{◌≡◌, ◌+◌, ◌≤◌, length, IfOk, OnOk};
ghost use Rattle.plane_view.specs.Shapes.{IsShape};
ghost use Rattle.stage_core.specs.Stages.{shape_of};
ghost use Rattle.stage_chain.specs.Chains.{TakeInTurn, whole_of};
ghost use Rattle.stage_chain.specs.inner.Samples.{plane_with, sample_count};

use crate::whole_plane::{WholePlane, sample_count};
use plane_view::{Shape, TileMut, View};
use stage_core::{Stage, Steps};
use std::alloc::AllocError;
use std::sync::ledger::Ledger;

/// Runs a stage over a whole plane, from its samples into those of what the stage makes of it.
fn run_whole<S: Stage, L: Ledger>(
    stage: &S,
    input: &[u16],
    whole: Shape,
    out: &mut [u16],
    made: Shape,
    work: &mut Steps<L>,
)
    requires whole { IsShape whole }
    requires takes { S.takes stage.now whole }
    requires made { made ≡ S.shaped stage.now whole }
    requires input { length input.now ≡ sample_count whole }
    requires output { length out.old ≡ sample_count made }
    ensures samples { out.new ≡ (S.apply stage.now (plane_with whole input.now)).samples }
    ensures work { work.new ≡ work.old + 1 }
{
    let view = View::new(whole.rect(), whole.planes, input);
    let mut tile = TileMut::new(made.rect(), made.planes, out);
    stage.run(&view, whole, &mut tile, work);
}

/// What a stage makes of a whole plane, in this memory, which grows where it is too short.
fn make<S: Stage, L: Ledger>(
    stage: &S,
    plane: &WholePlane,
    mut memory: Vec<u16>,
    work: &mut Steps<L>,
) -> Result<WholePlane, AllocError>
    requires { S.takes stage.now (shape_of plane.now) }
    ensures made { IfOk result (λ made. made ≡ S.apply stage.now plane.now) }
    ensures shape { IfOk result (λ made. shape_of made ≡ S.shaped stage.now (shape_of plane.now)) }
    ensures work { OnOk result (work.new ≡ work.old + 1) }
{
    let whole = plane.shape();
    let Some(shape) = stage.shape(whole) else {
        unreachable!();
    };
    memory.resize(sample_count(shape), 0)?;
    run_whole(stage, &plane.samples, whole, &mut memory, shape, work);
    Ok(WholePlane {
        shape,
        samples: memory,
    })
}

/// Runs stages one after the other, each once over the whole plane that the one before made, into two memories that
/// they use in turn.
///
/// # Errors
///
/// Where there is no memory.
pub fn run_in_turn<S: Stage, L: Ledger>(
    stages: &[S],
    plane: WholePlane,
    spare: Vec<u16>,
    work: &mut Steps<L>,
) -> Result<WholePlane, AllocError>
    requires { TakeInTurn S.takes S.shaped stages.now (shape_of plane) }
    ensures made { IfOk result (λ made. made ≡ whole_of S.apply stages.now plane) }
    ensures work { OnOk result (work.new ≡ work.old + length stages.now) }
{
    let mut plane = plane;
    let mut spare = spare;
    for stage in stages {
        let made = make(stage, &plane, spare, work)?;
        spare = plane.samples;
        plane = made;
    }
    Ok(plane)
}
