//! Changes of settings, and of the stage that each touches.

ghost use Rattle.std.specs.Prelude.{◌≡◌, ◌≢◌, ◌+◌, ◌^◌, ◌<◌, ◌≤◌, IfErr, OnErr, OnOk};
ghost use Rattle.dev_settings.specs.Ranges.{ChangeInRange};
ghost use Rattle.developer.specs.Develop.{IsInForce};
ghost use Rattle.developer.specs.Replies.{done, no_stages, replied, set_answer};
ghost use Rattle.developer.specs.Sessions.{in_force};

use dev_settings::{Change, Settings};
use dev_stages::{DevStage, PlanFault, stage_of};
use dng_tags::Frame;
use region_session::Session;
use stage_core::Base;
use std::alloc::Global;

/// Makes a change of the settings: the one stage that it touches is made anew, and only then are settings and session
/// changed.
///
/// # Errors
///
/// Where the frame has no stages under the changed settings; `Memory` where there was none. Then nothing changes.
pub(crate) fn make_change<B: Base>(
    alloc: Global,
    frame: &Frame,
    settings: &mut Settings,
    session: &mut Session<B, DevStage>,
    change: &Change,
) -> Result<(), PlanFault>
    requires in_force { IsInForce (in_force frame.now settings.old session.old) }
    requires in_range { ChangeInRange change.now }
    requires few { session.old.stamps.changes < 2 ^ 40 }
    ensures made { OnOk result (set_answer (in_force frame.now settings.old session.old) change.now
        ≡ record { bytes = done; state = in_force frame.now settings.new session.new }) }
    ensures fault { IfErr result (λ fault. fault ≢ PlanFault.Memory
        → set_answer (in_force frame.now settings.old session.old) change.now
        ≡ replied (in_force frame.now settings.old session.old) (no_stages fault)) }
    ensures in_force { IsInForce (in_force frame.now settings.new session.new) }
    ensures few { session.new.stamps.changes ≤ session.old.stamps.changes + 1 }
    ensures same_settings { OnErr result (settings.new ≡ settings.old) }
    ensures same_session { OnErr result (session.new ≡ session.old) }
{
    let mut changed = *settings;
    changed.apply(change);
    let (number, stage) = stage_of(alloc, frame, &changed, change)?;
    match session.replace(number, stage) {
        Ok(()) => {}
        Err(_) => unreachable!(),
    }
    *settings = changed;
    Ok(())
}
