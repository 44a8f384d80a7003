//! The stages that a frame takes under settings, and the one that a change of settings touches.

ghost use Rattle.std.specs.Prelude.{◌≡◌, ◌≢◌, [], ◌∷◌, ◌++◌, Ok, Err, IfErr, IfOk};
ghost use Rattle.dev_settings.specs.Ranges.{SettingsInRange};
ghost use Rattle.stage_chain.specs.Chains.{TakeInTurn};
ghost use Rattle.dev_stages.specs.Changes.{Refuses, Replaces, linear_or, matrix_or, number_of, touched};
ghost use Rattle.dev_stages.specs.Listed.{listed};
ghost use Rattle.dev_stages.specs.Members.{shaped_of, takes_of};
ghost use Rattle.dng_tags.specs.Facts.{IsPlannable};
ghost use Rattle.dev_stages.specs.Plans.{balance_stage, chosen_matrix, demosaic_stage, planned, tone_stage};

use crate::listed::{moved, push_listed, stage_count};
use crate::matrices::chosen_matrix;
use crate::{DevStage, PlanFault};
use colour_matrix::Balance;
use dev_settings::{Change, Settings};
use dng_tags::Frame;
use linearise::Linearise;
use malvar::Demosaic;
use opcode_stages::Crop;
use std::alloc::{AllocError, Global};
use tone_table::Tone;

/// How the raw values of a frame become linear.
#[tactic(auto, using(crate::proofs::PlanLemmas::linear_so, crate::proofs::PlanLemmas::small_area))]
fn linear_stage(alloc: Global, frame: &Frame, settings: &Settings) -> Result<DevStage, PlanFault>
    requires { IsPlannable frame.now }
    ensures stage { IfOk result (λ stage. linear_or frame.now settings.now ≡ Ok stage) }
    ensures fault { IfErr result (λ fault. fault ≢ PlanFault.Memory → linear_or frame.now settings.now ≡ Err fault) }
{
    let linear = Linearise::new(
        alloc,
        &frame.levels,
        frame.active,
        settings.black,
        settings.white,
    )?;
    Ok(DevStage::Linearise(linear))
}

/// How the colours that a frame's pixels lack are found. The trims of list 2 move the pattern.
fn demosaic_stage(frame: &Frame, settings: &Settings) -> DevStage
    requires { IsPlannable frame.now }
    ensures { result ≡ demosaic_stage frame.now settings.now }
{
    let cfa = moved(frame.list2.as_slice(), frame.cfa);
    DevStage::Demosaic(Demosaic::new(settings.demosaic, cfa))
}

/// White balance and exposure.
fn balance_stage(frame: &Frame, settings: &Settings) -> DevStage
    requires frame { IsPlannable frame.now }
    requires settings { SettingsInRange settings.now }
    ensures { result ≡ balance_stage frame.now settings.now }
{
    let gains = settings.wb.unwrap_or(frame.colour.gains);
    DevStage::Balance(Balance::new(gains, settings.exposure))
}

/// The matrix that the settings name.
fn matrix_stage(frame: &Frame, settings: &Settings) -> Result<DevStage, PlanFault>
    requires frame { IsPlannable frame.now }
    requires settings { SettingsInRange settings.now }
    ensures stage { IfOk result (λ stage. matrix_or (chosen_matrix frame.now.colour settings.now.matrix) ≡ Ok stage) }
    ensures fault { IfErr result (λ fault. matrix_or (chosen_matrix frame.now.colour settings.now.matrix) ≡ Err fault) }
{
    match chosen_matrix(&frame.colour, &settings.matrix) {
        Some(matrix) => Ok(DevStage::Matrix(matrix)),
        None => Err(PlanFault::Matrix),
    }
}

/// The tone curve.
fn tone_stage(alloc: Global, settings: &Settings) -> Result<DevStage, AllocError>
    ensures { IfOk result (λ stage. stage ≡ tone_stage settings.now) }
{
    Ok(DevStage::Tone(Tone::new(alloc, &settings.tone)?))
}

/// The stages up to list 2.
fn raw_stages(alloc: Global, frame: &Frame, linear: DevStage) -> Result<Vec<DevStage>, AllocError>
    requires { IsPlannable frame.now }
    ensures { IfOk result (λ stages. stages.items ≡ listed frame.now.list1
        ++ (DevStage.Crop (record { rect = frame.now.active }) ∷ linear ∷ listed frame.now.list2)) }
{
    let mut stages = Vec::new(alloc);
    push_listed(alloc, frame.list1.as_slice(), &mut stages)?;
    stages.push(DevStage::Crop(Crop::new(frame.active)))?;
    stages.push(linear)?;
    push_listed(alloc, frame.list2.as_slice(), &mut stages)?;
    Ok(stages)
}

/// Appends the stages from demosaicing to the default crop.
fn push_coloured(
    alloc: Global,
    frame: &Frame,
    settings: &Settings,
    stages: &mut Vec<DevStage>,
) -> Result<(), AllocError>
    requires { IsPlannable frame.now }
    ensures { IfOk result (λ _. stages.new.items ≡ stages.old.items
        ++ (demosaic_stage frame.now settings.now ∷ (listed frame.now.list3
        ++ (DevStage.Crop (record { rect = frame.now.crop }) ∷ [])))) }
{
    stages.push(demosaic_stage(frame, settings))?;
    push_listed(alloc, frame.list3.as_slice(), stages)?;
    stages.push(DevStage::Crop(Crop::new(frame.crop)))?;
    Ok(())
}

/// Appends the stages of colours: balance, matrix, tone.
fn push_last(
    alloc: Global,
    frame: &Frame,
    settings: &Settings,
    matrix: DevStage,
    stages: &mut Vec<DevStage>,
) -> Result<(), AllocError>
    requires frame { IsPlannable frame.now }
    requires settings { SettingsInRange settings.now }
    ensures { IfOk result (λ _. stages.new.items ≡ stages.old.items
        ++ (balance_stage frame.now settings.now ∷ matrix ∷ tone_stage settings.now ∷ [])) }
{
    stages.push(balance_stage(frame, settings))?;
    stages.push(matrix)?;
    stages.push(tone_stage(alloc, settings)?)?;
    Ok(())
}

/// The stages of a frame under settings, in their order: list 1, the crop to the active area, linear values, list 2,
/// demosaicing, list 3, the default crop, balance, matrix, tone. Opcodes that are passed over have none.
///
/// # Errors
///
/// `Matrix` exactly where the settings name a forward matrix that the frame doesn't have; else `Levels` exactly where
/// the white level isn't above the greatest black level under them; `Memory` where there was none.
pub fn plan(alloc: Global, frame: &Frame, settings: &Settings) -> Result<Vec<DevStage>, PlanFault>
    requires frame { IsPlannable frame.now }
    requires settings { SettingsInRange settings.now }
    ensures stages { IfOk result (λ stages. planned frame.now settings.now ≡ Ok stages.items) }
    ensures chain { IfOk result (λ stages. TakeInTurn takes_of shaped_of stages.items frame.now.shape) }
    ensures fault { IfErr result (λ fault. fault ≢ PlanFault.Memory → planned frame.now settings.now ≡ Err fault) }
{
    let matrix = matrix_stage(frame, settings)?;
    let linear = linear_stage(alloc, frame, settings)?;
    let mut stages = raw_stages(alloc, frame, linear)?;
    push_coloured(alloc, frame, settings, &mut stages)?;
    push_last(alloc, frame, settings, matrix, &mut stages)?;
    Ok(stages)
}

/// The number, counted from 1, of the stage that a change touches.
fn number_of(frame: &Frame, change: &Change) -> u32
    requires { IsPlannable frame.now }
    ensures { result ≡ number_of frame.now change.now }
{
    let first = stage_count(frame.list1.as_slice());
    let second = stage_count(frame.list2.as_slice());
    let third = stage_count(frame.list3.as_slice());
    match change {
        Change::Black(_) | Change::White(_) => first + 2,
        Change::Demosaic(_) => first + second + 3,
        Change::Wb(_) | Change::Exposure(_) => first + second + third + 5,
        Change::Matrix(_) => first + second + third + 6,
        Change::Tone(_) => first + second + third + 7,
    }
}

/// The stage that a change touches, under settings that have it.
fn touched(
    alloc: Global,
    frame: &Frame,
    settings: &Settings,
    change: &Change,
) -> Result<DevStage, PlanFault>
    requires frame { IsPlannable frame.now }
    requires settings { SettingsInRange settings.now }
    ensures stage { IfOk result (λ stage. touched frame.now settings.now change.now ≡ Ok stage) }
    ensures fault { IfErr result (λ fault. fault ≢ PlanFault.Memory
        → touched frame.now settings.now change.now ≡ Err fault) }
{
    match change {
        Change::Black(_) | Change::White(_) => linear_stage(alloc, frame, settings),
        Change::Demosaic(_) => Ok(demosaic_stage(frame, settings)),
        Change::Wb(_) | Change::Exposure(_) => Ok(balance_stage(frame, settings)),
        Change::Matrix(_) => matrix_stage(frame, settings),
        Change::Tone(_) => Ok(tone_stage(alloc, settings)?),
    }
}

/// The one stage that a change touches, with its number, counted from 1 among the stages that `plan` gives, under
/// settings that already have the change. All other stages stay as they were before it.
///
/// # Errors
///
/// For a change of the matrix, `Matrix` exactly where it names a forward matrix that the frame doesn't have; for one of
/// black or white, `Levels` exactly where the white level isn't above the greatest black level under the settings;
/// `Memory` where there was none.
pub fn stage_of(
    alloc: Global,
    frame: &Frame,
    settings: &Settings,
    change: &Change,
) -> Result<(u32, DevStage), PlanFault>
    requires frame { IsPlannable frame.now }
    requires settings { SettingsInRange settings.now }
    ensures number { IfOk result (λ made. made.0 ≡ number_of frame.now change.now) }
    ensures stage { IfOk result (λ made. touched frame.now settings.now change.now ≡ Ok made.1) }
    ensures replaces { IfOk result (λ made. Replaces frame.now change.now settings.now made.0 made.1) }
    ensures fault { IfErr result (λ fault. fault ≢ PlanFault.Memory
        → touched frame.now settings.now change.now ≡ Err fault) }
    ensures refuses { IfErr result (λ fault. fault ≢ PlanFault.Memory
        → Refuses frame.now change.now settings.now fault) }
{
    let stage = touched(alloc, frame, settings, change)?;
    Ok((number_of(frame, change), stage))
}
