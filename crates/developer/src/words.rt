//! The words of the command line.

ghost use Rattle.std.specs.Prelude.{◌≡◌, ◌^◌, ◌≤◌, ◌%◌, IfOk, IfSome, map, option_map, string_bytes};
ghost use Rattle.clap.specs.Words.{app_of};
ghost use Rattle.developer.specs.CommandLine.{named_words, rawdev};
ghost use Rattle.developer.specs.inner.Shown.{named_view, options_view};
ghost use Rattle.developer.specs.Words.{budget_of, cell_of, options};

use crate::options::Options;
use clap::error::ErrorKind;
use clap::{Arg, ArgAction, Command};
use dev_settings::number;
use std::alloc::{AllocError, Global};

/// The budget of samples where none is given, and the greatest.
const BUDGET: u32 = 1 << 28;

const MAX_BUDGET: u32 = 1 << 30;

/// The side of a cell where none is given, and the least and the greatest. Each is a multiple of the least.
const CELL: u32 = 128;

const MIN_CELL: u32 = 16;

const MAX_CELL: u32 = 512;

/// What the words name, as texts.
#[derive(Drop)]
struct Named<'a> {
    frame: &'a str,
    settings: Option<&'a str>,
    budget: Option<&'a str>,
    cell: Option<&'a str>,
}

/// What the words ask for; the first of them is the program's name. `None` where they aren't those of the usage line,
/// or a number isn't one that its limits allow.
///
/// # Errors
///
/// `AllocError` where there is no memory.
#[tactic(auto, unfolding(crate::specs::Words::options))]
pub(crate) fn read_words<'a>(
    alloc: Global,
    words: &'a [String],
) -> Result<Option<Options<'a>>, AllocError>
    ensures { IfOk result (λ r. options_view r ≡ options (map string_bytes words.entry.now)) }
{
    let Some(named) = texts_named(alloc, words)? else {
        return Ok(None);
    };
    let Some(budget) = budget(named.budget) else {
        return Ok(None);
    };
    let Some(cell) = cell_side(named.cell) else {
        return Ok(None);
    };
    Ok(Some(Options {
        frame: named.frame,
        settings: named.settings,
        budget,
        cell,
    }))
}

/// The texts that the words name, or `None` where the command refuses them.
fn texts_named<'a>(alloc: Global, words: &'a [String]) -> Result<Option<Named<'a>>, AllocError>
    ensures { IfOk result (λ r. named_view r ≡ named_words (map string_bytes words.entry.now)) }
{
    let command = command(alloc)?;
    let matches = match command.try_get_matches_from(words) {
        Ok(matches) => matches,
        Err(error) => {
            return match error.kind() {
                ErrorKind::OutOfMemory => Err(AllocError),
                _ => Ok(None),
            };
        }
    };
    let Some(frame) = matches.get_str("FRAME") else {
        return Ok(None);
    };
    Ok(Some(Named {
        frame,
        settings: matches.get_str("settings"),
        budget: matches.get_str("budget"),
        cell: matches.get_str("cell"),
    }))
}

/// The command `rawdev FRAME [--settings FILE] [--budget SAMPLES] [--cell N]`.
fn command<'a>(alloc: Global) -> Result<Command<'a>, AllocError>
    ensures { IfOk result (λ command. app_of command ≡ rawdev) }
{
    let frame = Arg::new(alloc, "FRAME")
        .required(true)
        .action(ArgAction::Set);
    let settings = Arg::new(alloc, "settings")
        .long("settings")
        .action(ArgAction::Set);
    let budget = Arg::new(alloc, "budget")
        .long("budget")
        .action(ArgAction::Set);
    let cell = Arg::new(alloc, "cell").long("cell").action(ArgAction::Set);
    let command = Command::new(alloc, "rawdev")
        .arg(frame)?
        .arg(settings)?
        .arg(budget)?
        .arg(cell)?;
    Ok(command)
}

/// A budget of samples.
fn budget(text: Option<&str>) -> Option<u32>
    ensures budget { result ≡ budget_of (option_map (λ text. text.now) text.entry) }
    ensures few { IfSome result (λ samples. samples ≤ 2 ^ 30) }
{
    let Some(text) = text else {
        return Some(BUDGET);
    };
    let samples = number(text.as_bytes())?;
    if samples <= MAX_BUDGET {
        Some(samples)
    } else {
        None
    }
}

/// The side of a cell.
fn cell_side(text: Option<&str>) -> Option<u32>
    ensures side { result ≡ cell_of (option_map (λ text. text.now) text.entry) }
    ensures least { IfSome result (λ side. 16 ≤ side) }
    ensures most { IfSome result (λ side. side ≤ 512) }
    ensures multiple { IfSome result (λ side. side % 16 ≡ 0) }
{
    let Some(text) = text else {
        return Some(CELL);
    };
    let side = number(text.as_bytes())?;
    if MIN_CELL <= side && side <= MAX_CELL && side % MIN_CELL == 0 {
        Some(side)
    } else {
        None
    }
}
