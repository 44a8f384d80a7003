//! The settings file of a run.

ghost use Rattle.std.specs.Prelude.{◌≡◌, ◌+◌, ◌≤◌, ℕ, List, ◌++◌, [], IfOk, Ok, length, option_map};
ghost use Rattle.std.specs.List.{list_all};
ghost use Rattle.dng_tags.specs.Facts.{IsFrame, IsPlannable};
ghost use Rattle.dev_settings.specs.Settings.{standard_settings};
ghost use Rattle.developer.specs.SettingsFile.{file_settings, is_letter, is_plain, refusal_text, settings_line};
ghost use Rattle.developer.specs.SettingsFile.{shown_name};
ghost use Rattle.developer.specs.inner.Planning.{IsPlanned, Plans, PlansUnder, ReadsSettings, seen};

use dev_settings::{Settings, SettingsFault};
use dev_stages::{DevStage, PlanFault, plan};
use dng_tags::Frame;
use raw_io::{Files, ReadFault, read_all};
use std::alloc::Global;
use text_line::Line;

/// The longest settings file, in bytes.
const MAX_SETTINGS: u64 = 65_536;

/// The longest name of a key that is printed.
const MAX_NAME: usize = 64;

/// Settings, and the stages of a frame under them.
#[derive(Drop)]
pub(crate) struct Planned {
    pub settings: Settings,
    pub stages: Vec<DevStage>,
}

/// Why a settings file is refused.
#[derive(Debug, Drop)]
pub(crate) enum SettingsRefusal {
    /// It has more than 65,536 bytes.
    TooLong,
    /// It is no TOML document.
    NotToml,
    /// It has a key that isn't known.
    Key { name: String },
    /// A key has a wrong value.
    Value { name: String },
    /// It names a forward matrix that the frame hasn't.
    Matrix,
    /// Under it the white level isn't above the greatest black level.
    Levels,
}

/// Why a settings file gives no stages.
#[derive(Debug, Drop)]
pub(crate) enum SettingsStop {
    /// It is refused.
    Refused(SettingsRefusal),
    /// A read of it failed.
    Unread,
    /// Memory ran out.
    Memory,
}

impl From<ReadFault> for SettingsStop {
    ghost use Rattle.developer.specs.inner.Planning.{stop_of_read};

    ghost from_gives = { λ fault e. e ≡ stop_of_read fault };

    fn from(fault: ReadFault) -> Self {
        match fault {
            ReadFault::TooLong => SettingsStop::Refused(SettingsRefusal::TooLong),
            ReadFault::Failed => SettingsStop::Unread,
            ReadFault::Memory => SettingsStop::Memory,
        }
    }
}

impl From<SettingsFault> for SettingsStop {
    ghost use Rattle.developer.specs.inner.Planning.{stop_of_file};

    ghost from_gives = { λ fault e. e ≡ stop_of_file fault };

    fn from(fault: SettingsFault) -> Self {
        match fault {
            SettingsFault::NotToml => SettingsStop::Refused(SettingsRefusal::NotToml),
            SettingsFault::Key { name } => SettingsStop::Refused(SettingsRefusal::Key { name }),
            SettingsFault::Value { name } => SettingsStop::Refused(SettingsRefusal::Value { name }),
            SettingsFault::Memory => SettingsStop::Memory,
        }
    }
}

impl From<PlanFault> for SettingsStop {
    ghost use Rattle.developer.specs.inner.Planning.{stop_of_plan};

    ghost from_gives = { λ fault e. e ≡ stop_of_plan fault };

    fn from(fault: PlanFault) -> Self {
        match fault {
            PlanFault::Matrix => SettingsStop::Refused(SettingsRefusal::Matrix),
            PlanFault::Levels => SettingsStop::Refused(SettingsRefusal::Levels),
            PlanFault::Memory => SettingsStop::Memory,
        }
    }
}

/// Reads the settings file with a name, and plans a frame's stages under it.
///
/// # Errors
///
/// `Refused` exactly where the file is refused, with its first refusal; `Unread` where a read of it failed; `Memory`
/// where there was no memory.
pub(crate) fn read_settings<F: Files>(
    alloc: Global,
    files: &mut F,
    name: &str,
    frame: &Frame,
) -> Result<Planned, SettingsStop>
    requires frame { IsPlannable frame.now }
    ensures told { (other : List ℕ) → F.told files.new other ≡ F.told files.old other }
    ensures counts { (other : List ℕ) → F.faults files.old other ≤ F.faults files.new other }
    ensures reads { ReadsSettings frame.now (F.told files.old name.now) (F.faults files.old name.now)
        (F.faults files.new name.now) result }
{
    let bytes = read_all(alloc, files, name, MAX_SETTINGS)?;
    settings_for(alloc, &bytes, frame)
}

/// The settings of a run by the name of its settings file, and a frame's stages under them. Without a name they are the
/// standard ones, under which each frame that was read has stages.
///
/// # Errors
///
/// As [`read_settings`] where there is a name; `Memory` alone where there is none.
pub(crate) fn plan_under<F: Files>(
    alloc: Global,
    files: &mut F,
    name: Option<&str>,
    frame: &Frame,
) -> Result<Planned, SettingsStop>
    requires frame { (bytes : List ℕ) × IsFrame frame.now bytes }
    ensures told { (other : List ℕ) → F.told files.new other ≡ F.told files.old other }
    ensures counts { (other : List ℕ) → F.faults files.old other ≤ F.faults files.new other }
    ensures plans { PlansUnder frame.now (F.told files.old) (F.faults files.old) (F.faults files.new)
        (option_map (λ name. name.now) name.entry) result }
    ensures planned { IfOk result (IsPlanned frame.now) }
{
    match name {
        Some(name) => read_settings(alloc, files, name, frame),
        None => standard(alloc, frame),
    }
}

/// The standard settings, and the stages of a frame under them.
fn standard(alloc: Global, frame: &Frame) -> Result<Planned, SettingsStop>
    requires frame { (bytes : List ℕ) × IsFrame frame.now bytes }
    ensures { Plans frame.now (Ok standard_settings) result }
{
    let settings = Settings::standard();
    match plan(alloc, frame, &settings) {
        Ok(stages) => Ok(Planned { settings, stages }),
        Err(PlanFault::Memory) => Err(SettingsStop::Memory),
        Err(PlanFault::Matrix | PlanFault::Levels) => unreachable!(),
    }
}

/// The settings that a file's bytes give, and a frame's stages under them.
fn settings_for(alloc: Global, bytes: &[u8], frame: &Frame) -> Result<Planned, SettingsStop>
    requires frame { IsPlannable frame.now }
    requires short { length bytes.now ≤ 65536 }
    ensures { Plans frame.now (file_settings frame.now bytes.now) result }
{
    let settings = Settings::from_toml(alloc, bytes)?;
    let stages = plan(alloc, frame, &settings)?;
    Ok(Planned { settings, stages })
}

impl SettingsRefusal {
    /// Appends the line of the refusal.
    #[tactic(auto, unfolding(crate::specs::SettingsFile::settings_line))]
    pub(crate) fn say(&self, line: &mut Line)
        requires { line.old ≡ [] }
        ensures { line.new ≡ settings_line (seen self.now) }
    {
        line.push(b"settings ");
        self.say_cause(line);
        line.end();
    }

    /// Appends what is refused.
    fn say_cause(&self, line: &mut Line)
        requires { length line.old ≤ 16 }
        ensures bytes { line.new ≡ line.old ++ refusal_text (seen self.now) }
        ensures length { length line.new ≤ length line.old + 72 }
    {
        match self {
            SettingsRefusal::TooLong => line.push(b"TooLong"),
            SettingsRefusal::NotToml => line.push(b"NotToml"),
            SettingsRefusal::Key { name } => {
                line.push(b"Key ");
                line.push(shown_name(name.as_bytes()));
            }
            SettingsRefusal::Value { name } => {
                line.push(b"Value ");
                line.push(shown_name(name.as_bytes()));
            }
            SettingsRefusal::Matrix => line.push(b"Matrix"),
            SettingsRefusal::Levels => line.push(b"Levels"),
        }
    }
}

/// The name of a key as it is printed: `?` in place of a name that isn't plain.
fn shown_name(name: &[u8]) -> &[u8]
    ensures name { result.now ≡ shown_name name.now }
    ensures short { length result.now ≤ 64 }
{
    if is_plain(name) { name } else { b"?" }
}

/// Whether a name has 1 to 64 letters, digits, `_` or `-`, and nothing else.
fn is_plain(name: &[u8]) -> bool
    ensures { result ≡ is_plain name.now }
{
    !name.is_empty() && name.len() <= MAX_NAME && all_letters(name)
}

/// Whether each byte of a name is a letter or a digit of ASCII, `_` or `-`.
fn all_letters(name: &[u8]) -> bool
    ensures { result ≡ list_all is_letter name.now }
{
    name.iter().all(|byte| byte.is_ascii_alphanumeric() || *byte == b'_' || *byte == b'-')
}
