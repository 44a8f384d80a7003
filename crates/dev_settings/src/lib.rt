//! What a script says: its lines, their words, and the command of a line; and what a settings file says. Both change
//! settings.
#![tactic(auto)]

mod command;
mod file;
mod format;
mod integers;
mod key;
mod line;
mod settings;
mod word;
mod written;

pub use command::{Command, LineFault};
pub use file::SettingsFault;
pub use format::Format;
pub use line::{MAX_LINE_BYTES, line_text, split_line};
pub use settings::{Change, MatrixChoice, Settings};
pub use word::number;
