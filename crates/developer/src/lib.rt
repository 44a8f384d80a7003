//! Develops the regions of a frame that a script asks for.
//!
//! [`run`] is the whole program over files, a script and a sink, and carries the theorem: each region of an accepted
//! frame is written, to the byte, as the crop of the frame's whole development. It answers each line by [`answer`].
#![tactic(auto)]

mod changes;
mod fault;
mod line;
mod opened;
mod opening;
mod options;
mod program;
mod regions;
mod script;
mod settings;
mod status;
mod words;
mod writing;

pub use fault::AnswerFault;
pub use line::answer;
pub use program::run;
pub use status::Status;
