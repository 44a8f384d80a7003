//! The tags of DNG files that are read, and the rule of each: where it stands, and which types and counts it may have.
//! Values are read by these rules, as whole numbers, as fractions and as opcode lists, or refused by the frame's faults
//! (TIFF 6.0; DNG 1.6, chapter 4).
#![tactic(auto)]

mod faults;
mod opcodes;
mod quantities;
mod tags;
mod values;

pub use faults::{FrameFault, MAX_FAULT_TEXT, SegmentFault};
pub use quantities::{COLOURS, LEVELS, Scale};
pub use tags::{Home, Kinds, Rule, Tag};
pub use values::{Directories, Fractions, Whole, whole_in};
