//! What a DNG file says of its frame (TIFF 6.0; DNG 1.6, chapter 4).
#![tactic(auto)]

mod area;
mod black;
mod colours;
mod form;
mod frame;
mod layout;
mod listed;
mod origin;
mod pattern;
mod record;
mod span;

pub use frame::{MAX_BYTES, read_frame};
pub use record::{Coding, Colour, Frame, Levels, Segment};
pub use span::greatest_black;
pub use tag_rules::{FrameFault, MAX_FAULT_TEXT, SegmentFault};
