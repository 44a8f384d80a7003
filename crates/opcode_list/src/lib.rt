//! Opcode lists of DNG frames (DNG 1.6, "Opcode List Processing"): the opcodes of one list, or why it is refused.
//!
//! Of the opcodes, FixBadPixelsConstant, FixBadPixelsList, TrimBounds and MapTable can be run. Any other is passed over
//! where its flags allow it.
#![tactic(auto)]

mod list;
mod opcode;
mod params;
mod trims;

pub use list::read_list;
pub use opcode::{Opcode, OpcodeFault};
pub use trims::trimmed;

#[cfg(test)]
mod tests;
