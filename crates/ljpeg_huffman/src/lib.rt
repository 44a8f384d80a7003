//! Code tables and differences of lossless JPEG (ITU-T T.81, Annexes C and H).
#![tactic(auto)]

mod bits;
mod table;
#[cfg(test)]
mod tests;

pub use bits::{BitFault, Bits, one_spelling};
pub use table::{CodeTable, TableFault};
