//! Writes TIFF files (TIFF 6.0, section 2): a header, directories with entries of any tag, type, count and value, and
//! data behind them. The offset of the data, and those of further directories, can be values.
#![tactic(auto)]

mod field;
mod file;

pub use field::{Field, Place, Value};
pub use file::file_bytes;
