//! The stages that the opcode lists of a frame and its trims ask for.
#![tactic(auto)]

mod crop;
mod defects;
mod fix_constant;
mod fix_list;
mod map_rows;
mod map_table;
mod places;
mod rects;
mod steps;

pub use crop::Crop;
pub use fix_constant::FixConstant;
pub use fix_list::FixList;
pub use map_table::MapTable;
