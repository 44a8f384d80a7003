//! Stages one after the other, each over the whole plane that the one before makes.
#![tactic(auto)]

mod running;
mod whole_plane;

pub use running::run_in_turn;
pub use whole_plane::WholePlane;
