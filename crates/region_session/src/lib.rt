//! Development by cells: any rectangle of the last plane of stages over a base, from the cells that it rests on.
#![tactic(auto)]

mod bands;
mod faults;
mod layers;
mod patch;
mod planes;
mod session;
mod tally;

pub use faults::{OpenFault, ShapeChanged};
pub use session::Session;
pub use tally::Tally;
