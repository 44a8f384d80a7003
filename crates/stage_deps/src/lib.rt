//! The cells of planes, and which cells of a plane the cells of the next one rest on.
#![tactic(auto)]

mod cells;
mod grid;
mod needs;
mod stamps;

pub use cells::{hull, meeting_cells, rects_of};
pub use grid::Grid;
pub use needs::{below, needs_of};
pub use stamps::Stamps;

#[cfg(test)]
mod tests;
