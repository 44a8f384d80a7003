//! Planes that are fetched cell by cell, stages that make planes of planes, and counted work.
#![tactic(auto)]

mod base;
mod fetching;
mod stage;
mod steps;
#[cfg(test)]
mod tests;

pub use base::Base;
pub use fetching::fetch_all;
pub use stage::Stage;
pub use steps::Steps;
