//! The stages of a development, and which of them a frame takes under settings.
#![tactic(auto)]

mod fault;
mod listed;
mod matrices;
mod planning;
mod stage;

pub use fault::PlanFault;
pub use planning::{plan, stage_of};
pub use stage::DevStage;
