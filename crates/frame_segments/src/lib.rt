//! The strips or tiles of a frame as a plane that is fetched cell by cell: a segment is a cell. Opening a frame decodes
//! each segment once, and fetching a cell decodes it again.
#![tactic(auto)]

mod decoding;
mod segments;

pub use segments::Segments;
