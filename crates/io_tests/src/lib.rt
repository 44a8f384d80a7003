//! Tests of the outside: files, sources and sinks in memory and over those of std, and whole reads and writes. Nothing
//! but tests stands here.
#![tactic(auto)]

#[cfg(test)]
mod failing;
#[cfg(test)]
mod files;
#[cfg(test)]
mod memory;
#[cfg(test)]
mod streams;
#[cfg(test)]
mod whole;
