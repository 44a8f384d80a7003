//! Tests of the whole program, over files, a script and a sink in memory, and of the lines and settings that it reads.
//! Nothing but tests stands here.
#![tactic(auto)]

#[cfg(test)]
mod cells;
#[cfg(test)]
mod commands;
#[cfg(test)]
mod frames;
#[cfg(test)]
mod lines;
#[cfg(test)]
mod opcodes;
#[cfg(test)]
mod outside;
#[cfg(test)]
mod reading;
#[cfg(test)]
mod sentences;
#[cfg(test)]
mod settings;
#[cfg(test)]
mod stat;
#[cfg(test)]
mod words;
