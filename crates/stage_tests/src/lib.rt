//! Tests of the stages, each over small planes, and of the lists of stages that frames take. Nothing but tests stands
//! here.
#![tactic(auto)]

#[cfg(test)]
mod colour;
#[cfg(test)]
mod demosaic;
#[cfg(test)]
mod linear;
#[cfg(test)]
mod opcodes;
#[cfg(test)]
mod plans;
#[cfg(test)]
mod tone;
#[cfg(test)]
mod trial;
