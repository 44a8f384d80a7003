//! Tests of sessions, over a base and stages that count what they do. Nothing but tests stands here.
#![tactic(auto)]

#[cfg(test)]
mod bands;
#[cfg(test)]
mod counting;
#[cfg(test)]
mod in_turn;
#[cfg(test)]
mod kept;
#[cfg(test)]
mod keys;
