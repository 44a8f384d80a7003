//! Tests of frames: what is refused, what a record has, how images are cut, and which samples are fetched; of lossless
//! streams; and of the files that are written for tests. Nothing but tests stands here.
#![tactic(auto)]

#[cfg(test)]
mod fetching;
#[cfg(test)]
mod lossless;
#[cfg(test)]
mod made;
#[cfg(test)]
mod segments;
#[cfg(test)]
mod small;
#[cfg(test)]
mod tags;
#[cfg(test)]
mod written;
