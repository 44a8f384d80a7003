//! Calls of std's readers and writers that fail.

use std::io::{self, ErrorKind};

/// The calls that come fail with these, in this order; all further ones go well.
#[derive(Clone, Copy)]
pub struct Faults<'a>(pub &'a [ErrorKind]);

impl Faults<'_> {
    /// The next call's answer.
    pub fn next(&mut self) -> io::Result<()> {
        match self.0.split_first() {
            Some((kind, rest)) => {
                self.0 = rest;
                Err(io::Error::from(*kind))
            }
            None => Ok(()),
        }
    }
}
