//! Files that are opened by their names, as those of the machine.

ghost use Rattle.std.specs.Prelude.{◌≡◌, ℕ, ◌≤◌, List, length, Option, None, IfOk, IfSome, is_err, if◌then◌else◌};
ghost use Rattle.raw_io.specs.Outside.{ReadsAt};
ghost use Rattle.raw_io.specs.Memory.{one_more};
ghost use Rattle.raw_io.specs.Streams.{OpenedFiles, Holds};

use crate::tried::{counted, read_some};
use crate::{Failed, Files};
use std::fs::File;
use std::io::{Read, Seek, SeekFrom};
use std::marker::Model;
use std::rt;

/// Opens files by their names. Each runtime that reaches files does, and tells nothing of their bytes.
pub trait Opener {
    /// A file that is open for reading.
    type File: Read + Seek + Drop;

    /// The contents under a name, where they are told.
    ghost told: { Self → List ℕ → Option (List ℕ) } = { λ _ _. None };

    /// Opens the file of this name.
    ///
    /// # Errors
    ///
    /// `Failed` where it can't be opened.
    fn open(&self, name: &str) -> Result<Self::File, Failed>
        ensures { IfOk result (λ file. IfSome (told self.now name.now)
            (Holds Self.File.Read.remaining Self.File.Seek.stream_position Self.File.Seek.stream_bytes file)) };
}

impl<R: rt::Files> Opener for R {
    type File = R::File;

    fn open(&self, name: &str) -> Result<R::File, Failed> {
        match File::open(self, name) {
            Ok(file) => Ok(file),
            Err(_) => Err(Failed),
        }
    }
}

/// Files over an opener, as the runtime, whose names are paths. It tells what the opener tells: nothing over the
/// machine's own files.
#[derive(Drop)]
pub struct HostFiles<O> {
    opener: O,
    faults: u64,
}

impl<O> Model for HostFiles<O> {
    ghost Value = { OpenedFiles O };

    ghost view = { λ s. record { opener = s.opener; faults = s.faults } };
}

impl<O: Opener> HostFiles<O> {
    /// The files that this opener reaches.
    pub fn new(opener: O) -> Self
        ensures { result ≡ record { opener = opener; faults = 0 } }
    {
        HostFiles { opener, faults: 0 }
    }
}

impl<O: Opener> Files for HostFiles<O> {
    ghost told = { λ s name. O.told s.opener name };

    ghost faults = { λ s _. s.faults };

    fn read(&mut self, name: &str, at: u64, into: &mut [u8]) -> Result<usize, Failed>
        ensures contents { (other : List ℕ) → O.told self.new.opener other ≡ O.told self.old.opener other }
        ensures counts { (other : List ℕ) → self.old.faults ≤ self.new.faults }
        ensures within { IfOk result (λ n. n ≤ length into.old) }
        ensures bytes { IfOk result (λ n. IfSome (O.told self.old.opener name.now)
            (λ bytes. ReadsAt bytes at into.new n)) }
        ensures count { self.new.faults ≡ (if is_err result then one_more self.old.faults else self.old.faults) }
    {
        let outcome = read_file(&self.opener, name, at, into);
        counted(&mut self.faults, outcome)
    }
}

/// Opens the file for this one read, so that no file stays open between two.
fn read_file<O: Opener>(opener: &O, name: &str, at: u64, into: &mut [u8]) -> Result<usize, Failed>
    ensures within { IfOk result (λ n. n ≤ length into.new) }
    ensures bytes { IfOk result (λ n. IfSome (O.told opener.now name.now) (λ bytes. ReadsAt bytes at into.new n)) }
{
    let mut file = opener.open(name)?;
    if file.seek(SeekFrom::Start(at)).is_err() {
        return Err(Failed);
    }
    read_some(&mut file, into)
}
