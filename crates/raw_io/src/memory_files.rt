//! Files in memory, whose reads fail where they are told to.

ghost use Rattle.std.specs.Prelude.{◌≡◌, ◌≢◌, ℕ, ◌-◌, ◌≤◌, ◌||◌, if◌then◌else◌, min, List, [], ◌++◌, length, take};
ghost use Rattle.std.specs.Prelude.{drop, Option, Some, None, IfOk, OnOk, OnErr, IfSome, IsSome, is_err, is_none};
ghost use Rattle.std.specs.Str.{bytes_eq};
ghost use Rattle.raw_io.specs.Outside.{Rises, ReadsAt};
ghost use Rattle.raw_io.specs.Memory.{CallNumbers, called, one_more, next_fails, with_failing, no_calls, MemoryFile};
ghost use Rattle.raw_io.specs.Memory.{MemoryFiles, is_named, file_of, with_file, contents_of, faults_of, with_contents};
ghost use Rattle.raw_io.specs.Memory.{files_read, files_failed};
ghost use Rattle.raw_io.specs.inner.Places.{place_of};

use crate::memory::{Calls, copy_prefix};
use crate::{Failed, Files};
use std::alloc::{AllocError, Global};
use std::marker::Model;

#[derive(Debug, Drop)]
struct MemFile {
    name: Vec<u8>,
    bytes: Vec<u8>,
    faults: u64,
}

impl Model for MemFile {
    ghost Value = { MemoryFile };

    ghost view = { λ f. record { name = f.name.items; bytes = f.bytes.items; faults = f.faults } };
}

impl MemFile {
    fn new(alloc: Global, name: &[u8], bytes: &[u8], faults: u64) -> Result<Self, AllocError>
        ensures { IfOk result (λ file. file ≡ record { name = name.now; bytes = bytes.now; faults = faults }) }
    {
        Ok(MemFile {
            name: name.to_vec(alloc)?,
            bytes: bytes.to_vec(alloc)?,
            faults,
        })
    }

    fn is_named(&self, name: &[u8]) -> bool
        ensures { result ≡ is_named name.now self.now }
    {
        self.name.as_slice() == name
    }

    fn bytes(&self) -> &[u8]
        ensures { result.now ≡ self.now.bytes }
    {
        &self.bytes
    }

    fn faults(&self) -> u64
        ensures { result ≡ self.now.faults }
    {
        self.faults
    }

    fn count_fault(&mut self)
        ensures grows { self.old.faults ≤ self.new.faults }
        ensures counted { self.new ≡ record {
          name = self.old.name;
          bytes = self.old.bytes;
          faults = one_more self.old.faults;
        } }
    {
        self.faults = self.faults.saturating_add(1);
    }
}

/// The place of the first file of this name, or the number of files.
fn place(files: &[MemFile], name: &[u8]) -> usize
    ensures { result ≡ place_of name.now files.now }
{
    for (at, file) in files.iter().enumerate() {
        if file.is_named(name) {
            return at;
        }
    }
    files.len()
}

/// Files in memory.
#[derive(Debug, Drop)]
pub struct MemFiles {
    files: Vec<MemFile>,
    others: u64,
    calls: Calls,
}

impl Model for MemFiles {
    ghost Value = { MemoryFiles };

    ghost view = { λ s. record { files = s.files.items; others = s.others; calls = s.calls } };
}

impl MemFiles {
    /// Files that hold no name.
    pub fn new(alloc: Global) -> Result<Self, AllocError>
        ensures { IfOk result (λ files. files ≡ record { files = []; others = 0; calls = no_calls }) }
    {
        Ok(MemFiles {
            files: Vec::new(alloc),
            others: 0,
            calls: Calls::new(alloc),
        })
    }

    /// Gives a name its contents, in the place of those that it had. It keeps its count of faults.
    ///
    /// # Errors
    ///
    /// `AllocError` where there is no memory; nothing has changed then.
    pub fn add(&mut self, name: &str, bytes: &[u8]) -> Result<(), AllocError>
        ensures added { OnOk result (self.new ≡ with_contents name.now bytes.now self.old) }
        ensures contents { OnOk result ((other : List ℕ) → contents_of self.new other
            ≡ (if bytes_eq name.now other then Some bytes.now else contents_of self.old other)) }
        ensures counts { (other : List ℕ) → faults_of self.new other ≡ faults_of self.old other }
        ensures refused { OnErr result (self.new ≡ self.old) }
    {
        let name = name.as_bytes();
        let alloc = *self.files.allocator();
        let at = place(&self.files, name);
        if at < self.files.len() {
            let faults = self.files[at].faults();
            self.files[at] = MemFile::new(alloc, name, bytes, faults)?;
        } else {
            let file = MemFile::new(alloc, name, bytes, self.others)?;
            self.files.push(file)?;
        }
        Ok(())
    }

    /// Lets the read of this number fail, counted from 1.
    ///
    /// # Errors
    ///
    /// `AllocError` where there is no memory; nothing has changed then.
    pub fn fail_at(&mut self, call: u64) -> Result<(), AllocError>
        ensures added { OnOk result (self.new ≡ record self.old { calls = with_failing call self.old.calls }) }
        ensures refused { OnErr result (self.new ≡ self.old) }
    {
        self.calls.fail_at(call)
    }
}

impl Files for MemFiles {
    ghost told = { contents_of };

    ghost faults = { faults_of };

    /// Reads as many bytes as there are from the offset and `into` has room for.
    ///
    /// # Errors
    ///
    /// `Failed` where this read was told to fail, and where the name isn't there.
    fn read(&mut self, name: &str, at: u64, into: &mut [u8]) -> Result<usize, Failed>
        ensures contents { (other : List ℕ) → contents_of self.new other ≡ contents_of self.old other }
        ensures counts { (other : List ℕ) → faults_of self.old other ≤ faults_of self.new other }
        ensures within { IfOk result (λ n. n ≤ length into.old) }
        ensures bytes { IfOk result
            (λ n. IfSome (contents_of self.old name.now) (λ bytes. ReadsAt bytes at into.new n)) }
        ensures failed { OnErr result (Rises (faults_of self.old name.now) (faults_of self.new name.now)) }
        ensures fails { is_err result ≡ (next_fails self.old.calls || is_none (contents_of self.old name.now)) }
        ensures read { OnOk result (self.new ≡ files_read self.old) }
        ensures copied { IfOk result (λ n. IfSome (contents_of self.old name.now) (λ bytes.
            (n ≡ min (length bytes - at) (length into.old)) × (into.new ≡ take n (drop at bytes) ++ drop n into.old))) }
        ensures at_fault { OnErr result ((into.new ≡ into.old) × (self.new ≡ files_failed name.now self.old)) }
    {
        let place = place(&self.files, name.as_bytes());
        let refused = self.calls.begin();
        if place >= self.files.len() {
            self.others = self.others.saturating_add(1);
            return Err(Failed);
        }
        if refused {
            self.files[place].count_fault();
            return Err(Failed);
        }
        Ok(copy_from(self.files[place].bytes(), at, into))
    }
}

/// Copies from an offset as many bytes as both have, and answers how many.
fn copy_from(bytes: &[u8], at: u64, into: &mut [u8]) -> usize
    ensures count { result ≡ min (length bytes.now - at) (length into.old) }
    ensures copied { into.new ≡ take result (drop at bytes.now) ++ drop result into.old }
{
    if at >= bytes.len() as u64 {
        return 0;
    }
    copy_prefix(&bytes[at as usize..], into)
}
