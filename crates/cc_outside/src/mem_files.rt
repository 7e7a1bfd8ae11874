// Files in memory.
ghost use Rattle.std.specs.Prelude.{◌≡◌, ◌≢◌, ℕ, ◌+◌, ◌^◌, ◌<◌, ◌≤◌, ◌⊎◌, ◌↔◌, [], List, Option, None, Some, OnOk};
ghost use Rattle.std.specs.Prelude.{OnErr, IfOk, IsErrOf, length, vec_len};
ghost use Rattle.cc_outside.specs.Faults.{counted_up};
ghost use Rattle.cc_outside.specs.Held.{file_of};
ghost use Rattle.cc_outside.specs.Endings.{EndsBy};

use crate::calls::Calls;
use crate::loading::{Files, LoadFault};
use crate::stored_file::{StoredFile, bytes_named, place_named};
use cc_base::NoMemory;
use std::alloc::Global;
use std::marker::Model;

/// Files that are held in memory.
#[derive(Drop)]
pub struct MemFiles {
    alloc: Global,
    files: Vec<StoredFile>,
    calls: Calls,
}

impl Model for MemFiles {
    ghost use Rattle.cc_outside.specs.MemFilesState.{MemFilesState};

    ghost Value = { MemFilesState };

    ghost view = { λ s. record {
      held = s.files.items;
      loads = s.calls.made;
      fails_at = s.calls.fails_at;
      faults = s.calls.faults;
    } };
}

impl MemFiles {
    /// No files, and no load that is to fail. The files are stored by `alloc`.
    pub fn new(alloc: Global) -> MemFiles
        ensures { result ≡ record { held = []; loads = 0; fails_at = None; faults = 0 } }
    {
        MemFiles {
            alloc,
            files: Vec::new(alloc),
            calls: Calls::new(),
        }
    }

    /// Adds a file, or replaces the one of that name.
    pub fn put(&mut self, name: &str, bytes: &[u8]) -> Result<(), NoMemory>
        ensures put { OnOk result (file_of name.now self.new.held ≡ Some bytes.now) }
        ensures others { OnOk result ((other : List ℕ) → other ≢ name.now
            → file_of other self.new.held ≡ file_of other self.old.held) }
        ensures no_memory { OnErr result (self.new.held ≡ self.old.held) }
        ensures same { self.new ≡ record self.old { held = self.new.held } }
    {
        let file = StoredFile::new(self.alloc, name, bytes)?;
        match place_named(&self.files, name) {
            Some(place) => self.files[place] = file,
            None => self.files.push(file)?,
        }
        Ok(())
    }

    /// Makes load number `call`, counted from 1, fail. A later call replaces an earlier one.
    pub fn fail_at(&mut self, call: u64)
        ensures { self.new ≡ record self.old { fails_at = Some call } }
    {
        self.calls.fails_at = Some(call);
    }
}

impl Files for MemFiles {
    ghost held = { λ s. Some s.held };

    ghost faults = { λ s. s.faults };

    fn load(&mut self, alloc: Global, name: &str, limit: usize) -> Result<Vec<u8>, LoadFault>
        // What the answer is.
        ensures bytes { IfOk result (λ v. file_of name.now self.old.held ≡ Some v.items) }
        ensures within_limit { IfOk result (λ v. vec_len v ≤ limit) }
        ensures missing_only { IsErrOf result LoadFault.Missing
            → file_of name.now self.old.held ≡ None }
        ensures too_long_only { IsErrOf result LoadFault.TooLong
            → (b : List ℕ) × (file_of name.now self.old.held ≡ Some b) × (limit < length b) }
        ensures missing { file_of name.now self.old.held ≡ None → EndsBy LoadFault.Missing result }
        ensures too_long { (b : List ℕ) → file_of name.now self.old.held ≡ Some b
            → limit < length b → EndsBy LoadFault.TooLong result }

        // Which load fails, and what it counts.
        ensures fails { IsErrOf result LoadFault.Failed
            ↔ (self.old.fails_at ≡ Some (self.old.loads + 1)) }
        ensures rises { IsErrOf result LoadFault.Failed
            → self.new.faults ≡ counted_up self.old.faults }
        ensures stays { ¬ IsErrOf result LoadFault.Failed
            → self.new.faults ≡ self.old.faults }
        ensures never_falls { self.old.faults ≤ self.new.faults }
        ensures bounded { self.new.faults < 2 ^ 64 }

        // What stays, but for the count of loads.
        ensures loads { self.new.loads ≡ counted_up self.old.loads }
        ensures held { self.new.held ≡ self.old.held }
        ensures named { self.new.fails_at ≡ self.old.fails_at }
    {
        if self.calls.count() {
            return Err(LoadFault::Failed);
        }
        let Some(bytes) = bytes_named(&self.files, name) else {
            return Err(LoadFault::Missing);
        };
        copied_within(alloc, bytes, limit)
    }
}

/// A copy of the bytes, if they are at most `limit`.
fn copied_within(alloc: Global, bytes: &[u8], limit: usize) -> Result<Vec<u8>, LoadFault>
    ensures ok { IfOk result (λ v. (v.items ≡ bytes.now) × (length bytes.now ≤ limit)) }
    ensures too_long { IsErrOf result LoadFault.TooLong → limit < length bytes.now }
    ensures too_long_ends { limit < length bytes.now → EndsBy LoadFault.TooLong result }
    ensures only { result ≢ Err LoadFault.Missing }
    ensures not_failed { result ≢ Err LoadFault.Failed }
{
    if bytes.len() > limit {
        return Err(LoadFault::TooLong);
    }
    Vec::from_slice(alloc, bytes).map_err(|_| LoadFault::NoMemory)
}
