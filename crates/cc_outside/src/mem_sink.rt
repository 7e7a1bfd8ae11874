// A sink in memory.
ghost use Rattle.std.specs.Prelude.{◌≡◌, ℕ, ◌+◌, ◌^◌, ◌<◌, ◌≤◌, ◌⊎◌, ◌↔◌, ◌++◌, [], List, Option, None, Some, is_some};
ghost use Rattle.std.specs.Prelude.{OnOk, IsErrOf, take};
ghost use Rattle.cc_outside.specs.Faults.{Rose, counted_up};
ghost use Rattle.cc_outside.specs.Prefix.{IsFirstPart};
ghost use Rattle.cc_outside.specs.Told.{appended};

use crate::calls::Calls;
use crate::writing::{Sink, SinkFault};
use std::alloc::Global;
use std::marker::Model;

/// A sink that keeps in memory what is written.
#[derive(Drop)]
pub struct MemSink {
    bytes: Vec<u8>,
    calls: Calls,
    keep: usize,
}

impl Model for MemSink {
    ghost use Rattle.cc_outside.specs.MemSinkState.{MemSinkState};

    ghost Value = { MemSinkState };

    ghost view = { λ s. record {
      written = s.bytes.items;
      writes = s.calls.made;
      fails_at = s.calls.fails_at;
      keep = s.keep;
      faults = s.calls.faults;
    } };
}

impl MemSink {
    /// An empty sink, of which no write is to fail. Its bytes are stored by `alloc`.
    pub fn new(alloc: Global) -> MemSink
        ensures { result
            ≡ record { written = []; writes = 0; fails_at = None; keep = 0; faults = 0 } }
    {
        MemSink {
            bytes: Vec::new(alloc),
            calls: Calls::new(),
            keep: 0,
        }
    }

    /// Makes write number `call`, counted from 1, fail after at most `keep` bytes of its piece. A
    /// later call replaces an earlier one.
    pub fn fail_at(&mut self, call: u64, keep: usize)
        ensures { self.new ≡ record self.old { fails_at = Some call; keep = keep } }
    {
        self.calls.fails_at = Some(call);
        self.keep = keep;
    }

    /// The bytes written so far.
    pub fn bytes(&self) -> &[u8]
        ensures { result.now ≡ self.now.written }
    {
        self.bytes.as_slice()
    }
}

impl Sink for MemSink {
    ghost written = { λ s. Some s.written };

    ghost faults = { λ s. s.faults };

    fn write(&mut self, piece: &[u8]) -> Result<(), SinkFault>
        // What is written.
        ensures ok { OnOk result (self.new.written ≡ self.old.written ++ piece.now) }
        ensures kept { IsErrOf result SinkFault.Failed
            → (self.new.written ≡ self.old.written ++ take self.old.keep piece.now)
            ⊎ (self.new.written ≡ self.old.written) }
        ensures no_memory { IsErrOf result SinkFault.NoMemory
            → self.new.written ≡ self.old.written }

        // Which write fails, and what it counts.
        ensures fails { IsErrOf result SinkFault.Failed
            ↔ (self.old.fails_at ≡ Some (self.old.writes + 1)) }
        ensures rises { IsErrOf result SinkFault.Failed
            → self.new.faults ≡ counted_up self.old.faults }
        ensures stays { ¬ IsErrOf result SinkFault.Failed
            → self.new.faults ≡ self.old.faults }
        ensures never_falls { self.old.faults ≤ self.new.faults }
        ensures bounded { self.new.faults < 2 ^ 64 }

        // What stays, but for the count of writes.
        ensures writes { self.new.writes ≡ counted_up self.old.writes }
        ensures named { self.new.fails_at ≡ self.old.fails_at }
        ensures keep { self.new.keep ≡ self.old.keep }
    {
        if self.calls.count() {
            let kept = self.keep.min(piece.len());
            // Where memory lacks, nothing is kept.
            let _ = self.bytes.extend_from_slice(&piece[..kept]);
            return Err(SinkFault::Failed);
        }
        match self.bytes.extend_from_slice(piece) {
            Ok(()) => Ok(()),
            Err(_) => Err(SinkFault::NoMemory),
        }
    }
}
