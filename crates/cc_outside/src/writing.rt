// Writing output, piece by piece.
ghost use Rattle.std.specs.Prelude.{◌≡◌, ℕ, ◌^◌, ◌<◌, ◌≤◌, List, Option, None, IsOk, is_some, OnOk, OnErr, IsErrOf};
ghost use Rattle.cc_outside.specs.Faults.{Rose};
ghost use Rattle.cc_outside.specs.Told.{appended, WritesPart};

use thiserror::Error;

/// Why a piece was not written.
#[derive(Clone, Copy, Debug, PartialEq, Eq, Error)]
pub enum SinkFault {
    /// The outside failed, maybe after a first part of the piece.
    #[error("the output can't be written")]
    Failed,
    /// Memory ran out, and nothing of the piece was written.
    #[error("out of memory")]
    NoMemory,
}

/// Where output is written.
pub trait Sink {
    // The bytes written so far, or `None` where the kind does not tell them.
    ghost written: { Self → Option (List ℕ) };

    // How many faults there were, up to the last value of 64 bits, at which it stays.
    ghost faults: { Self → ℕ };

    /// Writes the piece after what is written already.
    ///
    /// At `Failed` a first part of the piece was written, and at `NoMemory` nothing.
    fn write(&mut self, piece: &[u8]) -> Result<(), SinkFault>
        ensures told { is_some (written self.new) ≡ is_some (written self.old) }
        ensures never_falls { faults self.old ≤ faults self.new }
        ensures bounded { faults self.new < 2 ^ 64 }
        ensures ok { OnOk result (written self.new ≡ appended (written self.old) piece.now) }

        // What a fault leaves: a first part of the piece, which is empty where memory ran out.
        ensures failed_rose { IsErrOf result SinkFault.Failed
            → Rose (faults self.old) (faults self.new) }
        ensures failed_part { OnErr result
            (WritesPart (written self.old) (written self.new) piece.now) }
        ensures no_memory { IsErrOf result SinkFault.NoMemory
            → written self.new ≡ written self.old };
}

/// A sink that takes every piece and keeps nothing.
#[derive(Clone, Copy)]
pub struct NullSink;

impl Sink for NullSink {
    ghost written = { λ _. None };

    ghost faults = { λ _. 0 };

    fn write(&mut self, _piece: &[u8]) -> Result<(), SinkFault>
        ensures { IsOk result }
    {
        Ok(())
    }
}
