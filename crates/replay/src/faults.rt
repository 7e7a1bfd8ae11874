//! Why tests files are refused.

ghost use Rattle.std.specs.Prelude.{◌≡◌};
ghost use Rattle.replay.specs.declared.faults.TestsFault.TheVariants as file_fault;

use cc_model::base::NoMemory;
use std::alloc::{AllocError, AllocFailed};
use thiserror::Error;

/// Why a text is no tests file.
#[derive(Clone, Copy, Debug, Error)]
pub enum TestsFault {
    /// The line with this number, from 1, is the first that is none of a tests file.
    #[error("line {0} is malformed")]
    Line(u32),
    /// Memory ran out.
    #[error("out of memory")]
    NoMemory,
}

impl From<NoMemory> for TestsFault {
    ghost from_gives = { λ _ f. f ≡ file_fault.NoMemory };

    fn from(_: NoMemory) -> Self {
        TestsFault::NoMemory
    }
}

impl From<AllocError> for TestsFault {
    ghost from_gives = { λ _ f. f ≡ file_fault.NoMemory };

    fn from(_: AllocError) -> Self {
        TestsFault::NoMemory
    }
}

impl<T: Drop> From<AllocFailed<T>> for TestsFault {
    ghost from_gives = { λ _ f. f ≡ file_fault.NoMemory };

    fn from(_: AllocFailed<T>) -> Self {
        TestsFault::NoMemory
    }
}
