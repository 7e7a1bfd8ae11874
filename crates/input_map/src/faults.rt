//! Why a text is not the map text of an input, or that of a test.

ghost use Rattle.std.specs.Prelude.{◌≡◌};
ghost use Rattle.input_map.specs.declared.faults.MapFault.TheVariants as fault;
ghost use Rattle.input_map.specs.declared.faults.TestFault.TheVariants as test_fault;

use cc_model::base::NoMemory;
use std::alloc::{AllocError, AllocFailed};
use thiserror::Error;

/// Why a text is not the map text of an input within bounds: the first of these reasons, in this order, that there is.
/// The addresses count from 1.
#[derive(Clone, Copy, Debug, PartialEq, Eq, Error)]
pub enum MapFault {
    /// The text is no map text. The number is that of the first byte, from 1, with which it begins none, or its length
    /// plus 1 where all of it begins one.
    #[error("no map text has the byte at {0}")]
    Malformed(u64),
    /// The pointer cell at the address holds neither 0 nor the start of a block of its type that an earlier cell named,
    /// nor the next address.
    #[error("the pointer at {0} is not canonical")]
    NotCanonical(i64),
    /// The cells end before the last block that they name does.
    #[error("a cell is missing")]
    Short,
    /// The cell at the address stands behind the last block.
    #[error("no block has the cell at {0}")]
    Long(i64),
    /// The number at the address is outside the bounds.
    #[error("the number at {0} is out of bounds")]
    OutOfBounds(i64),
    /// The number of the stream with this place, from 1, is outside the bounds.
    #[error("the number {0} of the stream is out of bounds")]
    StreamOutOfBounds(u64),
    /// Memory ran out.
    #[error("out of memory")]
    NoMemory,
}

impl From<AllocError> for MapFault {
    ghost from_gives = { λ _ f. f ≡ fault.NoMemory };

    fn from(_: AllocError) -> Self {
        MapFault::NoMemory
    }
}

impl<T: Drop> From<AllocFailed<T>> for MapFault {
    ghost from_gives = { λ _ f. f ≡ fault.NoMemory };

    fn from(_: AllocFailed<T>) -> Self {
        MapFault::NoMemory
    }
}

impl From<NoMemory> for MapFault {
    ghost from_gives = { λ _ f. f ≡ fault.NoMemory };

    fn from(_: NoMemory) -> Self {
        MapFault::NoMemory
    }
}

/// Why a text is not that of a test.
#[derive(Clone, Copy, Debug, PartialEq, Eq, Error)]
pub enum TestFault {
    /// The text is not three words, the text of a path, the text of an end and another.
    #[error("it is no path, end and input")]
    Form,
    /// The third word is not the map text of an input within bounds. The fault is never want of memory.
    #[error("the input: {0}")]
    Map(MapFault),
    /// Memory ran out.
    #[error("out of memory")]
    NoMemory,
}

impl From<NoMemory> for TestFault {
    ghost from_gives = { λ _ f. f ≡ test_fault.NoMemory };

    fn from(_: NoMemory) -> Self {
        TestFault::NoMemory
    }
}
