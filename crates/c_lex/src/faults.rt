//! Faults of a source.

ghost use Rattle.std.specs.Prelude.{◌≡◌};
ghost use Rattle.c_lex.specs.declared.faults.LexFault.TheVariants.{NoMemory};

use std::alloc::AllocFailed;
use thiserror::Error;

/// Why a source has no tokens. The number is the offset in bytes of the first fault.
#[derive(Clone, Copy, Debug, Error)]
pub enum LexFault {
    /// A byte that begins no token.
    #[error("no token begins with the byte at {0}")]
    BadByte(u32),
    /// A run of digits, letters and `_` that is neither 0 nor a decimal number of at most 2147483647.
    #[error("no number at {0}")]
    BadNumber(u32),
    /// A comment without an end.
    #[error("the comment at {0} has no end")]
    OpenComment(u32),
    /// A directive that is no include.
    #[error("no include at {0}")]
    BadDirective(u32),
    /// Memory ran out.
    #[error("out of memory")]
    NoMemory,
}

impl<T: Drop> From<AllocFailed<T>> for LexFault {
    ghost from_gives = { λ _ f. f ≡ NoMemory };

    fn from(_: AllocFailed<T>) -> Self {
        LexFault::NoMemory
    }
}
