//! Why a search or a walk is refused.

use cc_model::base::NoMemory;
use std::alloc::AllocError;
use thiserror::Error;

/// Why a search or a walk ended early.
#[derive(Clone, Copy, Debug, Error)]
pub enum SearchFault {
    /// The sink failed.
    #[error("the output can't be written")]
    Sink,
    #[error("out of memory")]
    NoMemory,
}

impl From<NoMemory> for SearchFault {
    ghost use Rattle.std.specs.Prelude.{◌≡◌};
    ghost use Rattle.search_base.specs.declared.fault.SearchFault.TheVariants as fault;

    ghost from_gives = { λ _ e. e ≡ fault.NoMemory };

    fn from(_error: NoMemory) -> Self {
        SearchFault::NoMemory
    }
}

impl From<AllocError> for SearchFault {
    ghost use Rattle.std.specs.Prelude.{◌≡◌};
    ghost use Rattle.search_base.specs.declared.fault.SearchFault.TheVariants as fault;

    ghost from_gives = { λ _ e. e ≡ fault.NoMemory };

    fn from(_error: AllocError) -> Self {
        SearchFault::NoMemory
    }
}
