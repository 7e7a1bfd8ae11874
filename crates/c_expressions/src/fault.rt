//! Why tokens are not parsed.

ghost use Rattle.std.specs.Prelude.{◌≡◌};
ghost use Rattle.c_expressions.specs.declared.fault.ParseFault.TheVariants.{NoMemory};

use std::alloc::AllocError;
use thiserror::Error;

/// Why no program is given. A number is a token's index, from 0; one that is the number of the tokens is the end of the
/// file. So far it is promised that the tokens are no accepted program, and not which of the two faults is named, nor
/// where.
#[derive(Clone, Copy, Debug, Error)]
pub enum ParseFault {
    /// The tokens are no program of the grammar: no rule takes this one.
    #[error("syntax error at token {0}")]
    Syntax(u32),
    /// The level of this token is above 200.
    #[error("token {0} is nested too deeply")]
    TooDeep(u32),
    /// Memory ran out.
    #[error("out of memory")]
    NoMemory,
}

impl From<AllocError> for ParseFault {
    ghost from_gives = { λ _ f. f ≡ NoMemory };

    fn from(_error: AllocError) -> ParseFault {
        ParseFault::NoMemory
    }
}
