//! How a run ends.

use std::fmt;

/// Why a run ends as a fault.
#[derive(Clone, Copy, Debug, PartialEq, Eq)]
pub enum FaultKind {
    /// The result of an operation does not fit 32 bits.
    Overflow,
    /// An access through NULL.
    Null,
    /// A divisor of 0.
    Divide,
    /// An index outside its array.
    Index,
    /// An `assert` of a false value.
    Assert,
    /// A call of `abort`.
    Abort,
}

/// How a run ends.
#[derive(Clone, Copy, Debug, PartialEq, Eq)]
pub enum End {
    /// The entry returned.
    Return,
    /// An `assume` of a false value.
    Assume,
    /// One more event than the depth allows would have come.
    Cut,
    /// One more input object than the bound allows was accessed.
    Objects,
    /// One more step than the bound allows would have come.
    Steps,
    /// A fault, with its line, from 1.
    Fault(FaultKind, u32),
}

impl fmt::Display for FaultKind {
    ghost use Rattle.std.specs.Prelude.{Some};
    ghost use Rattle.cc_base.specs.Ends.{fault_text};

    ghost output = { λ k. Some (fault_text k) };

    fn fmt<W: fmt::Write>(&self, f: &mut fmt::Formatter<W>) -> fmt::Result {
        f.write_str(match self {
            FaultKind::Overflow => "overflow",
            FaultKind::Null => "null",
            FaultKind::Divide => "divide",
            FaultKind::Index => "index",
            FaultKind::Assert => "assert",
            FaultKind::Abort => "abort",
        })
    }
}

/// `return`, `assume`, `cut`, `objects`, `steps`, or the fault and its line, as `null@7`.
impl fmt::Display for End {
    ghost use Rattle.std.specs.Prelude.{Some};
    ghost use Rattle.cc_base.specs.Ends.{end_text};

    ghost output = { λ e. Some (end_text e) };

    fn fmt<W: fmt::Write>(&self, f: &mut fmt::Formatter<W>) -> fmt::Result {
        match self {
            End::Return => f.write_str("return"),
            End::Assume => f.write_str("assume"),
            End::Cut => f.write_str("cut"),
            End::Objects => f.write_str("objects"),
            End::Steps => f.write_str("steps"),
            End::Fault(kind, line) => write!(f, "{kind}@{line}"),
        }
    }
}
