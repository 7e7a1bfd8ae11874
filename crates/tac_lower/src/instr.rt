//! The instructions of three-address code.

use cc_model::SiteId;
use cc_model::base::{FaultKind, TyId};

/// How two values are compared.
#[derive(Clone, Copy)]
pub enum Comparison {
    Equal,
    Unequal,
    Less,
    Greater,
    AtMost,
    AtLeast,
}

/// An instruction. A `u32` is a temporary where its comment says nothing else; `dst` is where the result goes.
#[derive(Clone, Copy)]
pub enum Instr {
    /// One step.
    Step,
    /// `dst` and the number.
    Number(u32, i32),
    /// NULL into `dst`.
    Nil(u32),
    /// `dst` and what is copied.
    Copy(u32, u32),
    /// `dst` and the operands, as in the next four.
    Add(SiteId, u32, u32, u32),
    Sub(SiteId, u32, u32, u32),
    Mul(SiteId, u32, u32, u32),
    Quot(SiteId, u32, u32, u32),
    Rem(SiteId, u32, u32, u32),
    /// The divisor event of a quotient or remainder, with both operands.
    Divisor(SiteId, u32, u32),
    /// `dst` and the operand.
    Neg(SiteId, u32, u32),
    /// `dst`, which gets 1 or 0, and the operands.
    Compare(SiteId, Comparison, u32, u32, u32),
    /// `dst`, which gets 1 or 0, and what is tested.
    Truth(SiteId, u32, u32),
    /// `dst` and the slot.
    Slot(u32, u32),
    /// `dst` and the cell of the globals.
    Glob(u32, u32),
    /// `dst` and the pointer.
    Access(SiteId, u32, u32),
    /// `dst`, the pointer, and how many cells further.
    Offset(u32, u32, u32),
    /// `dst`, the pointer, the index, the array's length, and the cells of an element.
    Index(SiteId, u32, u32, u32, u32, u32),
    /// `dst` and the pointer.
    Load(u32, u32),
    /// The pointer and what is stored.
    Store(u32, u32),
    /// The slot and the type of a new local.
    Local(u32, TyId),
    /// `dst` and the type of a new object.
    Malloc(u32, TyId),
    /// The pointer to where the next number of the stream is written.
    Take(u32),
    /// The place that comes next.
    Jump(u32),
    /// What is tested, and the place that comes next where it is 0.
    JumpZero(u32, u32),
    /// `dst`, the function, the first argument, and the number of arguments.
    Call(u32, u32, u32, u32),
    /// The result.
    Return(u32),
    /// The fault, and its line.
    Stop(FaultKind, u32),
    /// What is tested: the run ends as `assume` where it is 0.
    Unless(u32),
}
