//! The cells of memory.

/// A type of the tested program, by its number in the program's list of types.
#[derive(Clone, Copy, Debug, PartialEq, Eq)]
pub struct TyId(pub u32);

/// What a cell holds: an `int`, or a pointer to a type.
#[derive(Clone, Copy, Debug, PartialEq, Eq)]
pub enum CellTy {
    Int,
    Ptr(TyId),
}
