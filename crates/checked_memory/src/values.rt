//! What a cell of memory holds.

/// A value of a run.
#[derive(Clone, Copy, Debug, PartialEq, Eq)]
pub enum Value {
    /// A number.
    Int(i64),
    /// The pointer NULL.
    Null,
    /// A pointer into an object that the program made: the object's number, and an offset in cells.
    Made(u32, u32),
    /// A pointer into a block of the input: the block's address, and an offset in cells.
    Block(i64, u32),
}

/// A cell of memory.
#[derive(Clone, Copy, Debug, PartialEq, Eq)]
pub struct Cell {
    pub value: Value,
    /// The number of a symbolic value of the run.
    pub shadow: u32,
}
