//! Inputs of the tested function, and tests.

use crate::ends::End;
use crate::outcomes::Outcome;
use sqlite_items::Items;

/// The outcomes of a run, in order.
pub type PathText = Items<Outcome>;

/// A text, as its bytes.
pub type Text = Items<u8>;

/// An input: the cells at addresses 1, 2, .. and the numbers that `CREST_int` takes, in order.
///
/// The parameters' cells come first. A pointer's cell holds 0 for NULL, or the address of a block's first cell.
#[derive(Debug, Drop)]
pub struct Input {
    pub cells: Items<i64>,
    pub stream: Items<i32>,
}

/// A reported test: the path that the input's run takes, and how the run ends.
#[derive(Debug, Drop)]
pub struct Test {
    pub path: PathText,
    pub end: End,
    pub input: Input,
}
