//! The passes of the solver of linear atoms over bounded integers.

/// How a pass takes a place out of its inequalities.
#[derive(Clone, Copy, Debug, PartialEq, Eq)]
pub enum Mode {
    /// What it leaves follows from what it had: where nothing meets the rest, nothing met the list.
    Real,
    /// What it leaves is stronger than what it had: where something meets the rest, something meets the list.
    Dark,
}

/// How a pass ends.
#[derive(Clone, Copy, Debug, PartialEq, Eq)]
pub enum PassEnd {
    /// A number grew too wide, and nothing is known.
    Open,
    /// An inequality without places is false.
    Empty,
    /// No inequality is left.
    Full,
}
