//! Places among the tokens.

/// The index of the next token, and how many tokens are open there.
#[derive(Clone, Copy)]
pub struct Spot {
    pub at: u32,
    pub level: u32,
}
