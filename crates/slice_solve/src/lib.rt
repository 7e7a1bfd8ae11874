//! The slice of an alternative, solved.
#![tactic(auto)]

pub mod joins;
pub mod linear;
pub mod slice;

pub use slice::solve_slice;
