//! From a run, one of its events and another outcome there: an input that takes it.
#![tactic(auto)]

mod blocks;
pub mod flipping;
mod gathering;
mod numbers;
mod solving;

pub use flipping::{Turned, turn};
