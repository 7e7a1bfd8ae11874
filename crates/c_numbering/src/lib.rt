//! The types of a checked program by their numbers, and their cells.
#![tactic(auto)]

mod layouts;
pub mod numbering;
mod sigs;
mod table;

pub use numbering::{Numbering, number_types};
