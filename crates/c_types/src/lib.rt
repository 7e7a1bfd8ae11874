//! The checker: which programs are well typed, and their types, names and sites.
#![tactic(auto)]

mod checker;
mod least;
mod reading;
mod resolved;
mod sites;

pub use checker::{TypeFault, check};
