//! The words of the command line, and the command that they give.
#![tactic(auto)]

mod options;
mod values;
mod words;

pub use words::{one_command, read_words};
