//! What stands in a program's trees, from left to right: the tokens of its expressions, and its sites.
#![tactic(auto)]

mod form;
mod statements;
mod walk;

pub use walk::{Mark, Walk, expression_tokens, marks, walked};
