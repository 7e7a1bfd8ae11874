//! The parser of declarations, statements and blocks.
#![tactic(auto)]

pub mod declarations;
pub mod openings;
pub mod simple;
pub mod statements;
