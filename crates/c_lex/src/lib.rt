//! The tokens of a C source.
#![tactic(auto)]

mod classes;
mod faults;
mod gaps;
mod lexer;
mod numbers;
mod pieces;
mod places;
mod signs;
mod words;

pub use faults::LexFault;
pub use lexer::lex;
