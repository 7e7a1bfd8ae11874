//! The parser, from its state to expressions: which tokens are an expression, and of which tree.
#![tactic(auto)]

pub mod expressions;
pub mod fault;
pub mod operators;
pub mod parser;
pub mod spot;
pub mod starts;
pub mod types;

pub use fault::ParseFault;
pub use parser::Parser;
pub use spot::Spot;
