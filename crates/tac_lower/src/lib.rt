//! Three-address code of a program.
#![tactic(auto)]

mod bodies;
mod emit;
mod expressions;
mod finish;
mod flow;
mod form;
mod functions;
pub mod instr;
mod known;
mod laws;
mod lowering;
mod simple;
mod statements;
mod tables;
pub mod tac;

pub use instr::{Comparison, Instr};
pub use laws::{a_code_has_one_run, code_does_what_the_program_does};
pub use lowering::lower;
pub use tac::{Tac, TacFunc};
