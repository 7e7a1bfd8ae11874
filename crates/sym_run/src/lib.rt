//! The concrete and symbolic run of a program's code on an input.
#![tactic(auto)]

pub mod access;
pub mod acted;
pub mod asked;
pub mod calls;
pub mod decisions;
pub mod events;
mod globals;
mod inside;
pub mod instructions;
pub mod journal;
pub mod machine;
pub mod memory_instructions;
pub mod number_acts;
pub mod number_events;
pub mod number_instructions;
pub mod numbers;
pub mod objects;
pub mod operations;
mod params;
pub mod pointer_events;
mod start;
pub mod steps;
pub mod symbols;
pub mod trace;
mod whole_run;

pub use acted::Acted;
pub use asked::Asked;
pub use journal::{Journal, same_outcome};
pub use machine::{Fixed, Machine};
pub use number_acts::Decided;
pub use numbers::{Comparison, Operation};
pub use objects::{First, Objects};
pub use operations::Formed;
pub use symbols::{Symbol, Symbols};
pub use trace::{Choice, Event, Term, Trace};
pub use whole_run::run;
