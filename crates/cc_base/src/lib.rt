//! What the tool's layers speak of that knows no C: outcomes, paths, ends, bounds, inputs, tests and their texts.
#![tactic(auto)]

pub mod bounds;
pub mod cells;
pub mod ends;
pub mod forms;
pub mod inputs;
pub mod memory;
pub mod outcomes;
pub mod passes;

pub use bounds::Bounds;
pub use cells::{CellTy, TyId};
pub use ends::{End, FaultKind};
pub use forms::Multiple;
pub use inputs::{Input, PathText, Test, Text};
pub use memory::NoMemory;
pub use outcomes::Outcome;
pub use passes::{Mode, PassEnd};
pub use sqlite_items::{Boxed, Items};
