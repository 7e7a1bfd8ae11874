//! What an event gives.

use crate::asked::Asked;
use cc_model::base::Outcome;
use checked_memory::Cell;

/// What an event gives: its outcome, what it asks, and its value where the run goes on.
#[derive(Drop)]
pub struct Acted {
    pub outcome: Outcome,
    pub asked: Asked,
    pub cell: Cell,
}
