//! What a walk has from its start.

use cc_model::Checked;
use cc_model::base::Bounds;
use std::alloc::Global;
use tac_lower::Tac;

/// What a walk walks through, and how far.
#[derive(Clone, Copy)]
pub struct Task<'a> {
    pub alloc: Global,
    pub checked: &'a Checked,
    pub tac: &'a Tac,
    pub bounds: &'a Bounds,
    /// So many runs are made at most.
    pub limit: u32,
    /// The work that each group of a solve may take.
    pub budget: u64,
}
