//! What a search has from its start.

use cc_model::Checked;
use cc_model::base::{Bounds, PathText};
use std::alloc::Global;
use tac_lower::Tac;

/// What a search has from its start: a checked program with its code, the bounds, how many runs may be made, of which
/// there is one at least, the budget of a solve, and the path after which it goes on.
#[derive(Clone, Copy)]
pub struct Task<'a> {
    pub alloc: Global,
    pub checked: &'a Checked,
    pub tac: &'a Tac,
    pub bounds: &'a Bounds,
    pub limit: u32,
    pub budget: u64,
    pub after: Option<&'a PathText>,
}
