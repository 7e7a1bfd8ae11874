//! A pass with a counter.

ghost use Rattle.std.specs.Prelude.{◌≡◌, ◌≤◌, ◌+◌, ◌<◌, ◌^◌, IfOk, length};
ghost use Rattle.cc_base.specs.Pass.{pairs, eliminate, ready, pass, turns};
ghost use Rattle.linear_solver.specs.Ordered.{SafeAll};
ghost use Rattle.linear_solver.specs.Seen.{seen_all, seen_counted, counted, Leaves};
ghost use Rattle.linear_solver.specs.Trail.{trail_of};

use crate::eliminate::{eliminate_of, pairs_of};
use crate::inequalities::Inequality;
use crate::ready::{Ready, ready_of};
use cc_base::{Mode, PassEnd};
use std::alloc::{AllocError, Global};

/// A turn: its place, and the list from which it was taken.
#[derive(Drop)]
pub struct Step {
    pub place: u32,
    pub list: Vec<Inequality>,
}

/// How a pass with a counter ends, and its turns.
#[derive(Drop)]
pub enum Counted {
    Over,
    Done(PassEnd, u64, Vec<Step>),
}

/// A pass over `list`, which speaks of at most `n` places, after `spent`.
pub fn pass_of(
    alloc: Global,
    mode: Mode,
    n: usize,
    list: Vec<Inequality>,
    spent: u64,
    budget: u64,
) -> Result<Counted, AllocError>
    requires places { n < 2 ^ 62 }
    requires within { spent ≤ budget }
    requires safe { SafeAll (seen_all list.items) }
    ensures count { IfOk result (λ r. seen_counted r ≡ counted spent budget (pass mode n (seen_all list.items))) }
    ensures turns { IfOk result (λ r. Leaves r (trail_of mode (n + 1) (seen_all list.items))) }
{
    if list.len() as u64 > budget - spent {
        drop(list);
        return Ok(Counted::Over);
    }
    let mut used = spent + list.len() as u64;
    let mut trail = Vec::new(alloc);
    let mut rest = list;
    let mut left = n + 1;
    'turns: while left > 0 {
        match ready_of(alloc, rest)? {
            Ready::Ended(end) => return Ok(Counted::Done(end, used, trail)),
            Ready::Going(place, going) => {
                let count = pairs_of(place, &going);
                if count > (budget - used) as u128 {
                    drop(going);
                    drop(trail);
                    return Ok(Counted::Over);
                }
                used += count as u64;
                rest = eliminate_of(alloc, mode, place, &going)?;
                trail.push(Step { place, list: going })?;
                left -= 1;
            }
        }
    }
    drop(rest);
    Ok(Counted::Done(PassEnd::Open, used, trail))
}
