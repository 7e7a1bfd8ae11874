//! One group of atoms.

ghost use Rattle.std.specs.Prelude.{◌≡◌, ◌≤◌, ◌<◌, ◌+◌, ◌-ℤ◌, ◌≤ℤ◌, IfOk, IfSome, List, [], ◌∷◌, length};
ghost use Rattle.cc_base.specs.Groups.{places_in};
ghost use Rattle.cc_base.specs.Need.{width, box};
ghost use Rattle.linear_solver.specs.Atoms.{seen_atoms, FitAll};
ghost use Rattle.linear_solver.specs.Settled.{Settles};

use crate::atoms::LinearAtom;
use crate::box_search::{is_within, power, search_box};
use crate::choice::Tried;
use crate::elimination::elimination_of;
use crate::holding::hold_all;
use crate::one_place::search_place;
use crate::places::places_of;
use std::alloc::{AllocError, Global};

/// What is known of a group within the budget.
#[derive(Drop)]
pub enum GroupAnswer {
    /// These values, by place, meet it.
    Values(Vec<i32>),
    /// No values meet it.
    Refuted,
    /// Its Need is beyond the budget.
    Beyond,
}

/// A group without place.
fn settle_none(
    alloc: Global,
    lo: i32,
    hi: i32,
    atoms: &[LinearAtom],
    budget: u64,
) -> Result<GroupAnswer, AllocError>
    requires fit { FitAll (seen_atoms atoms.now) }
    requires places { [] ≡ places_in (seen_atoms atoms.now) }
    ensures { IfOk result (λ r. Settles lo hi budget (seen_atoms atoms.now) r) }
{
    if budget < 1 {
        return Ok(GroupAnswer::Beyond);
    }
    let values = Vec::new(alloc);
    if hold_all(atoms, &values) {
        return Ok(GroupAnswer::Values(values));
    }
    drop(values);
    Ok(GroupAnswer::Refuted)
}

/// A group of one place.
fn settle_one(
    alloc: Global,
    lo: i32,
    hi: i32,
    place: u32,
    atoms: &[LinearAtom],
    budget: u64,
) -> Result<GroupAnswer, AllocError>
    requires fit { FitAll (seen_atoms atoms.now) }
    requires places { place ∷ [] ≡ places_in (seen_atoms atoms.now) }
    ensures { IfOk result (λ r. Settles lo hi budget (seen_atoms atoms.now) r) }
{
    if atoms.len() as u64 >= budget {
        return Ok(GroupAnswer::Beyond);
    }
    match search_place(alloc, lo, hi, place, atoms)? {
        Some(values) => Ok(GroupAnswer::Values(values)),
        None => Ok(GroupAnswer::Refuted),
    }
}

/// How many values a place has.
fn width_of(lo: i32, hi: i32) -> u64
    requires { lo ≤ℤ hi }
    ensures { result ≡ width lo hi }
{
    (hi as i64 - lo as i64) as u64 + 1
}

/// A group of more places, whose box is within the budget.
fn settle_box(
    alloc: Global,
    lo: i32,
    hi: i32,
    atoms: &[LinearAtom],
    places: &[u32],
    budget: u64,
) -> Result<GroupAnswer, AllocError>
    requires order { lo ≤ℤ hi }
    requires fit { FitAll (seen_atoms atoms.now) }
    requires places { places.now ≡ places_in (seen_atoms atoms.now) }
    requires several { 2 ≤ length places.now }
    requires within { box lo hi (seen_atoms atoms.now) ≤ budget }
    ensures { IfOk result (λ r. Settles lo hi budget (seen_atoms atoms.now) r) }
{
    let width = width_of(lo, hi);
    let count = power(width, places.len(), budget);
    match search_box(alloc, lo, width, count, places, atoms)? {
        Some(values) => Ok(GroupAnswer::Values(values)),
        None => Ok(GroupAnswer::Refuted),
    }
}

/// A group of more places, whose box is beyond the budget.
fn settle_by_elimination(
    alloc: Global,
    lo: i32,
    hi: i32,
    atoms: &[LinearAtom],
    places: &[u32],
    budget: u64,
) -> Result<GroupAnswer, AllocError>
    requires fit { FitAll (seen_atoms atoms.now) }
    requires places { places.now ≡ places_in (seen_atoms atoms.now) }
    requires several { 2 ≤ length places.now }
    requires beyond { budget < box lo hi (seen_atoms atoms.now) }
    ensures { IfOk result (λ r. Settles lo hi budget (seen_atoms atoms.now) r) }
{
    match elimination_of(alloc, lo, hi, atoms, places, budget)? {
        Tried::Beyond => Ok(GroupAnswer::Beyond),
        Tried::Found(_, values) => Ok(GroupAnswer::Values(values)),
        Tried::Closed(_) => Ok(GroupAnswer::Refuted),
        Tried::Undecided(_) => Ok(GroupAnswer::Beyond),
    }
}

/// Settles a group.
pub fn settle(
    alloc: Global,
    lo: i32,
    hi: i32,
    atoms: &[LinearAtom],
    budget: u64,
) -> Result<GroupAnswer, AllocError>
    requires order { lo ≤ℤ hi }
    requires fit { FitAll (seen_atoms atoms.now) }
    ensures { IfOk result (λ r. Settles lo hi budget (seen_atoms atoms.now) r) }
{
    let places = places_of(alloc, atoms)?;
    if places.is_empty() {
        let answer = settle_none(alloc, lo, hi, atoms, budget)?;
        return Ok(answer);
    }
    if places.len() == 1 {
        let place = places[0];
        let answer = settle_one(alloc, lo, hi, place, atoms, budget)?;
        return Ok(answer);
    }
    if is_within(
        atoms.len() as u64 + 1,
        width_of(lo, hi),
        places.len(),
        budget,
    ) {
        let answer = settle_box(alloc, lo, hi, atoms, &places, budget)?;
        return Ok(answer);
    }
    let answer = settle_by_elimination(alloc, lo, hi, atoms, &places, budget)?;
    Ok(answer)
}
