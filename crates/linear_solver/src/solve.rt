//! The solver: group by group.

ghost use Rattle.std.specs.Prelude.{◌≡◌, ◌≤◌, ◌<◌, ◌≤ℤ◌, IfOk, List, [], ◌∷◌, reverse, vec_len, All, true};
ghost use Rattle.cc_base.specs.Groups.{parts, groups, groups_of};
ghost use Rattle.cc_base.specs.Solve.{Right};
ghost use Rattle.linear_solver.specs.Answers.{Advanced, PartAdvanced, AloneAdvanced, BelowAll, Given, answer_of};
ghost use Rattle.linear_solver.specs.Atoms.{seen_form, seen_atom, seen_atoms, FitForm, FitAll};
ghost use Rattle.linear_solver.specs.Parts.{Wrote, all_backwards};
ghost use Rattle.linear_solver.specs.Standing.{Stands, Left};
ghost use Rattle.linear_solver.specs.Seen.{at_places};

use crate::atoms::LinearAtom;
use crate::group::{GroupAnswer, settle};
use crate::parts::{copy_atom, group_of, parts_of};
use crate::restore::value_at;
use cc_base::{Bounds, Items, NoMemory};
use std::alloc::{AllocError, Global};

/// What the solver answers.
#[derive(Drop)]
pub enum Solved {
    /// These numbers meet the atoms, by place; a place that no atom names has none.
    Sat(Items<Option<i32>>),
    /// A group whose Need is within the budget has no values.
    Unsat,
    /// No such group was found, and some group's Need is beyond the budget.
    Spent,
}

/// The answers so far, and whether a group was beyond the budget.
#[derive(Drop)]
pub struct Progress {
    pub answers: Vec<Option<i32>>,
    pub spent: bool,
}

/// Gives the places of a part their values.
fn write(answers: &mut Vec<Option<i32>>, part: &[u32], values: &[i32])
    requires { All (λ x. x < vec_len answers.old) part.now }
    ensures { Wrote (reverse part.now) (at_places values.now) answers.old.items answers.new.items }
{
    for x in part {
        answers[*x as usize] = Some(value_at(values, *x));
    }
}

/// Settles a group of the places `part`. True where it is refuted.
fn advance(
    alloc: Global,
    lo: i32,
    hi: i32,
    part: &[u32],
    group: &[LinearAtom],
    budget: u64,
    progress: &mut Progress,
) -> Result<bool, AllocError>
    requires order { lo ≤ℤ hi }
    requires fit { FitAll (seen_atoms group.now) }
    requires within { All (λ x. x < vec_len progress.old.answers) part.now }
    ensures { IfOk result (λ r. Advanced lo hi budget (reverse part.now)
        (seen_atoms group.now) progress.old.answers.items progress.old.spent progress.new.answers.items
        progress.new.spent r) }
{
    match settle(alloc, lo, hi, group, budget)? {
        GroupAnswer::Refuted => Ok(true),
        GroupAnswer::Values(values) => {
            write(&mut progress.answers, part, &values);
            Ok(false)
        }
        GroupAnswer::Beyond => {
            progress.spent = true;
            Ok(false)
        }
    }
}

/// Settles the group of a part, where that has places. True where it is refuted.
fn advance_part(
    alloc: Global,
    lo: i32,
    hi: i32,
    part: &[u32],
    atoms: &[LinearAtom],
    budget: u64,
    progress: &mut Progress,
) -> Result<bool, AllocError>
    requires order { lo ≤ℤ hi }
    requires fit { FitAll (seen_atoms atoms.now) }
    requires within { All (λ x. x < vec_len progress.old.answers) part.now }
    ensures { IfOk result (λ r. PartAdvanced lo hi budget (reverse part.now)
        (seen_atoms atoms.now) progress.old.answers.items progress.old.spent progress.new.answers.items
        progress.new.spent r) }
{
    if part.is_empty() {
        return Ok(false);
    }
    let group = group_of(alloc, part, atoms)?;
    let refuted = advance(alloc, lo, hi, part, &group, budget, progress)?;
    Ok(refuted)
}

/// Settles the groups of the parts, up to a refuted one. True where there is one.
fn settle_parts(
    alloc: Global,
    lo: i32,
    hi: i32,
    cut: &[Vec<u32>],
    atoms: &[LinearAtom],
    budget: u64,
    progress: &mut Progress,
) -> Result<bool, AllocError>
    requires order { lo ≤ℤ hi }
    requires fit { FitAll (seen_atoms atoms.now) }
    requires parts { all_backwards cut.now ≡ parts (seen_atoms atoms.now) }
    requires below { BelowAll (vec_len progress.old.answers) (seen_atoms atoms.now) }
    requires start { Stands lo hi budget (vec_len progress.old.answers) progress.old.answers.items progress.old.spent
        [] [] }
    ensures { IfOk result (λ r. Left lo hi budget
        (vec_len progress.old.answers) progress.new.answers.items progress.new.spent (parts (seen_atoms atoms.now))
        (groups_of (parts (seen_atoms atoms.now)) (seen_atoms atoms.now)) r) }
{
    for part in cut {
        if advance_part(alloc, lo, hi, part, atoms, budget, progress)? {
            return Ok(true);
        }
    }
    Ok(false)
}

/// Settles the group of an atom without place. True where it is refuted.
fn advance_alone(
    alloc: Global,
    lo: i32,
    hi: i32,
    a: &LinearAtom,
    budget: u64,
    progress: &mut Progress,
) -> Result<bool, AllocError>
    requires order { lo ≤ℤ hi }
    requires fit { FitForm (seen_form a.now) }
    ensures { IfOk result (λ r. AloneAdvanced lo hi budget
        (seen_atom a.now) progress.old.answers.items progress.old.spent progress.new.answers.items progress.new.spent
        r) }
{
    if !a.terms.is_empty() {
        return Ok(false);
    }
    let mut group = Vec::new(alloc);
    group.push(copy_atom(alloc, a)?)?;
    let refuted = advance(alloc, lo, hi, &[], &group, budget, progress)?;
    Ok(refuted)
}

/// Settles the atoms without place, up to a refuted one. True where there is one.
fn settle_alone(
    alloc: Global,
    lo: i32,
    hi: i32,
    atoms: &[LinearAtom],
    budget: u64,
    progress: &mut Progress,
) -> Result<bool, AllocError>
    requires order { lo ≤ℤ hi }
    requires fit { FitAll (seen_atoms atoms.now) }
    requires start { Stands lo hi budget (vec_len progress.old.answers) progress.old.answers.items progress.old.spent
        (parts (seen_atoms atoms.now)) (groups_of (parts (seen_atoms atoms.now)) (seen_atoms atoms.now)) }
    ensures { IfOk result (λ r. Left lo hi budget
        (vec_len progress.old.answers) progress.new.answers.items progress.new.spent (parts (seen_atoms atoms.now))
        (groups (seen_atoms atoms.now)) r) }
{
    for a in atoms {
        if advance_alone(alloc, lo, hi, a, budget, progress)? {
            return Ok(true);
        }
    }
    Ok(false)
}

/// Numbers in the bounds' `lo..hi` that meet the atoms, within a budget of work.
///
/// Two atoms are in one group where they share a place, directly or through others; an atom without place is a group
/// of its own. Each group is settled where its Need is at most the budget. An error means that memory was wanting.
pub fn solve_linear(
    alloc: Global,
    places: u32,
    atoms: &[LinearAtom],
    bounds: &Bounds,
    budget: u64,
) -> Result<Solved, NoMemory>
    requires fit { FitAll (seen_atoms atoms.now) }
    requires below { BelowAll places (seen_atoms atoms.now) }
    ensures right { IfOk result (λ s. Right (bounds.now).lo (bounds.now).hi budget (seen_atoms atoms.now)
        (answer_of s)) }
    ensures given { IfOk result (λ s. Given (bounds.now).lo (bounds.now).hi places (seen_atoms atoms.now) s) }
{
    let lo = bounds.lo();
    let hi = bounds.hi();
    let cut = parts_of(alloc, atoms)?;
    let mut progress = Progress {
        answers: vec![in alloc; None; places as usize]?,
        spent: false,
    };
    if settle_parts(alloc, lo, hi, &cut, atoms, budget, &mut progress)? {
        return Ok(Solved::Unsat);
    }
    if settle_alone(alloc, lo, hi, atoms, budget, &mut progress)? {
        return Ok(Solved::Unsat);
    }
    if progress.spent {
        return Ok(Solved::Spent);
    }
    Ok(Solved::Sat(Items::from_vec(progress.answers)))
}
