//! Elimination: passes over the inequalities of a group of atoms, and the choices of its disequalities.

ghost use Rattle.std.specs.Prelude.{◌≡◌, ◌≤◌, ◌+◌, ◌++◌, pos, ◌≤ℤ◌, IfOk, OnOk, List, [], ◌∷◌};
ghost use Rattle.cc_base.specs.Groups.{places_in};
ghost use Rattle.cc_base.specs.Need.{bounds, written, all_written, first_list, elimination, disequalities};
ghost use Rattle.linear_solver.specs.Atoms.{seen_form, seen_atom, seen_atoms, FitForm, FitAll};
ghost use Rattle.linear_solver.specs.Counts.{tried_count, seen_tried, FoundMeets};
ghost use Rattle.linear_solver.specs.Seen.{seen, seen_all, single};

use crate::atoms::{LinearAtom, Sign, at_least_of, at_most_of};
use crate::choice::{Tried, tried_of};
use crate::inequalities::{Inequality, copy_all};
use crate::pass::{Counted, pass_of};
use cc_base::{Mode, Multiple, PassEnd};
use std::alloc::{AllocError, Global};

/// Adds the inequalities of an atom: one of a bound, two of an equation.
fn write_atom(alloc: Global, out: &mut Vec<Inequality>, a: &LinearAtom) -> Result<(), AllocError>
    requires { FitForm (seen_form a.now) }
    ensures { OnOk result (seen_all out.new.items ≡ seen_all out.old.items ++ written (seen_atom a.now)) }
{
    match a.sign {
        Sign::NotZero => Ok(()),
        Sign::AtMostZero => {
            out.push(at_most_of(alloc, a, 0)?)?;
            Ok(())
        }
        Sign::Zero => {
            out.push(at_most_of(alloc, a, 0)?)?;
            out.push(at_least_of(alloc, a, 0)?)?;
            Ok(())
        }
    }
}

/// A multiple of a place is at most a number.
fn one_term(
    alloc: Global,
    place: u32,
    coefficient: i128,
    most: i128,
) -> Result<Inequality, AllocError>
    ensures { IfOk result (λ r. seen r ≡ single place coefficient most) }
{
    let mut terms = Vec::new(alloc);
    terms.push(Multiple { place, coefficient })?;
    Ok(Inequality { terms, most })
}

/// Adds the bounds of a place.
fn write_bounds(
    alloc: Global,
    out: &mut Vec<Inequality>,
    lo: i32,
    hi: i32,
    place: u32,
) -> Result<(), AllocError>
    ensures { OnOk result (seen_all out.new.items ≡ seen_all out.old.items ++ bounds lo hi (place ∷ [])) }
{
    out.push(one_term(alloc, place, 1, hi as i128)?)?;
    out.push(one_term(alloc, place, -1, -(lo as i128))?)?;
    Ok(())
}

/// Adds the inequalities of the atoms.
fn write_atoms(
    alloc: Global,
    out: &mut Vec<Inequality>,
    atoms: &[LinearAtom],
) -> Result<(), AllocError>
    requires { FitAll (seen_atoms atoms.now) }
    ensures { OnOk result (seen_all out.new.items ≡ seen_all out.old.items ++ all_written (seen_atoms atoms.now)) }
{
    for a in atoms {
        write_atom(alloc, out, a)?;
    }
    Ok(())
}

/// The inequalities with which elimination begins.
fn first_list_of(
    alloc: Global,
    lo: i32,
    hi: i32,
    atoms: &[LinearAtom],
    places: &[u32],
) -> Result<Vec<Inequality>, AllocError>
    requires fit { FitAll (seen_atoms atoms.now) }
    requires places { places.now ≡ places_in (seen_atoms atoms.now) }
    ensures { IfOk result (λ r. seen_all r.items ≡ first_list lo hi (seen_atoms atoms.now)) }
{
    let mut out = Vec::new(alloc);
    write_atoms(alloc, &mut out, atoms)?;
    for x in places {
        write_bounds(alloc, &mut out, lo, hi, *x)?;
    }
    Ok(out)
}

/// Elimination within a budget.
pub fn elimination_of(
    alloc: Global,
    lo: i32,
    hi: i32,
    atoms: &[LinearAtom],
    places: &[u32],
    budget: u64,
) -> Result<Tried, AllocError>
    requires fit { FitAll (seen_atoms atoms.now) }
    requires places { places.now ≡ places_in (seen_atoms atoms.now) }
    ensures count { IfOk result (λ r. seen_tried r ≡ tried_count 0 budget (elimination lo hi (seen_atoms atoms.now))) }
    ensures values { IfOk result (λ r. FoundMeets r (first_list lo hi (seen_atoms atoms.now))
        (disequalities (seen_atoms atoms.now))) }
{
    let first = first_list_of(alloc, lo, hi, atoms, places)?;
    let n = places.len();
    match pass_of(alloc, Mode::Real, n, copy_all(alloc, &first)?, 0, budget)? {
        Counted::Over => Ok(Tried::Beyond),
        Counted::Done(end, spent, trail) => {
            drop(trail);
            match end {
                PassEnd::Empty => Ok(Tried::Closed(spent)),
                PassEnd::Full => {
                    let choices = tried_of(alloc, n, &first, atoms, 0, spent, budget)?;
                    Ok(choices)
                }
                PassEnd::Open => {
                    let choices = tried_of(alloc, n, &first, atoms, 0, spent, budget)?;
                    Ok(choices)
                }
            }
        }
    }
}
