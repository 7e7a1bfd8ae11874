//! The slice of an alternative, and numbers that meet it.

ghost use Rattle.std.specs.Prelude.{◌≡◌, ◌<◌, ◌+◌, ◌^◌, length, IfOk};
ghost use Rattle.cc_base.specs.Slice.{slice_of};
ghost use Rattle.cc_base.specs.Solve.{Right};
ghost use Rattle.linear_solver.specs.Answers.{Below, BelowAll, Given, answer_of};
ghost use Rattle.sym_expr.specs.AtomsSeen.{atoms_of};
ghost use Rattle.sym_expr.specs.TermsSeen.{multiples_of};
ghost use Rattle.slice_solve.specs.Joins.{first_is_null, met};
ghost use Rattle.slice_solve.specs.Linear.{AreLinear};

use crate::joins::{classes_of, terms_of};
use crate::linear::{linear_of, push_linear};
use cc_base::{Bounds, NoMemory};
use linear_solver::{LinearAtom, Solved, solve_linear};
use std::alloc::{AllocError, Global};
use sym_expr::{Atom, FormTerm};

/// Whether there is a first place, in NULL's class.
fn is_met(classes: &[u32], terms: &[FormTerm]) -> bool
    requires { Below (length classes.now) (multiples_of terms.now) }
    ensures { result ≡ first_is_null classes.now (multiples_of terms.now) }
{
    match terms.first() {
        Some(first) => classes[first.place.0 as usize] == 0,
        None => false,
    }
}

/// The atoms of the condition whose first place is in NULL's class.
fn met_of(alloc: Global, classes: &[u32], condition: &[Atom]) -> Result<Vec<LinearAtom>, AllocError>
    requires { BelowAll (length classes.now) (atoms_of condition.now) }
    ensures { IfOk result (λ v. AreLinear (met classes.now (atoms_of condition.now)) v.items) }
{
    let mut out = Vec::new(alloc);
    for atom in condition {
        if is_met(classes, terms_of(atom)) {
            out.push(linear_of(alloc, atom)?)?;
        }
    }
    Ok(out)
}

/// The slice of the alternative.
fn slice(
    alloc: Global,
    places: u32,
    condition: &[Atom],
    alternative: &[Atom],
) -> Result<Vec<LinearAtom>, NoMemory>
    requires few { length condition.now + length alternative.now < 2 ^ 28 }
    requires condition { BelowAll places (atoms_of condition.now) }
    requires alternative { BelowAll places (atoms_of alternative.now) }
    ensures { IfOk result (λ v. AreLinear (slice_of (atoms_of condition.now) (atoms_of alternative.now)) v.items) }
{
    let classes = classes_of(alloc, places, condition, alternative)?;
    let mut out = met_of(alloc, classes.as_slice(), condition)?;
    push_linear(alloc, &mut out, alternative)?;
    Ok(out)
}

/// Numbers in the bounds that meet the slice of an alternative: its own atoms, and those atoms of the condition that
/// share places with them, directly or through others.
pub fn solve_slice(
    alloc: Global,
    places: u32,
    condition: &[Atom],
    alternative: &[Atom],
    bounds: &Bounds,
    budget: u64,
) -> Result<Solved, NoMemory>
    requires few { length condition.now + length alternative.now < 2 ^ 28 }
    requires condition { BelowAll places (atoms_of condition.now) }
    requires alternative { BelowAll places (atoms_of alternative.now) }
    ensures right { IfOk result (λ s. Right (bounds.now).lo (bounds.now).hi budget
        (slice_of (atoms_of condition.now) (atoms_of alternative.now)) (answer_of s)) }
    ensures given { IfOk result (λ s. Given (bounds.now).lo (bounds.now).hi places
        (slice_of (atoms_of condition.now) (atoms_of alternative.now)) s) }
{
    let atoms = slice(alloc, places, condition, alternative)?;
    solve_linear(alloc, places, &atoms, bounds, budget)
}
