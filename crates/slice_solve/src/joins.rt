//! Equalities that join the places of atoms, and their classes.

ghost use Rattle.std.specs.Prelude.{◌≡◌, ◌≤◌, ◌<◌, ◌+◌, ◌*◌, ◌^◌, ◌++◌, length, IfOk, OnOk};
ghost use Rattle.cc_base.specs.Classes.{AreClasses};
ghost use Rattle.cc_base.specs.Groups.{form_of};
ghost use Rattle.linear_solver.specs.Answers.{BelowAll};
ghost use Rattle.sym_expr.specs.AtomsSeen.{side_of, atom_of, atoms_of};
ghost use Rattle.sym_expr.specs.TermsSeen.{multiples_of};
ghost use Rattle.slice_solve.specs.Joins.{joined_to, joined, all_joined, all_null, joins};

use cc_base::NoMemory;
use pointer_solver::{Classes, PointerFault, solve_pointers};
use std::alloc::{AllocError, Global};
use sym_expr::{Atom, FormTerm, PtrTerm};

/// The terms of an atom; a pointer atom has none.
pub fn terms_of(atom: &Atom) -> &[FormTerm]
    ensures terms { multiples_of result.now ≡ (form_of (atom_of atom.now)).terms }
    ensures few { length result.now ≤ 16 }
{
    match atom {
        Atom::Le(form) => form.terms(),
        Atom::Eq(form) => form.terms(),
        Atom::Ne(form) => form.terms(),
        Atom::Same(_, _) => &[],
        Atom::Differ(_, _) => &[],
    }
}

/// States that each place of the terms is the same as a side.
fn join_to(joins: &mut Vec<Atom>, side: PtrTerm, terms: &[FormTerm]) -> Result<(), AllocError>
    ensures joined { OnOk result (atoms_of joins.new.items
        ≡ atoms_of joins.old.items ++ joined_to (side_of side) (multiples_of terms.now)) }
    ensures len { OnOk result (length joins.new.items ≡ length joins.old.items + length terms.now) }
{
    for term in terms {
        joins.push(Atom::Same(side, PtrTerm::At(term.place)))?;
    }
    Ok(())
}

/// States that the places of an atom are the same as its first.
fn join(joins: &mut Vec<Atom>, atom: &Atom) -> Result<(), AllocError>
    ensures joined { OnOk result (atoms_of joins.new.items
        ≡ atoms_of joins.old.items ++ joined (form_of (atom_of atom.now)).terms) }
    ensures len { OnOk result (length joins.new.items ≤ length joins.old.items + 16) }
{
    let terms = terms_of(atom);
    if let Some(first) = terms.first() {
        join_to(joins, PtrTerm::At(first.place), terms)?;
    }
    Ok(())
}

/// States so of each atom of the condition.
fn join_all(joins: &mut Vec<Atom>, condition: &[Atom]) -> Result<(), AllocError>
    ensures joined { OnOk result (atoms_of joins.new.items
        ≡ atoms_of joins.old.items ++ all_joined (atoms_of condition.now)) }
    ensures len { OnOk result (length joins.new.items ≤ length joins.old.items + 16 * length condition.now) }
{
    for atom in condition {
        join(joins, atom)?;
    }
    Ok(())
}

/// States that the places of the alternative are the same as NULL.
fn join_to_null(joins: &mut Vec<Atom>, alternative: &[Atom]) -> Result<(), AllocError>
    ensures joined { OnOk result (atoms_of joins.new.items
        ≡ atoms_of joins.old.items ++ all_null (atoms_of alternative.now)) }
    ensures len { OnOk result (length joins.new.items ≤ length joins.old.items + 16 * length alternative.now) }
{
    for atom in alternative {
        join_to(joins, PtrTerm::Null, terms_of(atom))?;
    }
    Ok(())
}

/// Equalities by which the places that share a slice with the alternative are the same as NULL.
fn joins_of(
    alloc: Global,
    condition: &[Atom],
    alternative: &[Atom],
) -> Result<Vec<Atom>, AllocError>
    ensures joined { IfOk result (λ v. atoms_of v.items ≡ joins (atoms_of condition.now) (atoms_of alternative.now)) }
    ensures len { IfOk result (λ v. length v.items ≤ 16 * (length condition.now + length alternative.now)) }
{
    let mut joins = Vec::new(alloc);
    join_all(&mut joins, condition)?;
    join_to_null(&mut joins, alternative)?;
    Ok(joins)
}

/// The classes of the places, in which those of the slice are in NULL's.
pub fn classes_of(
    alloc: Global,
    places: u32,
    condition: &[Atom],
    alternative: &[Atom],
) -> Result<Classes, NoMemory>
    requires few { length condition.now + length alternative.now < 2 ^ 28 }
    requires condition { BelowAll places (atoms_of condition.now) }
    requires alternative { BelowAll places (atoms_of alternative.now) }
    ensures { IfOk result (λ classes. AreClasses
        (joins (atoms_of condition.now) (atoms_of alternative.now)) places classes) }
{
    let joins = joins_of(alloc, condition, alternative)?;
    match solve_pointers(alloc, places, &joins) {
        Ok(classes) => Ok(classes),
        Err(PointerFault::NoMemory) => Err(NoMemory),
        Err(PointerFault::Unsat(_)) => unreachable!(),
    }
}
