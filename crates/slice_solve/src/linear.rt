//! Atoms as the solver of linear atoms has them.

ghost use Rattle.std.specs.Prelude.{◌≡◌, ◌<◌, ◌^◌, ◌++◌, List, IfOk, OnOk};
ghost use Rattle.cc_base.specs.Forms.{Atom as PlainAtom};
ghost use Rattle.linear_solver.specs.Atoms.{seen_form, seen_atom, FitForm, atom_of as signed};
ghost use Rattle.linear_solver.specs.Answers.{Below};
ghost use Rattle.sym_expr.specs.AtomsSeen.{atom_of, atoms_of};
ghost use Rattle.sym_expr.specs.TermsSeen.{multiple_of, multiples_of};
ghost use Rattle.slice_solve.specs.Linear.{IsLinear, AreLinear};

use cc_base::Multiple;
use linear_solver::{LinearAtom, Sign};
use std::alloc::{AllocError, Global};
use sym_expr::{Atom, Form, FormTerm};

/// A term as a multiple of its place.
fn multiple(term: FormTerm) -> Multiple
    ensures value { result ≡ multiple_of term }
    ensures fits { result.place < 2 ^ 32 }
{
    Multiple {
        place: term.place.0,
        coefficient: i128::from(term.coefficient),
    }
}

/// The terms as multiples of places.
fn multiples(alloc: Global, terms: &[FormTerm]) -> Result<Vec<Multiple>, AllocError>
    ensures made { IfOk result (λ v. v.items ≡ multiples_of terms.now) }
    ensures fits { IfOk result (λ v. Below (2 ^ 32) v.items) }
{
    let mut out = Vec::new(alloc);
    for term in terms {
        out.push(multiple(*term))?;
    }
    Ok(out)
}

/// What is asked of a form.
fn linear_form(alloc: Global, sign: Sign, form: &Form) -> Result<LinearAtom, AllocError>
    ensures { IfOk result (λ r. IsLinear (signed sign form.now) r) }
{
    let terms = multiples(alloc, form.terms())?;
    Ok(LinearAtom {
        sign,
        terms,
        constant: form.constant(),
    })
}

/// An atom; one of pointers becomes 0 <= 0, since it asks nothing of numbers.
pub fn linear_of(alloc: Global, atom: &Atom) -> Result<LinearAtom, AllocError>
    ensures { IfOk result (λ r. IsLinear (atom_of atom.now) r) }
{
    match atom {
        Atom::Le(form) => linear_form(alloc, Sign::AtMostZero, form),
        Atom::Eq(form) => linear_form(alloc, Sign::Zero, form),
        Atom::Ne(form) => linear_form(alloc, Sign::NotZero, form),
        Atom::Same(_, _) => linear_form(alloc, Sign::AtMostZero, &Form::number(0)),
        Atom::Differ(_, _) => linear_form(alloc, Sign::AtMostZero, &Form::number(0)),
    }
}

/// Adds atoms.
pub fn push_linear(
    alloc: Global,
    out: &mut Vec<LinearAtom>,
    atoms: &[Atom],
) -> Result<(), AllocError>
    ensures { (l : List PlainAtom) → AreLinear l out.old.items
        → OnOk result (AreLinear (l ++ atoms_of atoms.now) out.new.items) }
{
    for atom in atoms {
        out.push(linear_of(alloc, atom)?)?;
    }
    Ok(())
}
