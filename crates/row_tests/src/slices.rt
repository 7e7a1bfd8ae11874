//! Rows of slices.

ghost use Rattle.std.specs.Prelude.{IfOk};
ghost use Rattle.cc_base.specs.Groups.{form_of};
ghost use Rattle.linear_solver.specs.Answers.{Below};
ghost use Rattle.sym_expr.specs.AtomsSeen.{atom_of};

use cc_base::Bounds;
use linear_solver::Solved;
use slice_solve::solve_slice;
use std::test::Fail;
use sym_expr::{Atom, Form, PlaceId, PtrTerm, Wide};

/// The two forms are the same.
fn equal(a: &Form, b: &Form) -> Result<Atom, Wide>
    requires left { Below 4 (a.now).terms }
    requires right { Below 4 (b.now).terms }
    ensures { IfOk result (λ r. Below 4 (form_of (atom_of r)).terms) }
{
    let form = a.sub(b)?;
    Ok(Atom::Eq(form))
}

/// Whether the places have these numbers.
fn gives(answer: &Solved, numbers: &[Option<i32>]) -> bool {
    match answer {
        Solved::Sat(found) => found.as_slice() == numbers,
        _ => false,
    }
}

#[test]
fn joined_atoms_come_in(rt: HostRuntime) -> Result<(), Fail> {
    let x = Form::of(PlaceId(0));
    let y = Form::of(PlaceId(1));
    let z = Form::of(PlaceId(2));
    let near = equal(&x, &y)?;
    let far = equal(&y, &z)?;
    let three = equal(&z, &Form::number(3))?;
    let bounds = Bounds::new(-9, 9, 9, 8, 1000).unwrap();
    let answer = solve_slice(rt.alloc(), 4, &[near, far], &[three], &bounds, 20_000)?;
    assert!(rt; gives(&answer, &[Some(3), Some(3), Some(3), None]));
    Ok(())
}

#[test]
fn others_stay_out(rt: HostRuntime) -> Result<(), Fail> {
    let x = Form::of(PlaceId(0));
    let y = Form::of(PlaceId(1));
    let one = equal(&x, &Form::number(1))?;
    let two = equal(&x, &Form::number(2))?;
    let three = equal(&y, &Form::number(3))?;
    let bounds = Bounds::new(-9, 9, 9, 8, 1000).unwrap();
    let answer = solve_slice(rt.alloc(), 4, &[one, two], &[three], &bounds, 20_000)?;
    assert!(rt; gives(&answer, &[None, Some(3), None, None]));
    Ok(())
}

#[test]
fn pointers_name_no_number(rt: HostRuntime) -> Result<(), Fail> {
    let x = Form::of(PlaceId(0));
    let one = equal(&x, &Form::number(1))?;
    let null = Atom::Differ(PtrTerm::At(PlaceId(0)), PtrTerm::Null);
    let bounds = Bounds::new(-9, 9, 9, 8, 1000).unwrap();
    let answer = solve_slice(rt.alloc(), 4, &[one], &[null], &bounds, 20_000)?;
    assert!(rt; gives(&answer, &[None, None, None, None]));
    Ok(())
}
