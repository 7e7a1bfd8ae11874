//! The classes of pointers.

use pointer_solver::{PointerFault, solve_pointers};
use std::test::Fail;
use sym_expr::{Atom, PlaceId, PtrTerm};

#[test]
fn chain_contradicts_its_ends(rt: HostRuntime) -> Result<(), Fail> {
    let [p, q, r] = [0, 1, 2].map(|place| PtrTerm::At(PlaceId(place)));
    let atoms = [Atom::Same(p, q), Atom::Same(q, r), Atom::Differ(p, r)];
    assert_eq!(rt;
        solve_pointers(rt.alloc(), 3, &atoms).err(),
        Some(PointerFault::Unsat(2))
    );
    Ok(())
}

#[test]
fn class_apart_from_null(rt: HostRuntime) -> Result<(), Fail> {
    let [p, q] = [0, 1].map(|place| PtrTerm::At(PlaceId(place)));
    let atoms = [Atom::Same(p, q), Atom::Differ(q, PtrTerm::Null)];
    let classes = solve_pointers(rt.alloc(), 3, &atoms)?;
    let classes = classes.as_slice();
    assert_eq!(rt; classes.len(), 3);
    assert_eq!(rt; classes[0], classes[1]);
    assert_ne!(rt; classes[0], 0);
    assert_eq!(rt; classes[2], 0);
    Ok(())
}
