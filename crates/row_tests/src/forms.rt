//! Places, atoms and forms.

use cc_base::{CellTy, Input, Items};
use std::test::Fail;
use sym_expr::{Atom, Form, Place, PlaceId, Places};

#[test]
fn holds(rt: HostRuntime) -> Result<(), Fail> {
    let alloc = rt.alloc();
    let mut places = Places::new(alloc);
    let place = places.add(Place::Arg(1), CellTy::Int)?;
    let input = Input {
        cells: Items::from_slice(alloc, &[4, -2])?,
        stream: Items::new(alloc),
    };
    assert_eq!(rt; places.len(), 1);
    assert!(rt; places.get(place).is_some());
    assert_eq!(rt; places.at(place, &input, 0), Some(-2));
    if places.at(place, &input, 0).is_some() {
        assert!(rt;
            Atom::Le(Form::of(place))
                .copy()
                .holds_at(&places, &input, 0)
        );
    }
    Ok(())
}

#[test]
fn sums(rt: HostRuntime) -> Result<(), Fail> {
    let place = Form::of(PlaceId(7));
    let sum = place.add(&Form::number(3))?.scale(2)?;
    assert_eq!(rt; sum.constant(), 6);
    assert_eq!(rt; sum.terms().len(), 1);
    assert_eq!(rt; sum.shift(-1).constant(), 5);
    assert_eq!(rt; sum.opposite().constant(), -6);
    assert_eq!(rt; sum.sub(&sum.copy())?.terms().len(), 0);
    Ok(())
}
