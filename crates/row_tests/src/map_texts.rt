//! Maps and tests, on a program with a list cell and a function of two pointers to it.

use crate::turning::compile;
use cc_model::Checked;
use cc_model::base::{Bounds, End, FaultKind, Input, Items, Outcome, Test};
use input_map::{MapFault, TestFault, base_input, read_map, read_test, write_map, write_test};
use std::alloc::Global;
use std::test::Fail;

/// A program whose function f takes two pointers to list cells.
pub(crate) fn two_cells(alloc: Global) -> Result<Checked, Fail> {
    let source = "struct cell { int v; struct cell *next; };
int f(struct cell *p, struct cell *q) { return 0; }
";
    Ok(compile(alloc, source.as_bytes())?.checked)
}

#[test]
fn maps_are_read(rt: HostRuntime) -> Result<(), Fail> {
    let checked = two_cells(rt.alloc())?;
    let bounds = Bounds::new(-9, 9, 5, 2, 100).ok_or("bounds")?;
    for text in [
        b"0,0".as_slice(),
        b"3,3,0,0",
        b"3,5,-9,0,9,3",
        b"3,0,7,5,1,3/0,-1,9",
    ] {
        let input = read_map(rt.alloc(), text, &checked, &bounds)?;
        let written = write_map(rt.alloc(), &input).ok().ok_or("memory")?;
        assert_eq!(rt; written.as_slice(), text);
    }
    Ok(())
}

#[test]
fn a_base_input(rt: HostRuntime) -> Result<(), Fail> {
    let checked = two_cells(rt.alloc())?;
    let bounds = Bounds::new(3, 9, 5, 2, 100).ok_or("bounds")?;
    let input = base_input(rt.alloc(), &checked, &bounds)
        .ok()
        .ok_or("memory")?;
    let written = write_map(rt.alloc(), &input).ok().ok_or("memory")?;
    assert_eq!(rt; written.as_slice(), b"0,0".as_slice());
    Ok(())
}

#[test]
fn a_test(rt: HostRuntime) -> Result<(), Fail> {
    let input = Input {
        cells: Items::new(rt.alloc()),
        stream: Items::from_slice(rt.alloc(), &[-2, 4])?,
    };
    let test = Test {
        path: Items::from_slice(rt.alloc(), &[Outcome::Zero, Outcome::True])?,
        end: End::Fault(FaultKind::Null, 7),
        input,
    };
    let written = write_test(rt.alloc(), &test).ok().ok_or("memory")?;
    assert_eq!(rt; written.as_slice(), b"!T null@7 ~/-2,4".as_slice());
    Ok(())
}

#[test]
fn texts_of_tests(rt: HostRuntime) -> Result<(), Fail> {
    let checked = two_cells(rt.alloc())?;
    let bounds = Bounds::new(-9, 9, 5, 2, 100).ok_or("bounds")?;
    let text = b"a! null@4 3,0,0,0".as_slice();
    let test = read_test(rt.alloc(), text, &checked, &bounds)
        .ok()
        .ok_or("no test")?;
    let written = write_test(rt.alloc(), &test).ok().ok_or("memory")?;
    assert_eq!(rt; written.as_slice(), text);
    for (text, fault) in [
        (b"a! null@4".as_slice(), TestFault::Form),
        (b"a! null@4 0,0 0,0", TestFault::Form),
        (b"a! null@4294967296 0,0", TestFault::Form),
        (b"a? null@4 0,0", TestFault::Form),
        (b"a! null@4 4,0", TestFault::Map(MapFault::NotCanonical(1))),
    ] {
        let read = read_test(rt.alloc(), text, &checked, &bounds);
        assert_eq!(rt; read.err(), Some(fault));
    }
    Ok(())
}
