//! Outcomes, ends and bounds.

use cc_base::{Bounds, End, FaultKind, Outcome};
use std::test::Fail;

#[test]
fn outcomes_have_bytes(rt: HostRuntime) -> Result<(), Fail> {
    for byte in b"!+-.FTaz" {
        let outcome = Outcome::from_byte(*byte).ok_or("an outcome")?;
        let back = match outcome {
            Outcome::Object(rank) => rank + b'a',
            other => other.to_byte(),
        };
        assert_eq!(rt; back, *byte);
    }
    assert_eq!(rt; Outcome::from_byte(b'A'), None);
    Ok(())
}

#[test]
fn ends_have_texts(rt: HostRuntime) -> Result<(), Fail> {
    let overflow = End::Fault(FaultKind::Overflow, 12).to_string(rt.alloc())?;
    assert_eq!(rt; overflow.as_str(), "overflow@12");
    let cut = End::Cut.to_string(rt.alloc())?;
    assert_eq!(rt; cut.as_str(), "cut");
    Ok(())
}

#[test]
fn bounds_have_ranges(rt: HostRuntime) -> Result<(), Fail> {
    let bounds = Bounds::new(-3, 7, 5, 2, 100).ok_or("bounds")?;
    assert_eq!(rt; bounds.lo(), -3);
    assert_eq!(rt; bounds.hi(), 7);
    assert_eq!(rt; bounds.depth(), 5);
    assert_eq!(rt; bounds.objects(), 2);
    assert_eq!(rt; bounds.steps(), 100);
    assert_eq!(rt; bounds.base(), 0);
    assert!(rt; Bounds::new(5, 4, 5, 2, 100).is_none());
    Ok(())
}
