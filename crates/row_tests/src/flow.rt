//! The flow distances by which a walk goes.

use crate::turning::compile;
use search_walks::distances;
use std::process::Abort;
use std::test::Fail;

const EQUAL: &str = "int f(int x) { if (x == 3) return 1; return 0; }";

/// A decision within another, and one behind them.
const BEHIND: &str =
    "int f(int x, int y) { if (x > 0) { if (x > 10) return 1; } if (y > 0) return 2; return 0; }";

/// Compares the distances of a source's outcomes with those that are wanted.
fn check_distances(
    rt: &(impl Abort + AllocGlobal),
    source: &str,
    covered: &[bool],
    wanted: &[Option<u32>],
) -> Result<(), Fail> {
    let compiled = compile(rt.alloc(), source.as_bytes())?;
    if covered.len() != 2 * compiled.checked.sites.len() {
        return Err(Fail::new("so many sites it has not"));
    }
    let far = distances(rt.alloc(), &compiled.checked, &compiled.tac, covered)?;
    assert_eq!(rt; far.as_slice(), wanted, "{source}");
    Ok(())
}

#[test]
fn flow_distances(rt: HostRuntime) -> Result<(), Fail> {
    check_distances(&rt, EQUAL, &[false, false], &[Some(0), Some(0)])?;
    check_distances(&rt, EQUAL, &[true, true], &[None, None])?;
    // T at the last decision alone is not covered.
    check_distances(
        &rt,
        BEHIND,
        &[true, true, true, true, true, false],
        &[Some(1), Some(2), Some(1), None, None, Some(0)],
    )
}
