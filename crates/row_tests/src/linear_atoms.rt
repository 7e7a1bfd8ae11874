//! Linear atoms within a budget, and the least that settles them.

use cc_base::{Bounds, Multiple};
use linear_solver::{LinearAtom, Sign, Solved, solve_linear};
use std::test::Fail;

#[test]
fn halves_have_no_values(rt: HostRuntime) -> Result<(), Fail> {
    let terms = vec![in rt.alloc();
        Multiple {
            place: 0,
            coefficient: 2
        },
        Multiple {
            place: 1,
            coefficient: -2
        },
    ]?;
    let atoms = [LinearAtom {
        sign: Sign::Zero,
        terms,
        constant: -1,
    }];
    let bounds = Bounds::new(i32::MIN, i32::MAX, 9, 8, 1000).unwrap();
    let beyond = solve_linear(rt.alloc(), 2, &atoms, &bounds, 9)?;
    assert!(rt; matches!(beyond, Solved::Spent));
    for budget in [10, 20_000] {
        let within = solve_linear(rt.alloc(), 2, &atoms, &bounds, budget)?;
        assert!(rt; matches!(within, Solved::Unsat));
    }
    Ok(())
}

/// Whether the first place's number is one more than the second's.
fn is_one_more(answer: &Solved) -> bool {
    match answer {
        Solved::Sat(values) => match values.as_slice() {
            [Some(x), Some(y)] => *x as i64 == *y as i64 + 1,
            _ => false,
        },
        _ => false,
    }
}

#[test]
fn near_numbers_are_found(rt: HostRuntime) -> Result<(), Fail> {
    let below = vec![in rt.alloc();
        Multiple {
            place: 0,
            coefficient: -1
        },
        Multiple {
            place: 1,
            coefficient: 1
        },
    ]?;
    let above = vec![in rt.alloc();
        Multiple {
            place: 0,
            coefficient: 1
        },
        Multiple {
            place: 1,
            coefficient: -1
        },
    ]?;
    let atoms = [
        LinearAtom {
            sign: Sign::AtMostZero,
            terms: below,
            constant: 1,
        },
        LinearAtom {
            sign: Sign::AtMostZero,
            terms: above,
            constant: -1,
        },
    ];
    let bounds = Bounds::new(i32::MIN, i32::MAX, 9, 8, 1000).unwrap();
    let beyond = solve_linear(rt.alloc(), 2, &atoms, &bounds, 32)?;
    assert!(rt; matches!(beyond, Solved::Spent));
    for budget in [33, 20_000] {
        let within = solve_linear(rt.alloc(), 2, &atoms, &bounds, budget)?;
        assert!(rt; is_one_more(&within));
    }
    Ok(())
}
