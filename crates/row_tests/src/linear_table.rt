//! Small groups of atoms, and what trying every value says of them.

ghost use Rattle.std.specs.Prelude.{◌+◌, pos, IfOk, OnOk};
ghost use Rattle.linear_solver.specs.Answers.{Below, BelowAll};
ghost use Rattle.linear_solver.specs.Atoms.{seen_form, seen_atoms, FitForm, FitAll};

use cc_base::{Bounds, Multiple};
use linear_solver::{LinearAtom, Sign, Solved, solve_linear};
use std::alloc::{AllocError, Global};
use std::test::Fail;

/// The verdict on a row, as its third number has it.
const UNSAT: i8 = 0;

const SAT: i8 = 1;

const SPENT: i8 = 2;

/// Numbers that are out of range or don't meet the atoms.
const WRONG: i8 = 3;

/// Adds a multiple of a place, unless its coefficient is 0.
fn add(terms: &mut Vec<Multiple>, place: u32, coefficient: i8) -> Result<(), AllocError>
    requires fit { FitForm (record { constant = pos 0; terms = terms.old.items }) }
    requires below { Below place terms.old.items }
    ensures fit { OnOk result (FitForm (record { constant = pos 0; terms = terms.new.items })) }
    ensures below { OnOk result (Below (place + 1) terms.new.items) }
{
    if coefficient != 0 {
        terms.push(Multiple {
            place,
            coefficient: coefficient as i128,
        })?;
    }
    Ok(())
}

fn sign_of(sign: i8) -> Sign {
    match sign {
        0 => Sign::AtMostZero,
        1 => Sign::Zero,
        _ => Sign::NotZero,
    }
}

/// The atom of three coefficients and a constant.
fn atom_of(
    alloc: Global,
    sign: i8,
    coefficients: [i8; 3],
    constant: i8,
) -> Result<LinearAtom, AllocError>
    ensures fit { IfOk result (λ r. FitForm (seen_form r)) }
    ensures below { IfOk result (λ r. Below 3 r.terms.items) }
{
    let [a, b, c] = coefficients;
    let mut terms = Vec::new(alloc);
    add(&mut terms, 0, a)?;
    add(&mut terms, 1, b)?;
    add(&mut terms, 2, c)?;
    Ok(LinearAtom {
        sign: sign_of(sign),
        terms,
        constant: constant as i128,
    })
}

/// The atoms of a row.
fn atoms_of(alloc: Global, row: &[i8]) -> Result<Vec<LinearAtom>, AllocError>
    ensures fit { IfOk result (λ r. FitAll (seen_atoms r.items)) }
    ensures below { IfOk result (λ r. BelowAll 3 (seen_atoms r.items)) }
{
    let mut atoms = Vec::new(alloc);
    let mut at = 3;
    'atoms: while row.len().saturating_sub(at) >= 5 {
        let coefficients = [row[at + 1], row[at + 2], row[at + 3]];
        atoms.push(atom_of(alloc, row[at], coefficients, row[at + 4])?)?;
        at += 5;
    }
    Ok(atoms)
}

/// The number of a place, 0 where it has none.
fn number_at(values: &[Option<i32>], place: usize) -> i32 {
    match values.get(place) {
        Some(Some(number)) => *number,
        _ => 0,
    }
}

/// Whether each place has no number or one from `lo` to `hi`.
fn are_between(values: &[Option<i32>], lo: i8, hi: i8) -> bool {
    values.iter().all(|value| match value {
        Some(number) => lo as i32 <= *number && *number <= hi as i32,
        None => true,
    })
}

/// Whether an atom of a row holds; its numbers are small.
fn holds(atom: [i8; 5], values: &[Option<i32>]) -> bool {
    let [sign, a, b, c, constant] = atom;
    let sum = (constant as i32)
        .wrapping_add((a as i32).wrapping_mul(number_at(values, 0)))
        .wrapping_add((b as i32).wrapping_mul(number_at(values, 1)))
        .wrapping_add((c as i32).wrapping_mul(number_at(values, 2)));
    match sign {
        0 => sum <= 0,
        1 => sum == 0,
        _ => sum != 0,
    }
}

/// Whether values meet the atoms of a row.
fn all_hold(row: &[i8], values: &[Option<i32>]) -> bool {
    let mut at = 3;
    'atoms: while row.len().saturating_sub(at) >= 5 {
        let atom = [row[at], row[at + 1], row[at + 2], row[at + 3], row[at + 4]];
        if !holds(atom, values) {
            return false;
        }
        at += 5;
    }
    true
}

/// The numbers of a line.
fn numbers_of(alloc: Global, line: &str) -> Result<Vec<i8>, Fail> {
    let mut numbers = Vec::new(alloc);
    for word in line.split_whitespace() {
        numbers.push(word.parse::<i8>()?)?;
    }
    Ok(numbers)
}

/// The solver's verdict on a row.
fn verdict(alloc: Global, row: &[i8], lo: i8, hi: i8, budget: u64) -> Result<i8, Fail> {
    let atoms = atoms_of(alloc, row)?;
    let bounds = Bounds::new(lo as i32, hi as i32, 9, 8, 1000).ok_or("no bounds")?;
    match solve_linear(alloc, 3, &atoms, &bounds, budget)? {
        Solved::Unsat => Ok(UNSAT),
        Solved::Spent => Ok(SPENT),
        Solved::Sat(values) => {
            let values = values.as_slice();
            if are_between(values, lo, hi) && all_hold(row, values) {
                Ok(SAT)
            } else {
                Ok(WRONG)
            }
        }
    }
}

/// The verdict on a line that trying every value gives, and the solver's.
fn verdicts(alloc: Global, line: &str, budget: u64) -> Result<(i8, i8), Fail> {
    let row = numbers_of(alloc, line)?;
    match row.as_slice() {
        [lo, hi, want, ..] => Ok((*want, verdict(alloc, &row, *lo, *hi, budget)?)),
        _ => Ok((WRONG, WRONG)),
    }
}

/// Trying all values fits this budget in each row.
#[test]
fn verdicts_of_trying_every_value(rt: HostRuntime) -> Result<(), Fail> {
    for line in ROWS.lines() {
        let (want, got) = verdicts(rt.alloc(), line, 20_000)?;
        assert!(rt; want == got && want != WRONG, "{line}");
    }
    Ok(())
}

/// Elimination decides most of the rows within this budget, which trying all values passes where there are three
/// places.
#[test]
fn verdicts_within_a_small_budget(rt: HostRuntime) -> Result<(), Fail> {
    let mut decided = 0u32;
    for line in ROWS.lines() {
        let (want, got) = verdicts(rt.alloc(), line, 100)?;
        if got != SPENT {
            assert!(rt; want == got, "{line}");
            decided = decided.saturating_add(1);
        }
    }
    assert!(rt; decided > 150);
    Ok(())
}

/// The least and the greatest number of a place, and 1 where there are values, else 0. Then five numbers for each atom:
/// 0 for at most 0, 1 for 0 or 2 for not 0; the coefficients of three places; the constant.
const ROWS: &str = "\
0 5 1  0 -1 -1 0 -5  0 -1 -1 0 -1
0 5 0  0 -1 0 0 2  1 3 0 0 5  1 1 0 0 1  0 3 0 0 -1
-3 3 1  1 0 -1 1 -6  2 1 -1 0 1  0 -1 3 1 4  1 1 -1 -1 2
1 4 0  2 -1 3 0 3  0 3 0 0 1  0 -1 1 0 -5
-3 -1 0  1 3 -1 1 -5
-3 -1 0  0 2 -1 0 -2  2 -1 2 0 -3  1 -2 -1 0 3  0 -2 2 0 -6
1 4 1  0 -2 1 1 4  2 2 1 -1 3
-3 3 1  0 0 -2 0 2  2 0 -3 0 1
-3 -1 0  2 3 3 2 -6  2 -1 1 -1 -3  2 1 -1 3 6  1 -1 1 0 -5  0 1 -3 0 -6
-2 2 0  1 1 -1 0 4  1 2 -3 -2 -3  2 -2 1 3 -1
-3 -1 0  2 0 1 0 1  2 2 1 0 5  0 -2 -3 0 -5  0 1 2 0 4
-3 -1 1  0 3 -1 3 0  2 1 1 -1 -1  0 -1 -2 -2 -5
-2 2 1  2 1 2 2 2  0 3 0 -1 -1  1 1 1 -3 6  0 1 -1 -1 -5  0 1 -1 -2 -3
0 5 1  2 -2 -1 0 3  1 -1 2 0 -2  0 -2 -2 0 -6
-2 2 0  0 -1 0 0 -1  0 3 0 0 5
-3 3 0  1 0 -1 -1 -1  1 -1 3 -1 3  1 -1 -2 -1 -3  0 3 1 0 -2  0 2 3 1 -1
-3 -1 1  2 2 2 3 3  0 1 1 1 1  1 -1 -3 2 -4
0 5 0  1 -1 3 3 2  1 1 -2 1 1  0 -2 -1 -3 -1
-3 3 1  2 2 2 0 2  0 -1 -1 0 -4  0 2 0 0 3
-3 -1 0  0 1 -2 0 -3  0 2 -1 0 6
-2 2 1  2 -1 0 0 0  1 2 0 0 -4
-3 3 1  2 -3 1 -3 0  0 -1 1 0 -3
-3 -1 0  1 -1 1 2 -5
-3 -1 1  0 -1 3 2 6
-3 3 0  2 1 -2 0 4  0 -1 1 -3 -3  1 0 0 3 4  0 -2 -3 0 -3  0 2 1 1 5
-3 3 1  2 -1 -1 -3 1  0 -1 3 -1 -3  0 1 1 0 -5
0 5 0  2 3 0 0 0  2 2 0 0 -4  0 1 0 0 -5  0 2 0 0 5
1 4 0  1 -1 0 0 5  0 2 0 0 4  0 2 0 0 -1  0 2 0 0 -2
1 4 1  0 -2 -1 0 6
-3 3 1  0 -3 -1 1 4  2 0 -1 1 5  2 2 3 2 -4
-2 2 1  2 1 2 2 -3  1 1 1 3 -6  2 1 0 -2 -5  2 0 -1 -2 3
-3 -1 1  0 -1 -2 3 -1  2 1 1 3 -3  2 2 3 3 -3
-2 2 0  1 1 -1 -2 -3  0 -1 -1 -1 3  2 -3 2 -3 -1  2 -2 -1 1 -3
0 5 0  0 1 0 0 2  1 -2 0 0 1
0 5 0  1 -2 2 1 5  0 -1 3 -3 0  2 3 -3 -1 -2  1 -1 -1 -1 0
-3 3 1  1 -3 3 0 -6
-3 -1 1  0 1 1 2 6
1 4 1  0 0 -1 0 -1  0 3 -2 -1 -3  2 2 0 -1 6
-3 -1 0  0 -2 -1 1 6  2 -1 2 -3 0  2 0 -3 2 2  0 -3 -2 0 1  0 -1 2 -2 -4
-3 3 1  2 -3 1 0 6
0 5 0  0 1 0 0 2  0 -3 0 0 4  0 -1 0 0 -6  2 1 0 0 -5  0 1 0 0 -4
-3 3 1  0 -1 0 0 -6
-2 2 1  0 -1 -1 3 -1  2 1 -1 -1 -5  0 1 2 1 2  0 0 0 3 -4
-2 2 0  1 -2 3 0 -5  0 2 -1 0 6
0 5 1  1 1 0 0 -2
1 4 1  2 -1 -1 0 -6  0 -1 -1 0 6
1 4 1  0 2 1 -1 -4  2 1 3 2 -6  1 0 -3 1 1  0 -1 3 -2 1
-3 3 1  2 0 2 0 -2
-2 2 1  2 2 -2 -3 4  2 -1 -2 -1 -6  0 -2 3 0 0
-3 -1 1  2 3 1 -2 -3  0 3 0 3 -4
0 5 0  0 2 0 0 -2  0 -1 0 0 0  0 -1 0 0 5  0 -1 0 0 -4
-2 2 1  0 0 -1 0 1
-2 2 1  0 2 0 0 4
0 5 1  0 1 0 -3 -3  2 -1 0 -2 -2  0 -2 3 -3 5  0 -2 -1 1 -3
-3 -1 0  0 1 -1 0 0  1 1 -2 0 -1  2 -1 2 0 6  0 -3 2 0 0  0 0 -1 0 -4
1 4 0  1 -2 3 -1 6  1 3 -1 -1 0  1 -2 -1 -1 -1  1 -1 -2 -1 -3
1 4 0  1 2 3 0 -1  2 -1 2 0 -6  2 -1 0 0 3
0 5 1  0 1 -1 0 -1  0 1 -2 0 -3  2 -2 1 0 1  1 1 1 0 -6
-3 -1 0  0 -3 -3 0 0
-2 2 0  0 1 0 0 6  0 -3 -1 0 1
-2 2 1  0 -1 -3 0 -1  2 1 -3 0 3  0 2 -1 0 -6  1 1 -2 0 5  2 -3 -3 0 -2
1 4 0  1 -3 -2 0 -3  2 3 -1 0 -1
-3 3 0  1 1 0 0 -5  0 -2 0 0 -2  0 1 0 0 6  1 1 0 0 -3
-3 -1 0  0 2 1 2 2  2 -2 0 1 2  0 2 -1 -1 -5  0 1 -2 1 6
0 5 0  0 1 -2 0 6  1 1 -3 0 3  2 1 -2 0 -6
-3 3 1  1 1 -2 0 3  0 -3 -3 0 -4
-2 2 1  0 -1 -2 0 2  2 0 1 0 1  0 1 1 0 -4  2 -1 -1 0 1  0 -3 -1 0 3
-2 2 1  0 -2 -2 -1 1  0 -2 1 3 0  2 1 -3 1 1  0 1 3 -1 -5  1 -1 3 -2 5
-2 2 1  0 1 0 0 -5
-3 -1 0  0 1 0 0 -1  0 3 0 0 -1  1 1 0 0 5  0 -1 0 0 -3
-3 3 1  1 -2 0 -1 4
1 4 0  0 -2 -3 0 -1  1 3 0 0 4  0 -3 -2 0 1
1 4 1  0 0 -2 1 -6  0 3 2 -2 2
0 5 1  0 -1 3 0 3  2 1 3 0 -1  2 -1 -2 0 -5  2 -3 -3 0 0
-3 -1 1  0 0 2 -3 0
0 5 1  1 -1 3 1 2  0 -1 3 -1 -4  2 2 1 0 -5
0 5 1  2 2 3 0 -5
-3 3 1  2 3 -1 -1 -2
-3 -1 1  1 -1 -2 0 -6
-3 3 0  2 0 3 0 2  0 3 -1 0 3  1 -3 -1 0 0  0 -3 1 0 -5  0 -1 -1 0 2
-2 2 1  2 -1 1 3 -3  1 -3 0 0 0  0 0 -3 1 -4  2 3 -1 -3 3  2 -1 -2 1 5
-2 2 0  1 2 3 0 -4  0 -2 1 0 0  0 0 1 0 2
-3 -1 0  2 1 0 0 -5  1 3 0 0 6  0 3 0 0 1  0 1 0 0 4
-2 2 1  0 2 2 0 -1
-2 2 0  0 1 0 0 6  0 1 3 0 -4  0 1 2 0 -4  1 0 1 0 0  1 -3 -3 0 -2
1 4 1  0 1 -3 1 3  2 1 3 -1 5  0 0 -3 1 -2
-3 3 1  2 -3 3 0 5  2 -1 3 3 -6
0 5 1  0 0 -1 -2 4  2 2 2 -1 3  2 -3 2 0 1  2 3 -1 2 5
-3 -1 0  1 -1 -3 3 -4  2 1 -1 3 -3  1 1 -3 -1 5  0 1 1 1 1  0 1 -2 -1 2
0 5 0  1 1 -1 0 -1  0 1 -1 0 -2  0 -3 1 0 -5  0 -1 3 0 4
-3 -1 0  0 1 1 0 6  0 -1 1 0 4  2 -3 -3 0 0  0 2 2 0 6  2 -1 1 0 -2
-2 2 0  0 -1 -1 3 5  1 3 1 -2 -1  0 2 -1 1 5  0 1 1 -1 -6  0 0 -1 0 -3
0 5 1  2 -1 1 0 -6
0 5 1  0 2 0 -1 1
-2 2 1  0 -1 -1 -1 -5
-3 3 1  0 1 -1 1 4  0 2 -3 1 2  2 1 1 -2 -3
0 5 0  0 0 -2 3 6  1 2 -1 1 1  0 2 0 -3 6  1 0 -1 -2 -5  0 1 1 0 4
1 4 0  2 -1 0 0 1  0 3 0 0 1
-3 3 1  0 3 2 -2 -1  0 -2 -1 0 0  2 2 -1 -1 0
0 5 0  0 1 0 0 -5  1 -1 0 0 -3
-2 2 1  0 -2 1 -2 -1
-3 -1 1  0 3 1 3 -3
-3 -1 0  1 -3 -2 0 6  2 3 -2 0 -5  1 -2 0 0 0  2 3 -2 0 -4
-3 -1 1  2 3 1 1 -4
1 4 0  1 -2 0 0 -2  1 1 0 0 -3  0 3 0 0 1
-2 2 1  0 0 3 0 2
0 5 1  2 3 -1 -1 -2  0 -2 -2 3 0  2 3 2 1 -4
0 5 0  2 -1 0 -1 1  0 0 3 -3 -5  0 2 1 1 4  2 1 -1 1 0
-2 2 1  0 1 -2 0 -6  0 -2 2 0 -5
1 4 1  0 -2 -2 0 2
0 5 0  0 1 2 0 3  1 1 2 0 -1  2 3 -2 0 3  0 1 -3 0 1  2 -1 -2 0 -4
-2 2 1  2 1 1 1 6  0 1 1 3 2
-3 3 1  0 -3 1 0 4
-2 2 1  0 1 3 2 3  0 -1 3 -1 1  0 2 -3 -1 1
0 5 0  1 -2 0 0 5  0 -2 0 0 4  2 3 0 0 -3  1 -3 0 0 2
0 5 0  2 2 0 0 1  2 -2 0 0 -5  0 -1 0 0 -4  1 1 0 0 -6
-3 3 1  1 3 -1 0 2  0 2 0 0 -3  0 1 3 0 3
-3 -1 0  0 -2 2 0 -5  1 -1 1 0 0  1 3 1 0 1  1 3 2 0 5
-2 2 0  0 -2 -3 2 3  1 1 2 -1 6  2 -1 -1 0 2
1 4 1  2 0 -2 0 -3  0 0 1 0 -2  1 -2 3 0 0  2 -2 0 0 -3
0 5 0  2 1 0 0 -6  0 3 0 0 6
-3 -1 1  2 2 0 0 3  1 3 0 0 6
-2 2 0  2 1 -1 2 -3  0 -2 1 -2 1  0 0 -1 1 3  0 -1 1 -1 2  2 -2 2 3 4
-3 -1 0  0 1 -1 0 5  1 2 -1 1 5  0 2 -2 1 2
1 4 1  2 2 2 0 5  1 -1 1 1 -3  0 -1 0 0 0  0 -3 0 0 -3
0 5 0  0 2 0 0 -3  1 -3 -1 0 -1  1 -1 3 0 -3
-3 -1 1  2 3 -2 0 -2  0 2 -1 2 6  2 0 1 3 1  0 -1 0 3 -5
-3 -1 0  0 -1 3 2 -4  0 -2 -1 -2 5  0 -3 2 2 5
-3 3 1  0 -2 2 1 1
0 5 0  0 -1 0 0 -4  0 -2 0 0 -4  0 1 0 0 3  1 1 0 0 -6
-3 -1 1  0 1 2 -3 -6
1 4 1  2 1 1 -1 -4
-3 -1 1  2 -3 -1 2 4  0 -3 2 3 4
-2 2 1  0 3 -3 2 -1
1 4 1  0 2 -1 3 -4  1 3 1 -3 -6  0 1 1 1 -6
-3 3 0  1 -1 2 0 1  2 -1 2 0 5  1 3 -3 0 -6  1 -1 1 0 -2
-2 2 1  0 -1 1 2 -4  0 -2 1 -2 -5  2 -1 -1 2 2  0 1 -1 0 -5  2 2 2 1 3
-3 3 1  1 1 -1 -3 -5  0 -2 -1 1 -5  2 -1 1 1 -2
1 4 1  2 -3 -2 -1 -2  0 -1 -3 -2 4
0 5 0  0 -1 0 0 -4  0 -1 -1 0 4  0 1 2 0 0
1 4 1  0 -2 -1 0 0  2 -1 1 0 -6  0 0 -2 0 -2
1 4 0  0 3 0 0 4  0 -1 -1 0 -2
0 5 1  0 2 -3 -2 4  0 -1 1 0 -6  0 -1 -1 -1 0  2 0 -1 -1 0
-2 2 1  0 -1 -3 0 4  0 -1 0 0 -3
-3 -1 0  0 -2 1 -1 5  2 -1 3 3 5
-3 -1 0  0 -1 0 2 -4  0 1 -2 0 3  2 1 -1 -1 2
-2 2 0  1 1 1 0 -1  0 1 -1 0 -3  2 -1 2 0 5  1 -1 2 0 -5  1 1 -1 0 4
0 5 1  0 1 1 0 -3
-3 3 1  1 0 1 -1 -2
-2 2 1  1 3 -1 0 -1
-3 3 1  2 2 -3 1 0  0 -3 1 0 2  0 -1 -2 3 -3  0 3 3 3 -4
-2 2 0  1 1 -1 1 0  1 1 2 1 -6  0 2 1 3 -2
1 4 0  0 -2 3 0 4  0 0 1 0 -1  2 -1 -1 0 6  1 1 1 0 -6  1 1 -3 0 2
-3 -1 1  0 -3 3 0 1
-3 3 0  0 2 1 -1 4  1 3 2 1 -5  0 -1 -3 2 -6  0 2 -2 -1 3
0 5 0  0 -1 3 0 1  0 1 -1 0 -3  1 0 2 0 2  2 -1 3 0 1
-3 3 0  2 -1 0 0 5  0 3 0 0 -2  0 2 0 0 5  2 2 0 0 4  0 -1 0 0 6
-2 2 1  2 -2 -1 2 -2  0 1 -2 1 -6
1 4 1  2 -2 -1 1 -3  2 3 0 1 3
-2 2 1  0 -3 0 0 -1
-2 2 0  0 -1 -1 1 -3  0 1 -2 2 3  1 -1 3 3 3  1 -3 1 -1 -6  1 2 3 -1 1
-2 2 1  2 1 2 0 0  1 -1 -2 0 2  0 1 -1 0 -5
-2 2 1  1 2 -3 -2 0  0 0 -2 0 -5  0 2 -3 2 5
-2 2 1  0 -1 1 3 -5
1 4 0  0 -2 3 3 -3  0 -1 -1 2 -2  1 2 1 0 4  2 -1 0 0 -4
-3 -1 1  0 -3 0 0 -6  0 -1 0 0 -3
-3 3 1  2 1 3 0 4  2 0 3 0 5
1 4 0  0 -3 3 0 -2  1 0 -3 0 -4
-3 -1 0  0 -1 0 0 -3  1 -1 0 0 -4  0 -3 0 0 -2
0 5 1  1 0 -1 2 4
-2 2 0  0 -1 1 0 6  1 1 1 0 -2
-3 3 1  2 0 3 0 2  0 -1 -1 0 0  0 1 1 0 -4
-3 -1 1  0 -1 3 -1 -5  2 2 -2 -2 6  2 2 1 3 -5  2 1 -2 -3 5  2 3 1 -1 6
-3 -1 1  0 3 1 0 5
0 5 0  0 3 0 0 3  0 -2 0 0 -5  0 -2 0 0 4
-3 3 0  0 1 -1 -3 -1  1 0 3 0 2  0 0 2 3 -5  0 0 3 2 1  1 0 -3 0 -3
0 5 0  0 2 1 1 6  2 2 2 0 -6
-3 -1 0  1 -2 0 0 -3  2 1 0 0 3  0 1 0 0 6  0 -1 0 0 -4
-3 3 0  0 1 -1 3 6  0 2 0 1 5  1 -1 1 -3 -1  2 2 1 0 -6
-3 -1 0  0 3 3 -1 -6  2 -1 3 2 2  1 1 -3 1 2  0 1 1 -3 -4  0 -1 1 1 1
0 5 0  0 -1 -1 0 0  0 1 1 0 1  1 -2 2 0 -5  0 0 -1 0 0  2 1 -1 0 4
0 5 0  0 -1 2 0 4  2 0 3 0 5  0 3 1 0 -5  0 -2 -2 0 -6
0 5 0  0 1 0 0 -6  0 -3 0 0 0  1 -1 0 0 0  2 -1 0 0 5  1 -2 0 0 -6
1 4 0  1 2 -3 0 -1  1 -3 -2 0 2  0 2 -2 0 -5  0 -1 3 0 6
1 4 0  0 0 3 0 4  1 -3 -1 0 6  1 -1 -3 0 3  1 -1 -1 0 6  1 2 0 0 -3
-3 -1 0  0 -1 -3 -3 6  0 1 -3 -2 3  2 0 -1 1 1  0 2 -1 1 0
-3 -1 0  1 -3 -2 -1 5  0 -3 -1 -2 4  2 1 1 2 -5  2 -1 1 2 3  0 -2 1 -1 -4
0 5 0  1 -3 3 -1 1  0 0 3 2 2  0 2 -1 -1 2  1 -3 2 -2 -5
-3 -1 0  1 -2 -2 0 2
0 5 0  1 -2 0 0 -5  0 2 0 0 -5  0 -2 0 0 6
1 4 0  0 -2 0 0 6  1 3 0 0 5  2 3 0 0 -1
-3 -1 0  1 1 -1 3 -2  0 -2 1 -2 5  2 1 3 0 -4
-3 -1 0  2 3 -1 0 -3  1 -1 -1 0 6  1 -1 2 0 -3
-3 3 0  0 1 1 1 0  0 1 -1 3 4  0 1 0 -1 1  0 1 1 -3 5  0 3 1 -3 0
-3 -1 0  1 -1 3 -1 -5
-2 2 0  0 -3 2 0 -1  1 1 1 0 -4  1 -1 2 0 -4  0 1 -1 0 -3
-3 3 0  1 -1 0 -1 6  0 -1 -2 -3 4  0 1 3 3 3  0 2 -1 -1 -2  1 -2 3 -2 -5
-2 2 0  0 0 1 0 5  0 -3 -1 0 4  0 -1 1 0 -6  0 2 -3 0 -3
-3 3 0  0 2 2 0 3  1 0 1 0 2  0 0 -3 0 -3  0 2 1 0 6  0 -3 -1 0 1
1 4 0  0 0 2 2 4
";
