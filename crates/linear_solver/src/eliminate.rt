//! The inequalities of a place give way to one for each pair of a lower and an upper one.

ghost use Rattle.std.specs.Prelude.{◌≡◌, ◌≤◌, ◌^◌, List, [], ◌∷◌, ◌++◌, ◌+ℤ◌, ◌-ℤ◌, ◌*ℤ◌, pos, IfOk, OnOk};
ghost use Rattle.std.specs.Prelude.{unsigned_abs};
ghost use Rattle.cc_base.specs.Inequality.{coefficient};
ghost use Rattle.cc_base.specs.Pass.{pairs, others, lowers, uppers, paired, paired_with, all_paired, eliminate, below};
ghost use Rattle.cc_base.specs.Pass.{above, dark_part};
ghost use Rattle.linear_solver.specs.Ordered.{Narrow, NarrowAll};
ghost use Rattle.linear_solver.specs.Seen.{seen, seen_all};

use crate::inequalities::{Inequality, copy_of};
use crate::merging::{merge_of, product};
use crate::slack::{Side, rank_of, side_of};
use cc_base::Mode;
use std::alloc::{AllocError, Global};

/// How many pairs of a lower and an upper inequality a place has.
pub fn pairs_of(place: u32, list: &[Inequality]) -> u128
    requires { NarrowAll (seen_all list.now) }
    ensures { result ≡ pairs place (seen_all list.now) }
{
    rank_of(place, list).pairs
}

/// What the dark mode takes off the bound of a pair.
fn taken_off(mode: Mode, a: u128, c: u128) -> i128
    requires lower { a ≤ 2 ^ 44 }
    requires upper { c ≤ 2 ^ 44 }
    ensures { result ≡ pos (dark_part mode a c) }
{
    match mode {
        Mode::Real => 0,
        Mode::Dark => (a.saturating_sub(1) * c.saturating_sub(1)) as i128,
    }
}

/// The bound of a pair.
fn pair_most(mode: Mode, a: u128, c: u128, lower: i128, upper: i128) -> i128
    requires lower_factor { a ≤ 2 ^ 44 }
    requires upper_factor { c ≤ 2 ^ 44 }
    requires lower { unsigned_abs lower ≤ 2 ^ 80 }
    requires upper { unsigned_abs upper ≤ 2 ^ 80 }
    ensures { result ≡ ((pos c *ℤ lower) +ℤ (pos a *ℤ upper)) -ℤ pos (dark_part mode a c) }
{
    product(c as i128, lower) + product(a as i128, upper) - taken_off(mode, a, c)
}

/// The inequality of a pair, whose coefficients of the place are `-a` and `c`.
fn pair(
    alloc: Global,
    mode: Mode,
    place: u32,
    lower: &Inequality,
    a: u128,
    upper: &Inequality,
    c: u128,
) -> Result<Inequality, AllocError>
    requires lower { Narrow (seen lower.now) }
    requires upper { Narrow (seen upper.now) }
    requires lower_factor { a ≤ 2 ^ 44 }
    requires upper_factor { c ≤ 2 ^ 44 }
    requires below { a ≡ below (coefficient place lower.now.terms.items) }
    requires above { c ≡ above (coefficient place upper.now.terms.items) }
    ensures { IfOk result (λ r. seen r ≡ paired mode place (seen lower.now) (seen upper.now)) }
{
    Ok(Inequality {
        terms: merge_of(alloc, c as i128, &lower.terms, a as i128, &upper.terms)?,
        most: pair_most(mode, a, c, lower.most, upper.most),
    })
}

/// Adds the pair of a lower inequality and another one, where that is an upper one.
fn add_pair(
    alloc: Global,
    out: &mut Vec<Inequality>,
    mode: Mode,
    place: u32,
    lower: &Inequality,
    a: u128,
    other: &Inequality,
) -> Result<(), AllocError>
    requires lower { Narrow (seen lower.now) }
    requires factor { a ≤ 2 ^ 44 }
    requires below { a ≡ below (coefficient place lower.now.terms.items) }
    requires other { Narrow (seen other.now) }
    ensures { OnOk result (seen_all out.new.items
        ≡ seen_all out.old.items ++ paired_with mode place (seen lower.now) (uppers place (seen other.now ∷ []))) }
{
    match side_of(place, &other.terms) {
        Side::Upper(c) => {
            out.push(pair(alloc, mode, place, lower, a, other, c)?)?;
            Ok(())
        }
        Side::Neither => Ok(()),
        Side::Lower(_) => Ok(()),
    }
}

/// Adds the pairs of a lower inequality with each upper one.
fn pair_with(
    alloc: Global,
    out: &mut Vec<Inequality>,
    mode: Mode,
    place: u32,
    lower: &Inequality,
    a: u128,
    list: &[Inequality],
) -> Result<(), AllocError>
    requires lower { Narrow (seen lower.now) }
    requires factor { a ≤ 2 ^ 44 }
    requires below { a ≡ below (coefficient place lower.now.terms.items) }
    requires narrow { NarrowAll (seen_all list.now) }
    ensures { OnOk result (seen_all out.new.items
        ≡ seen_all out.old.items ++ paired_with mode place (seen lower.now) (uppers place (seen_all list.now))) }
{
    for other in list {
        add_pair(alloc, out, mode, place, lower, a, other)?;
    }
    Ok(())
}

/// Adds the pairs of an inequality, where that is a lower one.
fn add_pairs(
    alloc: Global,
    out: &mut Vec<Inequality>,
    mode: Mode,
    place: u32,
    i: &Inequality,
    list: &[Inequality],
) -> Result<(), AllocError>
    requires one { Narrow (seen i.now) }
    requires narrow { NarrowAll (seen_all list.now) }
    ensures { OnOk result (seen_all out.new.items
        ≡ seen_all out.old.items ++ all_paired mode place (lowers place (seen i.now ∷ []))
        (uppers place (seen_all list.now))) }
{
    match side_of(place, &i.terms) {
        Side::Lower(a) => {
            pair_with(alloc, out, mode, place, i, a, list)?;
            Ok(())
        }
        Side::Neither => Ok(()),
        Side::Upper(_) => Ok(()),
    }
}

/// Adds a copy of an inequality, where it doesn't name the place.
fn add_other(
    alloc: Global,
    out: &mut Vec<Inequality>,
    place: u32,
    i: &Inequality,
) -> Result<(), AllocError>
    requires { Narrow (seen i.now) }
    ensures { OnOk result (seen_all out.new.items ≡ seen_all out.old.items ++ others place (seen i.now ∷ [])) }
{
    match side_of(place, &i.terms) {
        Side::Neither => {
            out.push(copy_of(alloc, i)?)?;
            Ok(())
        }
        Side::Lower(_) => Ok(()),
        Side::Upper(_) => Ok(()),
    }
}

/// The inequalities that don't name the place.
fn others_of(alloc: Global, place: u32, list: &[Inequality]) -> Result<Vec<Inequality>, AllocError>
    requires { NarrowAll (seen_all list.now) }
    ensures { IfOk result (λ r. seen_all r.items ≡ others place (seen_all list.now)) }
{
    let mut out = Vec::new(alloc);
    for i in list {
        add_other(alloc, &mut out, place, i)?;
    }
    Ok(out)
}

/// The list without the place.
pub fn eliminate_of(
    alloc: Global,
    mode: Mode,
    place: u32,
    list: &[Inequality],
) -> Result<Vec<Inequality>, AllocError>
    requires { NarrowAll (seen_all list.now) }
    ensures { IfOk result (λ r. seen_all r.items ≡ eliminate mode place (seen_all list.now)) }
{
    let mut out = others_of(alloc, place, list)?;
    for i in list {
        add_pairs(alloc, &mut out, mode, place, i, list)?;
    }
    Ok(out)
}
