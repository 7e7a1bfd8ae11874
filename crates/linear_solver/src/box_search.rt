//! Trying all values of a group.

ghost use Rattle.std.specs.Prelude.{◌≡◌, ◌≤◌, ◌<◌, ◌+◌, ◌-◌, ◌*◌, ◌/◌, ◌%◌, ◌^◌, ◌↔◌, IsTrue, IfOk, pos, ◌+ℤ◌, ◌-ℤ◌};
ghost use Rattle.std.specs.Prelude.{◌≤ℤ◌, drop, length};
ghost use Rattle.linear_solver.specs.Atoms.{seen_atoms, FitAll};
ghost use Rattle.linear_solver.specs.Box.{decoded, Searched};
ghost use Rattle.linear_solver.specs.Seen.{at_places};

use crate::atoms::LinearAtom;
use crate::holding::hold_all;
use crate::restore::put_value;
use std::alloc::{AllocError, Global};

/// Whether `count` times the `n`th power of `width` is at most `budget`.
pub fn is_within(count: u64, width: u64, n: usize, budget: u64) -> bool
    requires positive { 0 < width }
    requires width { width ≤ 2 ^ 32 }
    ensures { IsTrue result ↔ (count * width ^ n ≤ budget) }
{
    let mut work = count as u128;
    for _ in 0..n {
        if work > budget as u128 {
            return false;
        }
        work *= width as u128;
    }
    work <= budget as u128
}

/// The number of points of the box, where `is_within` was true.
pub fn power(width: u64, n: usize, budget: u64) -> u64
    requires positive { 0 < width }
    requires within { width ^ n ≤ budget }
    ensures { result ≡ width ^ n }
{
    let mut work = 1u64;
    for _ in 0..n {
        work *= width;
    }
    work
}

/// The value that the last digit of `k` stands for.
fn digit(lo: i32, width: u64, k: u64) -> i32
    requires positive { 0 < width }
    requires fits { (lo +ℤ pos width) ≤ℤ pos (2 ^ 31) }
    ensures { result ≡ lo +ℤ pos (k % width) }
{
    let more = (k % width) as i128;
    let number = lo as i128 + more;
    number as i32
}

/// The values of the point with number `k`, for the places from `from` on.
fn point(
    alloc: Global,
    lo: i32,
    width: u64,
    k: u64,
    places: &[u32],
    from: usize,
) -> Result<Vec<i32>, AllocError>
    requires positive { 0 < width }
    requires fits { (lo +ℤ pos width) ≤ℤ pos (2 ^ 31) }
    ensures { IfOk result (λ r. at_places r.items ≡ decoded lo width k (drop from places.now)) }
{
    if from >= places.len() {
        return Ok(Vec::new(alloc));
    }
    let mut values = point(alloc, lo, width, k / width, places, from + 1)?;
    put_value(&mut values, places[from], digit(lo, width, k))?;
    Ok(values)
}

/// The first point that meets the atoms.
pub fn search_box(
    alloc: Global,
    lo: i32,
    width: u64,
    count: u64,
    places: &[u32],
    atoms: &[LinearAtom],
) -> Result<Option<Vec<i32>>, AllocError>
    requires positive { 0 < width }
    requires fits { (lo +ℤ pos width) ≤ℤ pos (2 ^ 31) }
    requires fit { FitAll (seen_atoms atoms.now) }
    ensures { IfOk result (λ r. Searched lo width count places.now (seen_atoms atoms.now) r) }
{
    for k in 0..count {
        let values = point(alloc, lo, width, k, places, 0)?;
        if hold_all(atoms, &values) {
            return Ok(Some(values));
        }
        drop(values);
    }
    Ok(None)
}
