//! The numbers of the first places of a run.

ghost use Rattle.std.specs.Prelude.{◌≡◌, ◌≤◌, ◌≤ℤ◌, ℕ, ℤ, Option, Some, None, length, get_or, slice_get, IfOk};
ghost use Rattle.cc_base.specs.Limits.{base_of};
ghost use Rattle.cc_base.specs.Places.{Placed, at_place};
ghost use Rattle.flip_solve.specs.Choosing.{AreNumbers, number_for, LiesWithin, LieWithin};

use cc_model::base::{Bounds, CellTy, Input, Items, NoMemory};
use std::alloc::Global;
use sym_expr::{PlaceId, Places};

/// A number between two of 32 bits.
fn narrow(value: i64, lo: i32, hi: i32) -> i32
    requires low { lo ≤ℤ value }
    requires high { value ≤ℤ hi }
    ensures { result ≡ value }
{
    value as i32
}

/// The number at a place of the input.
fn own_number(places: &Places, id: PlaceId, input: &Input, bounds: &Bounds) -> Option<i32>
    requires { LiesWithin bounds.now (at_place places.now input.now (base_of bounds.now) id.0) }
    ensures { result ≡ at_place places.now input.now (base_of bounds.now) id.0 }
{
    let value = places.at(id, input, bounds.base())?;
    Some(narrow(value, bounds.lo(), bounds.hi()))
}

/// The solver's number of a place, where it gives one.
fn solved_at(solved: &[Option<i32>], id: u32) -> Option<i32>
    ensures { result ≡ get_or solved.now id None }
{
    match solved.get(id as usize) {
        Some(number) => *number,
        None => None,
    }
}

/// The number of a place: the solver's where it gives one, else the input's own.
fn number_at(
    places: &Places,
    id: PlaceId,
    solved: &[Option<i32>],
    input: &Input,
    bounds: &Bounds,
) -> Option<i32>
    requires { LieWithin bounds.now places.now input.now }
    ensures { (e : Placed) → slice_get places.now id.0 ≡ Some e
        → result ≡ number_for e.holds (get_or solved.now id.0 None)
        (at_place places.now input.now (base_of bounds.now) id.0) }
{
    let (_, ty) = places.get(id)?;
    match ty {
        CellTy::Int => match solved_at(solved, id.0) {
            Some(number) => Some(number),
            None => own_number(places, id, input, bounds),
        },
        CellTy::Ptr(_) => None,
    }
}

/// The numbers of the first places.
pub(crate) fn numbers(
    alloc: Global,
    places: &Places,
    count: u32,
    solved: &[Option<i32>],
    input: &Input,
    bounds: &Bounds,
) -> Result<Items<Option<i32>>, NoMemory>
    requires { LieWithin bounds.now places.now input.now }
    ensures { IfOk result (λ l. AreNumbers places.now count input.now (base_of bounds.now) solved.now l) }
{
    let mut numbers = Items::new(alloc);
    for id in 0..count {
        numbers.push(number_at(places, PlaceId(id), solved, input, bounds))?;
    }
    Ok(numbers)
}
