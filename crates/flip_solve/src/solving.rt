//! Values for the first places of a run that meet what is asked there, and the input that has them.

ghost use Rattle.std.specs.Prelude.{◌≡◌, ◌≤◌, ◌<◌, ◌+◌, ◌++◌, ◌^◌, length, IfOk};
ghost use Rattle.cc_base.specs.Limits.{base_of};
ghost use Rattle.cc_model.specs.CheckedProgram.{core_of};
ghost use Rattle.cc_model.specs.Graphs.{PointsToCells};
ghost use Rattle.cc_model.specs.Runs.{params_of};
ghost use Rattle.sym_expr.specs.AtomsSeen.{atoms_of};
ghost use Rattle.flip_solve.specs.Choosing.{LieWithin, IsChosen, NamesPlaces, AreClassesIf, IsAskedOf};
ghost use Rattle.flip_solve.specs.Settling.{Settles};

use crate::blocks::blocks;
use crate::flipping::Turned;
use crate::gathering::push_pointers;
use crate::numbers::numbers;
use cc_model::Checked;
use cc_model::base::{Bounds, Input, Items, NoMemory};
use input_map::{Assignment, build};
use linear_solver::Solved;
use pointer_solver::{Classes, PointerFault, solve_pointers};
use slice_solve::solve_slice;
use std::alloc::Global;
use sym_expr::{Atom, Places};

/// The classes of the first places; None where the atoms contradict each other.
fn classes(
    alloc: Global,
    count: u32,
    condition: &[Atom],
    alternative: &[Atom],
) -> Result<Option<Classes>, NoMemory>
    requires few { length condition.now + length alternative.now < 2 ^ 28 }
    requires names { NamesPlaces count (atoms_of condition.now ++ atoms_of alternative.now) }
    ensures { IfOk result (λ r. AreClassesIf (atoms_of condition.now ++ atoms_of alternative.now) count r) }
{
    let mut pointers = Items::new(alloc);
    push_pointers(&mut pointers, condition)?;
    push_pointers(&mut pointers, alternative)?;
    match solve_pointers(alloc, count, pointers.as_slice()) {
        Ok(classes) => Ok(Some(classes)),
        Err(PointerFault::Unsat(_)) => Ok(None),
        Err(PointerFault::NoMemory) => Err(NoMemory),
    }
}

/// The solver's numbers, the input's own where it gives none, and the classes.
fn assignment(
    alloc: Global,
    places: &Places,
    solved: &[Option<i32>],
    classes: Classes,
    count: u32,
    input: &Input,
    bounds: &Bounds,
) -> Result<Assignment, NoMemory>
    requires { LieWithin bounds.now places.now input.now }
    ensures { IfOk result (λ v. IsChosen places.now count input.now (base_of bounds.now) solved.now classes v) }
{
    let ints = numbers(alloc, places, count, solved, input, bounds)?;
    let touched = blocks(alloc, places, count)?;
    Ok(Assignment {
        ints,
        classes,
        touched,
    })
}

/// An input that meets the atoms of a condition and of an alternative, which name the first of the places; else what
/// else is due.
pub(crate) fn settle(
    alloc: Global,
    checked: &Checked,
    places: &Places,
    count: u32,
    condition: &[Atom],
    alternative: &[Atom],
    input: &Input,
    bounds: &Bounds,
    budget: u64,
) -> Result<Turned, NoMemory>
    requires few { length condition.now + length alternative.now < 2 ^ 28 }
    requires points { PointsToCells (core_of checked.now).layouts (params_of (core_of checked.now)) }
    requires asked { IsAskedOf (core_of checked.now) bounds.now places.now count (atoms_of condition.now)
        (atoms_of alternative.now) input.now }
    ensures { IfOk result (λ a. Settles (core_of checked.now) bounds.now budget places.now count
        (atoms_of condition.now) (atoms_of alternative.now) input.now a) }
{
    let Some(classes) = classes(alloc, count, condition, alternative)? else {
        return Ok(Turned::Never);
    };
    match solve_slice(alloc, count, condition, alternative, bounds, budget)? {
        Solved::Unsat => Ok(Turned::Never),
        Solved::Spent => Ok(Turned::Spent),
        Solved::Sat(solved) => {
            let values = assignment(
                alloc,
                places,
                solved.as_slice(),
                classes,
                count,
                input,
                bounds,
            )?;
            let input = build(alloc, checked, places, &values, bounds)?;
            Ok(Turned::Turned(input))
        }
    }
}
