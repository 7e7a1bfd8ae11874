//! The base input.

ghost use Rattle.std.specs.Prelude.{◌≡◌, ◌^◌, ◌<◌, ◌∷◌, IfOk, OnOk, length, map};
ghost use Rattle.cc_model.specs.Canonical.{base_cell, base_input_of};
ghost use Rattle.cc_model.specs.CheckedProgram.{cell_of, core_of};
ghost use Rattle.cc_model.specs.Runs.{IsInput, params_of};

use crate::params::param_cells;
use cc_model::Checked;
use cc_model::base::{Bounds, CellTy, Input, NoMemory};
use sqlite_items::Items;
use std::alloc::Global;

/// What the base input has in a cell.
fn base_cell(cell: CellTy, bounds: &Bounds) -> i64
    ensures { result ≡ base_cell bounds.now (cell_of cell) }
{
    match cell {
        CellTy::Int => i64::from(bounds.base()),
        CellTy::Ptr(_) => 0,
    }
}

/// What the base input has in cells of these types.
fn base_cells(alloc: Global, types: &[CellTy], bounds: &Bounds) -> Result<Items<i64>, NoMemory>
    ensures { IfOk result (λ l. l ≡ map (base_cell bounds.now) (map cell_of types.now)) }
{
    let mut cells = Items::new(alloc);
    for ty in types {
        cells.push(base_cell(*ty, bounds))?;
    }
    Ok(cells)
}

/// The base input: 0 in each pointer cell of the tested function's parameters, the base value in each int cell, and an
/// empty stream.
pub fn base_input(alloc: Global, checked: &Checked, bounds: &Bounds) -> Result<Input, NoMemory>
    ensures base { IfOk result (λ h. h ≡ base_input_of bounds.now (params_of (core_of checked.now))) }
    ensures input { IfOk result (IsInput (core_of checked.now) bounds.now) }
    ensures few { IfOk result (λ h. length h.cells < 10 ^ 18) }
{
    let types = param_cells(alloc, checked)?;
    if types.len() >= 1_000_000_000_000_000_000 {
        return Err(NoMemory);
    }
    let _lo = bounds.lo();
    let cells = base_cells(alloc, types.as_slice(), bounds)?;
    let stream = Items::new(alloc);
    Ok(Input { cells, stream })
}
