//! The cells of the globals at the start of a run.

ghost use Rattle.std.specs.Prelude.{◌≡◌, ◌++◌, ◌+◌, drop, length, map, slice_get, IfOk, OnOk};
ghost use Rattle.cc_model.specs.declared.checked.Checked.{Checked as PlainChecked};
ghost use Rattle.cc_model.specs.Core as core;
ghost use Rattle.cc_model.specs.CheckedProgram.{cell_of, start_of, starts_of, global_parts, core_of};
ghost use Rattle.sym_run.specs.Beside.{IsValue};
ghost use Rattle.sym_run.specs.Remembers.{Every};
ghost use Rattle.sym_run.specs.Starting.{value_starting, cells_starting};

use crate::machine::is_value;
use cc_model::Checked;
use cc_model::base::{CellTy, Items, NoMemory, TyId};
use cc_model::trees::{GlobalPart, GlobalStart, Item, StartValue};
use checked_memory::{Cell, Value};
use input_map::layout;
use std::alloc::Global;

/// What a number's cell starts with.
fn int_start(start: Option<GlobalStart>) -> Value
    ensures { (c : PlainChecked) → result ≡ value_starting (start_of c start core.int_cell) }
{
    match start {
        None => Value::Int(0),
        Some(start) => match start.value {
            StartValue::Number(_, number) => Value::Int(i64::from(number)),
            StartValue::Negative(_, _, number) => Value::Int(-i64::from(number)),
            StartValue::Null(_) => Value::Null,
        },
    }
}

/// What a cell of a type starts with.
fn start_value(start: Option<GlobalStart>, ty: CellTy) -> Value
    ensures { (c : PlainChecked) → result ≡ value_starting (start_of c start (cell_of ty)) }
{
    match ty {
        CellTy::Int => int_start(start),
        CellTy::Ptr(_) => Value::Null,
    }
}

/// Adds the cells of a global, of these types. No memory, too, where a number has more than 32 bits.
fn add_global(
    cells: &mut Items<Cell>,
    start: Option<GlobalStart>,
    types: &[CellTy],
) -> Result<(), NoMemory>
    ensures cells { OnOk result ((c : PlainChecked)
        → cells.new ≡ cells.old ++ cells_starting (map (start_of c start) (map cell_of types.now))) }
    ensures values { OnOk result (Every (λ c. IsValue c.value) cells.old → Every (λ c. IsValue c.value) cells.new) }
{
    for ty in types {
        let value = start_value(start, *ty);
        if !is_value(value) {
            return Err(NoMemory);
        }
        cells.push(Cell { value, shadow: 0 })?;
    }
    Ok(())
}

/// The types from a number on.
fn types_from(types: &[TyId], first: usize) -> &[TyId]
    ensures { result.now ≡ drop first types.now }
{
    if first < types.len() {
        &types[first..]
    } else {
        &[]
    }
}

/// The type with a number.
fn type_at(types: &[TyId], number: usize) -> Option<TyId>
    ensures { result ≡ slice_get types.now number }
{
    types.get(number).copied()
}

/// Adds the cells of globals, of these types.
fn add_globals(
    cells: &mut Items<Cell>,
    checked: &Checked,
    parts: &[GlobalPart],
    types: &[TyId],
) -> Result<(), NoMemory>
    ensures cells { OnOk result (cells.new ≡ cells.old ++ cells_starting (starts_of checked.now parts.now types.now)) }
    ensures values { OnOk result (Every (λ c. IsValue c.value) cells.old → Every (λ c. IsValue c.value) cells.new) }
{
    for (number, part) in parts.iter().enumerate() {
        if let Some(ty) = type_at(types, number) {
            add_global(cells, part.start, layout(checked, ty))?;
        }
    }
    Ok(())
}

/// Adds the cells of an item's globals, of which the first has this number, and answers the number of the next global.
fn add_item(
    cells: &mut Items<Cell>,
    checked: &Checked,
    item: &Item,
    first: usize,
) -> Result<usize, NoMemory>
    ensures cells { OnOk result (cells.new
        ≡ cells.old ++ cells_starting (starts_of checked.now (global_parts checked.now item.now)
        (drop first checked.now.globals))) }
    ensures values { OnOk result (Every (λ c. IsValue c.value) cells.old → Every (λ c. IsValue c.value) cells.new) }
    ensures next { IfOk result (λ n. n ≡ first + length (global_parts checked.now item.now)) }
{
    match item {
        Item::Globals(_, parts) => {
            let types = types_from(checked.globals.as_slice(), first);
            add_globals(cells, checked, parts.as_slice(), types)?;
            match first.checked_add(parts.len()) {
                Some(next) => Ok(next),
                None => Err(NoMemory),
            }
        }
        _ => Ok(first),
    }
}

/// The cells of the globals, with what they start with.
pub(crate) fn global_cells(alloc: Global, checked: &Checked) -> Result<Items<Cell>, NoMemory>
    ensures cells { IfOk result (λ cells. cells ≡ cells_starting (core_of checked.now).globals) }
    ensures values { IfOk result (λ cells. Every (λ c. IsValue c.value) cells) }
{
    let mut cells = Items::new(alloc);
    let mut next = 0;
    for item in checked.program.items.as_slice() {
        next = add_item(&mut cells, checked, item, next)?;
    }
    Ok(cells)
}
