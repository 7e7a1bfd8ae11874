//! Where a run begins.

ghost use Rattle.std.specs.Prelude.{◌≡◌, ◌++◌, ◌∷◌, [], ◌<◌, ◌≤◌, ◌^◌, ◌-◌, ℕ, suc, length, map, slice_get, Some, IfOk};
ghost use Rattle.std.specs.Prelude.{OnOk, pos, negsuc, ◌≤ℤ◌};
ghost use Rattle.checked_memory.specs.declared.values.Cell.{Cell as PlainCell};
ghost use Rattle.cc_model.specs.CheckedProgram.{cell_of, core_of};
ghost use Rattle.cc_model.specs.Graphs.{PointsToCells};
ghost use Rattle.cc_model.specs.Runs.{params_of, IsInput};
ghost use Rattle.cc_model.specs.Traced as traced;
ghost use Rattle.sym_run.specs.Accesses.{cells_from, symbols_from};
ghost use Rattle.sym_run.specs.Stands.{setting};
ghost use Rattle.sym_run.specs.Starting.{singles, null_cell, pointer_to_param, IsLaid};
ghost use Rattle.sym_run.specs.Running.{Came};

use crate::access::{new_cell, number_at};
use crate::globals::global_cells;
use crate::journal::Journal;
use crate::machine::{Fixed, Machine};
use crate::objects::Objects;
use crate::symbols::Symbols;
use cc_model::base::{CellTy, Items, NoMemory};
use checked_memory::{Cell, Memory, Value};
use input_map::param_cells;
use std::alloc::Global;
use sym_expr::{Place, Places};
use tac_lower::TacFunc;

/// The cells of the parameters, from the input's numbers, with their places and symbols. No memory, too, where there
/// are fewer numbers than cells.
fn arg_cells(
    alloc: Global,
    symbols: &mut Symbols,
    places: &mut Places,
    types: &[CellTy],
    numbers: &[i64],
) -> Result<Items<Cell>, NoMemory>
    requires { length types.now < 2 ^ 32 }
    ensures cells { IfOk result (λ cells. cells ≡ cells_from (suc (length symbols.old)) types.now numbers.now) }
    ensures places { OnOk result (places.new ≡ places.old ++ traced.arg_places 0 (map cell_of types.now)) }
    ensures symbols { OnOk result (symbols.new ≡ symbols.old ++ symbols_from (length places.old) types.now) }
    ensures enough { OnOk result (length types.now ≤ length numbers.now) }
{
    let mut cells = Items::new(alloc);
    for (number, ty) in types.iter().enumerate() {
        match number_at(numbers, number) {
            None => return Err(NoMemory),
            Some(value) => {
                let place = Place::Arg(number as u32);
                cells.push(new_cell(symbols, places, place, *ty, value)?)?;
            }
        }
    }
    Ok(cells)
}

/// Makes an object of each cell. No memory, too, where 2^32 - 1 objects were made.
fn make_each(memory: &mut Memory, cells: &[Cell]) -> Result<(), NoMemory>
    ensures { OnOk result (memory.new ≡ record {
      made = memory.old.made
          ++ singles cells.now;
      touched = memory.old.touched;
    }) }
{
    for cell in cells {
        if memory.made() >= u32::MAX as usize {
            return Err(NoMemory);
        }
        memory.make(&[*cell])?;
    }
    Ok(())
}

/// A memory of the globals' cells as one object, and of one object for each parameter's cell.
fn begin_memory(alloc: Global, globals: &[Cell], args: &[Cell]) -> Result<Memory, NoMemory>
    ensures { IfOk result (λ m. m ≡ record { made = globals.now ∷ singles args.now; touched = [] }) }
{
    let mut memory = Memory::new(alloc);
    memory.make(globals)?;
    make_each(&mut memory, args)?;
    Ok(memory)
}

/// The globals and parameters of a run, with the parameters' symbols. No memory, too, where the input has too few
/// cells.
fn begin_objects(fixed: &Fixed<'_>, symbols: &mut Symbols) -> Result<Objects, NoMemory>
    requires { symbols.old ≡ [] }
    ensures { IfOk result (λ o. IsLaid fixed.now.checked.now fixed.now.input.now symbols.new o) }
{
    let globals = global_cells(fixed.alloc, fixed.checked)?;
    let types = param_cells(fixed.alloc, fixed.checked)?;
    if types.len() > u32::MAX as usize {
        return Err(NoMemory);
    }
    let mut places = Places::new(fixed.alloc);
    let numbers = fixed.input.cells.as_slice();
    let args = arg_cells(fixed.alloc, symbols, &mut places, types.as_slice(), numbers)?;
    let memory = begin_memory(fixed.alloc, globals.as_slice(), args.as_slice())?;
    Ok(Objects {
        memory,
        firsts: Items::new(fixed.alloc),
        places,
        taken: 0,
    })
}

/// So many temporaries, which hold NULL.
pub(crate) fn nulls(alloc: Global, count: u32) -> Result<Items<Cell>, NoMemory>
    ensures { IfOk result (λ l. (n : ℕ) (c : PlainCell) → slice_get l n ≡ Some c → c ≡ null_cell) }
{
    let mut cells = Items::new(alloc);
    for _number in 0..count {
        cells.push(Cell {
            value: Value::Null,
            shadow: 0,
        })?;
    }
    Ok(cells)
}

/// The slot with a number, where the first ones are parameters: it points to the parameter's object.
fn slot(number: u32, params: u32) -> Option<Cell>
    requires { number < 2 ^ 32 - 1 }
    ensures { (c : PlainCell) → result ≡ Some c → c ≡ pointer_to_param number }
{
    if number < params {
        Some(Cell {
            value: Value::Made(number + 1, 0),
            shadow: 0,
        })
    } else {
        None
    }
}

/// So many slots, of which those of the parameters are set.
fn param_slots(alloc: Global, count: u32, params: u32) -> Result<Items<Option<Cell>>, NoMemory>
    ensures { IfOk result (λ l. (n : ℕ) (c : PlainCell) → slice_get l n ≡ Some (Some c) → c ≡ pointer_to_param n) }
{
    let mut slots = Items::new(alloc);
    for number in 0..count {
        slots.push(slot(number, params))?;
    }
    Ok(slots)
}

/// The code of the tested function. No memory, too, where there is none.
fn entry_code(fixed: &Fixed<'_>) -> Result<TacFunc, NoMemory>
    ensures code { IfOk result (λ f. slice_get fixed.now.tac.now.funcs fixed.now.checked.now.entry ≡ Some f) }
    ensures function { OnOk result (fixed.now.checked.now.entry < length fixed.now.checked.now.funcs) }
{
    let entry = fixed.checked.entry as usize;
    if entry >= fixed.checked.funcs.len() {
        return Err(NoMemory);
    }
    match fixed.tac.funcs.get(entry).copied() {
        Some(code) => Ok(code),
        None => Err(NoMemory),
    }
}

/// The machine before the first instruction of the tested function.
pub(crate) fn begin(fixed: &Fixed<'_>) -> Result<Machine, NoMemory>
    requires points { PointsToCells (core_of fixed.now.checked.now).layouts
        (params_of (core_of fixed.now.checked.now)) }
    requires input { IsInput (core_of fixed.now.checked.now) fixed.now.bounds.now fixed.now.input.now }
    ensures { IfOk result (λ m. Came (setting fixed.now.checked.now fixed.now.tac.now fixed.now.bounds.now
        fixed.now.input.now) m) }
{
    let code = entry_code(fixed)?;
    let _low = fixed.bounds.lo();
    let _high = fixed.bounds.hi();
    let mut symbols = Symbols::new(fixed.alloc);
    let objects = begin_objects(fixed, &mut symbols)?;
    Ok(Machine {
        pc: code.first,
        temps: nulls(fixed.alloc, code.temps)?,
        slots: param_slots(fixed.alloc, code.slots, code.params)?,
        stack: Items::new(fixed.alloc),
        steps: fixed.bounds.steps(),
        events_left: fixed.bounds.depth(),
        objects,
        symbols,
        journal: Journal {
            events: Items::new(fixed.alloc),
            terms: Items::new(fixed.alloc),
            clean: None,
        },
    })
}
