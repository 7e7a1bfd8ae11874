//! The types of the cells of an input.

ghost use Rattle.std.specs.Prelude.{◌≡◌, IfOk, map, drop};
ghost use Rattle.std.specs.Option.{option_copied};
ghost use Rattle.cc_model.specs.CheckedProgram.{cell_of, cells_at, name_at, slot_layout, body_in, is_func, core_of};
ghost use Rattle.cc_model.specs.Resolve.{first_cell};
ghost use Rattle.cc_model.specs.Runs.{params_of};
ghost use Rattle.input_map.specs.Params.{entry_item};

use cc_model::base::{CellTy, NoMemory, TyId};
use cc_model::trees::Item;
use cc_model::{Checked, Func, Sig, Target};
use sqlite_items::Items;
use std::alloc::Global;

/// The cells of a type.
pub fn layout(checked: &Checked, ty: TyId) -> &[CellTy]
    ensures { map cell_of result.now ≡ cells_at checked.now ty.0 }
{
    match checked.layouts.get(ty.0 as usize) {
        Some(cells) => cells.as_slice(),
        None => &[],
    }
}

/// What the name at a token means.
fn name(checked: &Checked, token: u32) -> Option<Target>
    ensures { result ≡ name_at checked.now token }
{
    match checked.names.get(token as usize) {
        Some(name) => *name,
        None => None,
    }
}

/// Whether a name means the tested function.
fn is_entry(checked: &Checked, token: u32) -> bool
    ensures { result ≡ is_func checked.now (checked.now).entry (name_at checked.now token) }
{
    match name(checked, token) {
        Some(Target::Func(number)) => checked.entry == number,
        Some(Target::Global(_)) => false,
        Some(Target::Local(_)) => false,
        Some(Target::Field(_)) => false,
        None => false,
    }
}

/// The function of an item, where it is the tested one.
fn entry_in<'a>(checked: &Checked, item: &'a Item) -> Option<&'a Func>
    ensures { option_copied result ≡ entry_item checked.now item.now }
{
    match item {
        Item::Func(function) => {
            if is_entry(checked, function.name) {
                Some(function)
            } else {
                None
            }
        }
        _ => None,
    }
}

/// The tested function, where it has a body.
fn entry_body(checked: &Checked) -> Option<&Func>
    ensures { option_copied result ≡ body_in checked.now (checked.now).entry ((checked.now).program).items }
{
    for item in checked.program.items.as_slice() {
        if let Some(function) = entry_in(checked, item) {
            return Some(function);
        }
    }
    None
}

/// The first of some cells: that of a parameter.
fn first_cell(cells: &[CellTy]) -> CellTy
    ensures { cell_of result ≡ first_cell (map cell_of cells.now) }
{
    match cells.first() {
        Some(cell) => *cell,
        None => CellTy::Int,
    }
}

/// The type of a local of a function.
fn slot_type(checked: &Checked, sig: &Sig, token: u32) -> TyId
    ensures { cells_at checked.now result.0
        ≡ (slot_layout checked.now (Some sig.now) (name_at checked.now token)).cells }
{
    let Some(Target::Local(slot)) = name(checked, token) else {
        return TyId(0);
    };
    match sig.slots.get(slot as usize) {
        Some(ty) => *ty,
        None => TyId(0),
    }
}

/// The types of the cells of the tested function's parameters.
pub fn param_cells(alloc: Global, checked: &Checked) -> Result<Items<CellTy>, NoMemory>
    ensures { IfOk result (λ l. map cell_of l ≡ params_of (core_of checked.now)) }
{
    let mut cells = Items::new(alloc);
    let Some(sig) = checked.funcs.get(checked.entry as usize) else {
        return Ok(cells);
    };
    let Some(function) = entry_body(checked) else {
        return Ok(cells);
    };
    for param in function.params.as_slice() {
        cells.push(first_cell(layout(checked, slot_type(checked, sig, param.name))))?;
    }
    Ok(cells)
}
