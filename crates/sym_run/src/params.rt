//! The types of a function's parameters.

ghost use Rattle.std.specs.Prelude.{◌≡◌, Some, IfOk, map, slice_get};
ghost use Rattle.std.specs.Option.{option_copied};
ghost use Rattle.cc_model.specs.CheckedProgram.{cell_of, cells_at, name_at, slot_layout, body_in, is_func, core_of};
ghost use Rattle.cc_model.specs.Core.{Func as PlainFunc};
ghost use Rattle.cc_model.specs.Resolve.{first_cell};
ghost use Rattle.sym_run.specs.Params.{function_in};

use cc_model::base::{CellTy, Items, NoMemory, TyId};
use cc_model::trees::Item;
use cc_model::{Checked, Func, Sig, Target};
use std::alloc::Global;

/// The cells of a type.
fn layout(checked: &Checked, ty: TyId) -> &[CellTy]
    ensures { map cell_of result.now ≡ cells_at checked.now ty.0 }
{
    match checked.layouts.get(ty.0 as usize) {
        Some(cells) => cells.as_slice(),
        None => &[],
    }
}

/// What the name at a token means.
fn name(checked: &Checked, token: u32) -> Option<Target>
    ensures { result ≡ name_at checked.now token }
{
    match checked.names.get(token as usize) {
        Some(name) => *name,
        None => None,
    }
}

/// Whether a name means the function with a number.
fn is_function(checked: &Checked, number: u32, token: u32) -> bool
    ensures { result ≡ is_func checked.now number (name_at checked.now token) }
{
    match name(checked, token) {
        Some(Target::Func(found)) => number == found,
        Some(Target::Global(_)) => false,
        Some(Target::Local(_)) => false,
        Some(Target::Field(_)) => false,
        None => false,
    }
}

/// The function of an item, where it is the one with a number.
fn function_in<'a>(checked: &Checked, number: u32, item: &'a Item) -> Option<&'a Func>
    ensures { option_copied result ≡ function_in checked.now number item.now }
{
    match item {
        Item::Func(function) => {
            if is_function(checked, number, function.name) {
                Some(function)
            } else {
                None
            }
        }
        _ => None,
    }
}

/// The function with a number, where it has a body.
fn body(checked: &Checked, number: u32) -> Option<&Func>
    ensures { option_copied result ≡ body_in checked.now number ((checked.now).program).items }
{
    for item in checked.program.items.as_slice() {
        if let Some(function) = function_in(checked, number, item) {
            return Some(function);
        }
    }
    None
}

/// The first of some cells: that of a parameter.
fn first_cell(cells: &[CellTy]) -> CellTy
    ensures { cell_of result ≡ first_cell (map cell_of cells.now) }
{
    match cells.first() {
        Some(cell) => *cell,
        None => CellTy::Int,
    }
}

/// The type of a local of a function.
fn slot_type(checked: &Checked, sig: &Sig, token: u32) -> TyId
    ensures { cells_at checked.now result.0
        ≡ (slot_layout checked.now (Some sig.now) (name_at checked.now token)).cells }
{
    let Some(Target::Local(slot)) = name(checked, token) else {
        return TyId(0);
    };
    match sig.slots.get(slot as usize) {
        Some(ty) => *ty,
        None => TyId(0),
    }
}

/// The types of the parameters' cells of the function with a number. No memory, too, where there is no such function.
pub(crate) fn param_types(
    alloc: Global,
    checked: &Checked,
    number: u32,
) -> Result<Items<CellTy>, NoMemory>
    ensures { IfOk result (λ l. (f : PlainFunc) × (slice_get (core_of checked.now).funcs number ≡ Some f)
        × (map cell_of l ≡ f.params)) }
{
    let Some(sig) = checked.funcs.get(number as usize) else {
        return Err(NoMemory);
    };
    let mut types = Items::new(alloc);
    let Some(function) = body(checked, number) else {
        return Ok(types);
    };
    for param in function.params.as_slice() {
        types.push(first_cell(layout(checked, slot_type(checked, sig, param.name))))?;
    }
    Ok(types)
}
