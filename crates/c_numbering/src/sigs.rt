//! The types of functions and globals by their numbers.

ghost use Rattle.std.specs.Prelude.{◌≡◌, [], ◌∷◌, ◌++◌, length, map, unwrap_or, IfOk, OnOk};
ghost use Rattle.cc_model.specs.declared.typing.Variable.{Variable as DeclaredVariable};
ghost use Rattle.cc_model.specs.Types.{void_type};
ghost use Rattle.cc_model.specs.CheckedProgram as checked;
ghost use Rattle.c_numbering.specs.Table.{Numbered, AllNumbered};
ghost use Rattle.c_numbering.specs.Sigs.{AddsNumbers, SigsNumbered};

use crate::table::Table;
use cc_model::Sig;
use cc_model::base::{NoMemory, TyId};
use cc_model::typing::{BaseType, CType, Function, Variable};
use sqlite_items::Items;
use std::alloc::Global;

/// Adds the number of a type, where it is known.
fn add_known(
    table: &mut Table,
    ty: &Option<CType>,
    numbers: &mut Items<TyId>,
) -> Result<(), NoMemory>
    ensures { OnOk result (AddsNumbers table.old table.new numbers.old numbers.new (checked.known (ty.now ∷ []))) }
{
    let ty = match ty {
        Some(ty) => ty,
        None => return Ok(()),
    };
    let number = table.number_of(ty)?;
    numbers.push(number)?;
    Ok(())
}

/// The numbers of those types that are known.
pub fn known_numbers(
    alloc: Global,
    table: &mut Table,
    types: &[Option<CType>],
) -> Result<Items<TyId>, NoMemory>
    ensures { IfOk result (λ ns. AllNumbered table.old table.new ns (checked.known types.now)) }
{
    let mut numbers = Items::new(alloc);
    for ty in types {
        add_known(table, ty, &mut numbers)?;
    }
    Ok(numbers)
}

/// The numbers of the types of globals.
pub fn global_numbers(
    alloc: Global,
    table: &mut Table,
    globals: &[Variable],
) -> Result<Items<TyId>, NoMemory>
    ensures { IfOk result (λ ns. AllNumbered table.old table.new ns
        (checked.known (map (λ (v : DeclaredVariable). v.ty) globals.now))) }
{
    let mut numbers = Items::new(alloc);
    for global in globals {
        add_known(table, &global.ty, &mut numbers)?;
    }
    Ok(numbers)
}

/// The number of the type of a result; that of `void` where it isn't known.
fn result_number(table: &mut Table, ty: &Option<CType>) -> Result<TyId, NoMemory>
    ensures { IfOk result (λ n. Numbered table.old table.new n.0 (unwrap_or ty.now void_type)) }
{
    match ty {
        Some(ty) => table.number_of(ty),
        None => table.number_of_plain(BaseType::Void, 0),
    }
}

/// The types of a function, with those of its locals.
fn sig(
    alloc: Global,
    table: &mut Table,
    function: &Function,
    slots: &[CType],
) -> Result<Sig, NoMemory>
    ensures { IfOk result (λ s. SigsNumbered table.old table.new (function.now ∷ []) (slots.now ∷ []) (s ∷ [])) }
{
    let params = known_numbers(alloc, table, function.params.as_slice())?;
    let number = result_number(table, &function.result)?;
    let slots = table.numbers_of(alloc, slots)?;
    Ok(Sig {
        params,
        result: number,
        slots,
    })
}

/// The types of functions; `slots` has those of each one's locals.
pub fn sigs(
    alloc: Global,
    table: &mut Table,
    functions: &[Function],
    slots: &[Items<CType>],
) -> Result<Items<Sig>, NoMemory>
    requires { length slots.now ≡ length functions.now }
    ensures { IfOk result (λ ss. SigsNumbered table.old table.new functions.now slots.now ss) }
{
    let mut sigs = Items::new(alloc);
    for (k, function) in functions.iter().enumerate() {
        sigs.push(sig(alloc, table, function, slots[k].as_slice())?)?;
    }
    Ok(sigs)
}
