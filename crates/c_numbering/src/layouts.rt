//! The cells of types.

ghost use Rattle.std.specs.Prelude.{◌≡◌, [], ◌∷◌, slice_get, unwrap_or, IfOk, OnOk};
ghost use Rattle.c_numbering.specs.Layouts as laid;
ghost use Rattle.c_numbering.specs.Table.{plain, base_ty};

use crate::table::Table;
use cc_model::base::{CellTy, NoMemory};
use cc_model::typing::{BaseType, CType, Member};
use cc_model::{Layout, Ty};
use sqlite_items::{Items, at};
use std::alloc::Global;

/// The cells of an array: those of its element, `length` times.
fn repeat(alloc: Global, cells: &[CellTy], length: u32) -> Result<Layout, NoMemory>
    ensures { IfOk result (λ l. l ≡ laid.times length cells.now) }
{
    let mut all = Items::new(alloc);
    for _time in 0..length {
        all.append(Items::from_slice(alloc, cells)?)?;
    }
    Ok(all)
}

/// One cell.
fn one_cell(alloc: Global, cell: CellTy) -> Result<Layout, NoMemory>
    ensures { IfOk result (λ l. l ≡ cell ∷ []) }
{
    let mut cells = Items::new(alloc);
    cells.push(cell)?;
    Ok(cells)
}

/// The cells at a number; none where there are none.
fn cells_at(alloc: Global, layouts: &[Layout], number: u32) -> Result<Layout, NoMemory>
    ensures { IfOk result (λ l. l ≡ unwrap_or (slice_get layouts.now number) []) }
{
    match at(layouts, number as usize) {
        Some(cells) => Ok(Items::from_slice(alloc, cells.as_slice())?),
        None => Ok(Items::new(alloc)),
    }
}

/// The cells of a type that is its base alone.
fn base_cells(alloc: Global, structs: &[Layout], base: BaseType) -> Result<Layout, NoMemory>
    ensures { IfOk result (λ l. l ≡ laid.entry_cells structs.now [] (base_ty base)) }
{
    match base {
        BaseType::Int => one_cell(alloc, CellTy::Int),
        BaseType::Void => Ok(Items::new(alloc)),
        BaseType::Struct(number) => cells_at(alloc, structs, number),
    }
}

/// The cells of a type that is no array.
fn plain_cells(
    alloc: Global,
    table: &mut Table,
    structs: &[Layout],
    base: BaseType,
    stars: u32,
) -> Result<Layout, NoMemory>
    ensures { IfOk result (λ l. laid.TypeLaid structs.now table.old table.new l (plain base stars)) }
{
    if stars == 0 {
        return base_cells(alloc, structs, base);
    }
    let target = table.number_of_plain(base, stars - 1)?;
    one_cell(alloc, CellTy::Ptr(target))
}

/// The cells of a type. What its pointers lead to is in the table afterwards.
fn type_cells(
    alloc: Global,
    table: &mut Table,
    structs: &[Layout],
    ty: &CType,
) -> Result<Layout, NoMemory>
    ensures { IfOk result (λ l. laid.TypeLaid structs.now table.old table.new l ty.now) }
{
    let mut cells = plain_cells(alloc, table, structs, ty.base, ty.stars)?;
    let lengths = ty.lengths.as_slice();
    for k in (0..lengths.len()).rev() {
        cells = repeat(alloc, cells.as_slice(), lengths[k])?;
    }
    Ok(cells)
}

/// Adds the cells of a field; it has none where its type isn't known.
fn add_field(
    alloc: Global,
    table: &mut Table,
    structs: &[Layout],
    field: &Member,
    cells: &mut Layout,
) -> Result<(), NoMemory>
    ensures { OnOk result (laid.FieldsLaid structs.now table.old table.new cells.old cells.new (field.now ∷ [])) }
{
    let ty = match &field.ty {
        Some(ty) => ty,
        None => return Ok(()),
    };
    let more = type_cells(alloc, table, structs, ty)?;
    cells.append(more)?;
    Ok(())
}

/// The cells of a struct: those of its fields.
fn struct_cells(
    alloc: Global,
    table: &mut Table,
    structs: &[Layout],
    fields: &[Member],
) -> Result<Layout, NoMemory>
    ensures { IfOk result (λ l. laid.FieldsLaid structs.now table.old table.new [] l fields.now) }
{
    let mut cells = Items::new(alloc);
    for field in fields {
        add_field(alloc, table, structs, field, &mut cells)?;
    }
    Ok(cells)
}

/// The cells of structs, in order of definition.
fn structs_cells(
    alloc: Global,
    table: &mut Table,
    structs: &[Items<Member>],
) -> Result<Items<Layout>, NoMemory>
    ensures { IfOk result (λ ls. laid.StructsLaid table.old table.new ls structs.now) }
{
    let mut layouts = Items::new(alloc);
    for fields in structs {
        let cells = struct_cells(alloc, table, layouts.as_slice(), fields.as_slice())?;
        layouts.push(cells)?;
    }
    Ok(layouts)
}

/// The cells of an entry.
fn entry_cells(
    alloc: Global,
    structs: &[Layout],
    before: &[Layout],
    ty: Ty,
) -> Result<Layout, NoMemory>
    ensures { IfOk result (λ l. l ≡ laid.entry_cells structs.now before.now ty) }
{
    match ty {
        Ty::Int => one_cell(alloc, CellTy::Int),
        Ty::Void => Ok(Items::new(alloc)),
        Ty::Ptr(target) => one_cell(alloc, CellTy::Ptr(target)),
        Ty::Struct(number) => cells_at(alloc, structs, number),
        Ty::Array(element, length) => {
            let cells = cells_at(alloc, before, element.0)?;
            repeat(alloc, cells.as_slice(), length)
        }
    }
}

/// The cells of the entries, in order.
fn entries_cells(alloc: Global, structs: &[Layout], tys: &[Ty]) -> Result<Items<Layout>, NoMemory>
    ensures { IfOk result (λ ls. ls ≡ laid.entries_cells structs.now [] tys.now) }
{
    let mut layouts = Items::new(alloc);
    for ty in tys {
        let cells = entry_cells(alloc, structs, layouts.as_slice(), *ty)?;
        layouts.push(cells)?;
    }
    Ok(layouts)
}

/// The cells of each type of the table, by its number, where the file defines these structs. What pointers lead to is
/// in the table afterwards.
pub fn layouts(
    alloc: Global,
    table: &mut Table,
    structs: &[Items<Member>],
) -> Result<Items<Layout>, NoMemory>
    ensures { IfOk result (λ ls. laid.LaidOut structs.now table.old table.new ls) }
{
    let structs = structs_cells(alloc, table, structs)?;
    let tys = table.tys(alloc)?;
    entries_cells(alloc, structs.as_slice(), tys.as_slice())
}
