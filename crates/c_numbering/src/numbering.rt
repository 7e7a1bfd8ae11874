//! All types of a program by their numbers.

ghost use Rattle.std.specs.Prelude.{◌≡◌, length, IfOk};
ghost use Rattle.c_numbering.specs.Layouts.{LaidOut};
ghost use Rattle.c_numbering.specs.Numbers.{BothNumbered, FileNumbered, IsNumbering};

use crate::layouts::layouts;
use crate::sigs::{global_numbers, sigs};
use crate::table::Table;
use cc_model::base::{NoMemory, TyId};
use cc_model::typing::{CType, File, Member, Variable};
use cc_model::{Layout, Sig, Ty};
use sqlite_items::Items;
use std::alloc::Global;

/// The types of a program by their numbers: each type and its cells, and the numbers of the types of expressions,
/// functions and globals.
#[derive(Drop)]
pub struct Numbering {
    pub tys: Items<Ty>,
    pub layouts: Items<Layout>,
    pub expr_tys: Items<TyId>,
    pub funcs: Items<Sig>,
    pub globals: Items<TyId>,
}

/// The numbers of the types of expressions; those of declarations are put in behind them.
fn expression_numbers(
    alloc: Global,
    table: &mut Table,
    expressions: &[CType],
    declarations: &[CType],
) -> Result<Items<TyId>, NoMemory>
    ensures { IfOk result (λ ns. BothNumbered table.old table.new ns expressions.now declarations.now) }
{
    let numbers = table.numbers_of(alloc, expressions)?;
    let _declared = table.numbers_of(alloc, declarations)?;
    Ok(numbers)
}

/// The types by their numbers, where all but the cells of types is given.
fn with_layouts(
    alloc: Global,
    table: &mut Table,
    structs: &[Items<Member>],
    expr_tys: Items<TyId>,
    globals: Items<TyId>,
    funcs: Items<Sig>,
) -> Result<Numbering, NoMemory>
    ensures laid { IfOk result (λ n. LaidOut structs.now table.old n.tys n.layouts) }
    ensures expressions { IfOk result (λ n. n.expr_tys ≡ expr_tys) }
    ensures globals { IfOk result (λ n. n.globals ≡ globals) }
    ensures functions { IfOk result (λ n. n.funcs ≡ funcs) }
{
    let layouts = layouts(alloc, table, structs)?;
    let tys = table.tys(alloc)?;
    Ok(Numbering {
        tys,
        layouts,
        expr_tys,
        funcs,
        globals,
    })
}

/// The types by their numbers, where those of expressions are given.
fn with_file(
    alloc: Global,
    table: &mut Table,
    file: &File,
    globals: &[Variable],
    slots: &[Items<CType>],
    expr_tys: Items<TyId>,
) -> Result<Numbering, NoMemory>
    requires { length slots.now ≡ length file.now.functions }
    ensures numbered { IfOk result (λ n. FileNumbered file.now globals.now slots.now table.old n) }
    ensures expressions { IfOk result (λ n. n.expr_tys ≡ expr_tys) }
{
    let globals = global_numbers(alloc, table, globals)?;
    let funcs = sigs(alloc, table, file.functions.as_slice(), slots)?;
    with_layouts(
        alloc,
        table,
        file.structs.as_slice(),
        expr_tys,
        globals,
        funcs,
    )
}

/// Numbers the types of a program's expressions and declarations; `slots` has the types of each function's locals.
pub fn number_types(
    alloc: Global,
    expressions: &[CType],
    declarations: &[CType],
    file: &File,
    globals: &[Variable],
    slots: &[Items<CType>],
) -> Result<Numbering, NoMemory>
    requires { length slots.now ≡ length file.now.functions }
    ensures { IfOk result (λ n. IsNumbering expressions.now declarations.now file.now globals.now slots.now n) }
{
    let mut table = Table::new(alloc)?;
    let expr_tys = expression_numbers(alloc, &mut table, expressions, declarations)?;
    with_file(alloc, &mut table, file, globals, slots, expr_tys)
}
