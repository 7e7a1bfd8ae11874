//! The code of a whole program.

ghost use Rattle.std.specs.Prelude.{◌≡◌, ◌<◌, ◌+◌, ℕ, List, length, map, OnOk, IfOk};
ghost use Rattle.cc_model.specs.declared.tokens.Token.{Token};
ghost use Rattle.cc_model.specs.Scopes.{Text};
ghost use Rattle.cc_model.specs.Core.{Func};
ghost use Rattle.cc_model.specs.Resolve.{func_of, first_cell};
ghost use Rattle.cc_model.specs.Compiles.{Compiles};
ghost use Rattle.cc_model.specs.CheckedProgram.{IsChecked, cell_of, cells_at, cells_of_all, core_of, no_body, func_if};
ghost use Rattle.tac_lower.specs.Tables.{AreTables, facts_of};
ghost use Rattle.tac_lower.specs.Seen.{seen};
ghost use Rattle.tac_lower.specs.Emitted.{AddsFunc};
ghost use Rattle.tac_lower.specs.Finished.{first_in, AreFuncs, TempsAbove};
ghost use Rattle.tac_lower.specs.Bodies.{func_in, func_at, AreBodies};
ghost use Rattle.tac_lower.specs.Written.{IsDefined, AreWritten};

use crate::bodies::bodies;
use crate::emit::counted;
use crate::finish::{all_completed, in_order, temporaries};
use crate::instr::Instr;
use crate::known::{Known, Tables};
use crate::tables::{narrow, tables};
use crate::tac::{Tac, TacFunc};
use cc_model::base::{CellTy, Items, NoMemory, TyId};
use cc_model::trees::Item;
use cc_model::{Checked, Func, Sig, Target};
use std::alloc::Global;

/// More instructions than any source has.
const ROOM: usize = 0x8000_0000;

/// The first of the cells; an int where there is none.
fn first_or_int(cells: &[CellTy]) -> CellTy
    ensures { cell_of result ≡ first_cell (map cell_of cells.now) }
{
    match cells.first() {
        Some(cell) => *cell,
        None => CellTy::Int,
    }
}

impl Known<'_> {
    /// The first cell of a type; an int where it has none.
    fn value_of_type(&self, ty: TyId) -> CellTy
        ensures { cell_of result ≡ first_cell (cells_at self.now.checked.now ty.0) }
    {
        match self.checked.layouts.get(ty.0 as usize) {
            Some(layout) => first_or_int(layout.as_slice()),
            None => CellTy::Int,
        }
    }

    /// What the function gives whose name stands at a token; an int for `void`.
    #[tactic(auto, unfolding(crate::specs::Tables::facts_of))]
    fn result_at(&self, t: u32) -> CellTy
        ensures { cell_of result ≡ (facts_of self.now.checked.now self.now.function).results t }
    {
        let Some(Target::Func(number)) = self.name(t) else {
            return CellTy::Int;
        };
        match self.checked.funcs.get(number as usize) {
            Some(sig) => self.value_of_type(sig.result),
            None => CellTy::Int,
        }
    }

    /// Writes the code of the function, which has this body.
    #[tactic(auto, unfolding(crate::specs::Tables::facts_of))]
    fn with_body(&self, f: &Func, code: &mut Items<Instr>) -> Result<(), NoMemory>
        ensures { OnOk result (AddsFunc self.now.checked.now
            (func_of (facts_of self.now.checked.now self.now.function) f.now) code.old code.new) }
    {
        self.function(self.result_at(f.name), f.body.as_slice(), code)
    }

    /// Writes the code of the function, which has no body: that of an empty one.
    fn without_body(&self, code: &mut Items<Instr>) -> Result<(), NoMemory>
        ensures { OnOk result (AddsFunc self.now.checked.now (no_body self.now.checked.now) code.old code.new) }
    {
        self.function(CellTy::Int, &[], code)
    }

    /// Writes the code of the function whose body an item is.
    #[tactic(auto, unfolding(crate::specs::Tables::facts_of))]
    fn from_item(&self, item: &Item, code: &mut Items<Instr>) -> Result<(), NoMemory>
        ensures { OnOk result (AddsFunc self.now.checked.now
            (func_if self.now.checked.now self.now.function (func_in (Some item.now))) code.old code.new) }
    {
        match item {
            Item::Func(f) => self.with_body(f, code),
            _ => self.without_body(code),
        }
    }

    /// Writes the code of the function whose body's item has this index.
    fn define(&self, at: Option<usize>, code: &mut Items<Instr>) -> Result<(), NoMemory>
        ensures { OnOk result (AddsFunc self.now.checked.now
            (func_if self.now.checked.now self.now.function
            (func_at (self.now.checked.now.program).items (Some at))) code.old code.new) }
    {
        let Some(at) = at else {
            return self.without_body(code);
        };
        match self.checked.program.items.get(at) {
            Some(item) => self.from_item(item, code),
            None => self.without_body(code),
        }
    }
}

/// Writes the code of function `n`, and tells what is known of it by then: its `first` is how many instructions stand
/// behind its first one.
fn defined(
    checked: &Checked,
    tables: &Tables,
    n: usize,
    at: Option<usize>,
    sig: &Sig,
    code: &mut Items<Instr>,
) -> Result<TacFunc, NoMemory>
    requires { AreTables checked.now tables.now }
    ensures { IfOk result (λ f. IsDefined checked.now
        (func_if checked.now n (func_at (checked.now.program).items (Some at))) sig.now code.old code.new f) }
{
    let function = counted(n)?;
    let known = Known {
        checked,
        function,
        tables,
    };
    known.define(at, code)?;
    let first = counted(code.len())?;
    let params = counted(sig.params.len())?;
    let slots = counted(sig.slots.len())?;
    Ok(TacFunc {
        first,
        params,
        temps: 0,
        slots,
    })
}

/// The code of all functions, written from its end, and what is known of them by then, from the last to the first.
#[derive(Drop)]
struct Written {
    code: Items<Instr>,
    funcs: Items<TacFunc>,
}

/// Writes the code of all functions, from the last to the first.
fn write_all(
    alloc: Global,
    checked: &Checked,
    tables: &Tables,
    bodies: &[Option<usize>],
) -> Result<Written, NoMemory>
    requires tables { AreTables checked.now tables.now }
    requires bodies { AreBodies checked.now (checked.now.program).items (checked.now.program).items bodies.now }
    requires many { length bodies.now ≡ length checked.now.funcs }
    ensures { IfOk result (λ w. AreWritten checked.now 0 w.code w.funcs) }
{
    let sigs = checked.funcs.as_slice();
    let mut code = Items::new(alloc);
    let mut funcs = Items::new(alloc);
    let mut left = sigs.len();
    while left > 0 {
        left -= 1;
        let function = defined(checked, tables, left, bodies[left], &sigs[left], &mut code)?;
        funcs.push(function)?;
    }
    Ok(Written { code, funcs })
}

/// The number of instructions, where temporaries beside it fit 32 bits.
fn room(count: usize) -> Result<u32, NoMemory>
    ensures value { IfOk result (λ n. n ≡ count) }
    ensures room { OnOk result (4 + count < 4294967296) }
{
    if count < ROOM {
        Ok(count as u32)
    } else {
        Err(NoMemory)
    }
}

/// The three-address code of a checked program.
pub fn lower(alloc: Global, checked: &Checked) -> Result<Tac, NoMemory>
    requires { (text : ℕ → Text) × (tokens : List Token) × (entry : Text) × IsChecked text tokens entry checked.now }
    ensures compiles { IfOk result (λ t. Compiles (core_of checked.now) (map (seen checked.now) t.code)
        (λ f. first_in t f)) }
    ensures functions { IfOk result (λ t. AreFuncs checked.now.funcs t.funcs) }
    ensures temps { IfOk result (λ t. TempsAbove t.funcs t.code) }
    ensures globals { IfOk result (λ t. t.globals ≡ length (cells_of_all checked.now checked.now.globals)) }
{
    narrow(checked)?;
    let tables = tables(alloc, checked)?;
    let bodies = bodies(alloc, checked)?;
    let written = write_all(alloc, checked, &tables, bodies.as_slice())?;
    let total = room(written.code.len())?;
    let code = in_order(alloc, written.code.as_slice(), total)?;
    let temps = temporaries(code.as_slice())?;
    let funcs = all_completed(alloc, written.funcs.as_slice(), total, temps)?;
    Ok(Tac {
        funcs,
        globals: tables.all_cells,
        code,
    })
}
