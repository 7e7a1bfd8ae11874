//! Calls and returns.

ghost use Rattle.std.specs.Prelude.{◌≡◌, ◌+◌, ◌<◌, ◌^◌, ◌++◌, ◌∷◌, [], ℕ, suc, Some, length, slice_get, slice_set};
ghost use Rattle.std.specs.Prelude.{IfOk, OnOk};
ghost use Rattle.checked_memory.specs.declared.values.Cell.{Cell as PlainCell};
ghost use Rattle.cc_model.specs.Instructions.{i_call, i_return};
ghost use Rattle.sym_run.specs.Passing.{PassedOne, PassedAll, Entered};
ghost use Rattle.sym_run.specs.Stands.{Setting, setting, Did};

use crate::machine::{Fixed, Frame, Machine};
use crate::params::param_types;
use crate::start::nulls;
use cc_model::base::{CellTy, End, Items, NoMemory};
use checked_memory::Cell;
use std::alloc::Global;
use std::mem;
use tac_lower::TacFunc;

/// So many slots, of which none is set.
fn empty_slots(alloc: Global, count: u32) -> Result<Items<Option<Cell>>, NoMemory>
    ensures { IfOk result (λ l. (n : ℕ) (c : PlainCell) → slice_get l n ≡ Some (Some c) → ⊥) }
{
    let mut slots = Items::new(alloc);
    for _number in 0..count {
        slots.push(None)?;
    }
    Ok(slots)
}

/// A number some more further on. No memory, too, where it reaches 2^32.
fn further(number: u32, by: u32) -> Result<u32, NoMemory>
    ensures { IfOk result (λ n. n ≡ number + by) }
{
    match number.checked_add(by) {
        Some(sum) => Ok(sum),
        None => Err(NoMemory),
    }
}

/// The cell at an index.
fn cell_at(cells: &[Cell], index: usize) -> Option<Cell>
    ensures { result ≡ slice_get cells.now index }
{
    cells.get(index).copied()
}

/// The type at an index.
fn type_at(types: &[CellTy], index: usize) -> Option<CellTy>
    ensures { result ≡ slice_get types.now index }
{
    types.get(index).copied()
}

/// The code of a function. No memory, too, where there is no such function.
fn code_of(fixed: &Fixed<'_>, function: u32) -> Result<TacFunc, NoMemory>
    ensures { IfOk result (λ f. slice_get fixed.now.tac.now.funcs function ≡ Some f) }
{
    match fixed.tac.funcs.get(function as usize).copied() {
        Some(code) => Ok(code),
        None => Err(NoMemory),
    }
}

impl Machine {
    /// Goes on where a caller waits, with a result. No memory, too, where the caller doesn't have the temporary.
    fn resume(&mut self, frame: Frame, cell: Cell) -> Result<(), NoMemory>
        ensures { OnOk result (self.new ≡ record
            self.old { pc = frame.back; temps = slice_set frame.temps frame.dst cell; slots = frame.slots }) }
    {
        let Frame {
            dst,
            back,
            mut temps,
            slots,
        } = frame;
        if dst as usize >= temps.len() {
            return Err(NoMemory);
        }
        temps.set(dst as usize, cell);
        self.pc = back;
        self.temps = temps;
        self.slots = slots;
        Ok(())
    }

    /// Back to the caller with a result; without one the run ends.
    pub(crate) fn leave(&mut self, source: u32) -> Result<Option<End>, NoMemory>
        ensures { IfOk result (λ end. (w : Setting) → Did w self.old self.new (i_return source) end) }
    {
        let cell = self.temp(source)?;
        match self.stack.pop() {
            None => Ok(Some(End::Return)),
            Some(frame) => {
                self.resume(frame, cell)?;
                Ok(None)
            }
        }
    }

    /// The cells in `count` temporaries from one on. No memory, too, where one of them isn't there.
    fn arguments(&self, alloc: Global, first: u32, count: u32) -> Result<Items<Cell>, NoMemory>
        ensures cells { IfOk result (λ l. (n : ℕ) (c : PlainCell) → slice_get l n ≡ Some c
            → slice_get self.now.temps (first + n) ≡ Some c) }
        ensures count { IfOk result (λ l. length l ≡ count) }
    {
        let mut cells = Items::new(alloc);
        for number in 0..count {
            let at = further(first, number)?;
            let cell = self.temp(at)?;
            cells.push(cell)?;
        }
        Ok(cells)
    }

    /// Makes a caller wait: new temporaries and slots, and a place in the code to go on at.
    fn wait(
        &mut self,
        dst: u32,
        at: u32,
        temps: Items<Cell>,
        slots: Items<Option<Cell>>,
    ) -> Result<(), NoMemory>
        ensures { OnOk result (self.new ≡ record
            self.old {
              pc = at;
              temps = temps;
              slots = slots;
              stack = self.old.stack
                  ++ record { dst = dst; back = suc self.old.pc; temps = self.old.temps; slots = self.old.slots } ∷ [];
            }) }
    {
        let Some(back) = self.pc.checked_add(1) else {
            return Err(NoMemory);
        };
        let temps = mem::replace(&mut self.temps, temps);
        let slots = mem::replace(&mut self.slots, slots);
        self.pc = at;
        self.stack.push(Frame {
            dst,
            back,
            temps,
            slots,
        })?;
        Ok(())
    }

    /// Into a function, whose caller waits. No memory, too, where there is no such function.
    fn enter(&mut self, fixed: &Fixed<'_>, dst: u32, function: u32) -> Result<(), NoMemory>
        ensures { OnOk result (Entered (setting fixed.now.checked.now fixed.now.tac.now fixed.now.bounds.now
            fixed.now.input.now) self.old self.new dst function) }
    {
        let code = code_of(fixed, function)?;
        let temps = nulls(fixed.alloc, code.temps)?;
        let slots = empty_slots(fixed.alloc, code.slots)?;
        self.wait(dst, code.first, temps, slots)
    }

    /// Makes a parameter's object, with a step, and puts an argument into it; false where no step is left.
    fn pass(&mut self, alloc: Global, slot: u32, cell: Cell, ty: CellTy) -> Result<bool, NoMemory>
        ensures { IfOk result (λ done. (w : Setting) → PassedOne w self.old self.new slot cell ty done) }
    {
        if self.steps == 0 {
            return Ok(false);
        }
        self.steps -= 1;
        let pointer = self.objects.make(alloc, &[ty])?;
        self.objects.store(pointer, cell)?;
        self.bind(slot, pointer)?;
        Ok(true)
    }

    /// Passes arguments to parameters, one for one, as long as there are both; false where no step is left for the next
    /// one.
    fn pass_all(
        &mut self,
        alloc: Global,
        cells: &[Cell],
        types: &[CellTy],
    ) -> Result<bool, NoMemory>
        requires { length cells.now < 2 ^ 32 }
        ensures { IfOk result (λ done. (w : Setting) → PassedAll w self.old self.new cells.now types.now done) }
    {
        for slot in 0..cells.len() {
            let Some(cell) = cell_at(cells, slot) else {
                return Ok(true);
            };
            let Some(ty) = type_at(types, slot) else {
                return Ok(true);
            };
            let done = self.pass(alloc, slot as u32, cell, ty)?;
            if !done {
                return Ok(false);
            }
        }
        Ok(true)
    }

    /// Into a function, with `count` arguments from a temporary on, and a step for each parameter's cell.
    pub(crate) fn call(
        &mut self,
        fixed: &Fixed<'_>,
        dst: u32,
        function: u32,
        first: u32,
        count: u32,
    ) -> Result<Option<End>, NoMemory>
        ensures { IfOk result (λ end. Did (setting fixed.now.checked.now fixed.now.tac.now fixed.now.bounds.now
            fixed.now.input.now) self.old self.new (i_call dst function first count) end) }
    {
        let types = param_types(fixed.alloc, fixed.checked, function)?;
        let cells = self.arguments(fixed.alloc, first, count)?;
        self.enter(fixed, dst, function)?;
        let done = self.pass_all(fixed.alloc, cells.as_slice(), types.as_slice())?;
        if !done {
            return Ok(Some(End::Steps));
        }
        Ok(None)
    }
}
