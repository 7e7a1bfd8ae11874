//! The machine that runs a program's code on an input.

ghost use Rattle.std.specs.Prelude.{◌≡◌, true, Some, suc, slice_get, slice_set, IfOk, OnOk};
ghost use Rattle.sym_run.specs.Beside.{IsCell, IsValue};

use crate::journal::Journal;
use crate::objects::Objects;
use crate::symbols::Symbols;
use cc_model::Checked;
use cc_model::base::{Bounds, Input, Items, NoMemory};
use checked_memory::{Cell, Value};
use std::alloc::Global;
use tac_lower::Tac;

/// What a run has from its start.
#[derive(Clone, Copy)]
pub struct Fixed<'a> {
    pub alloc: Global,
    pub checked: &'a Checked,
    pub tac: &'a Tac,
    pub input: &'a Input,
    pub bounds: &'a Bounds,
}

/// A caller that waits: where its result goes, where it goes on, its temporaries and its slots.
#[derive(Drop)]
pub struct Frame {
    pub(crate) dst: u32,
    pub(crate) back: u32,
    pub(crate) temps: Items<Cell>,
    pub(crate) slots: Items<Option<Cell>>,
}

/// A run of code on an input, where it stands: the place of the next instruction, the temporaries and the slots, the
/// callers, the steps and events that are left, the data, and what was recorded.
#[derive(Drop)]
pub struct Machine {
    pub(crate) pc: u32,
    pub(crate) temps: Items<Cell>,
    pub(crate) slots: Items<Option<Cell>>,
    pub(crate) stack: Items<Frame>,
    pub(crate) steps: u32,
    pub(crate) events_left: u32,
    pub(crate) objects: Objects,
    pub(crate) symbols: Symbols,
    pub(crate) journal: Journal,
}

/// Whether a value is one of the machine's: a number of 32 bits, and a block's address from 0.
pub(crate) fn is_value(value: Value) -> bool
    ensures { result ≡ true → IsValue value }
{
    match value {
        Value::Int(number) => number >= -2_147_483_648 && number <= 2_147_483_647,
        Value::Null => true,
        Value::Made(_, _) => true,
        Value::Block(address, _) => address >= 0,
    }
}

impl Machine {
    /// What a temporary holds. No memory, too, where there is no such temporary.
    pub(crate) fn temp(&self, number: u32) -> Result<Cell, NoMemory>
        ensures there { IfOk result (λ cell. slice_get self.now.temps number ≡ Some cell) }
        ensures known { IfOk result (λ cell. IsCell self.now.symbols cell) }
    {
        match self.temps.get(number as usize).copied() {
            None => Err(NoMemory),
            Some(cell) => {
                if cell.shadow as usize > self.symbols.len() {
                    return Err(NoMemory);
                }
                if !is_value(cell.value) {
                    return Err(NoMemory);
                }
                Ok(cell)
            }
        }
    }

    /// The pointer in a slot. No memory, too, where there is no such slot or it isn't set.
    pub(crate) fn slot_at(&self, number: u32) -> Result<Cell, NoMemory>
        ensures { IfOk result (λ cell. slice_get self.now.slots number ≡ Some (Some cell)) }
    {
        match self.slots.get(number as usize).copied() {
            None => Err(NoMemory),
            Some(None) => Err(NoMemory),
            Some(Some(cell)) => Ok(cell),
        }
    }

    /// Goes on to the next instruction. No memory, too, where there is none.
    pub(crate) fn advance(&mut self) -> Result<(), NoMemory>
        ensures { OnOk result (self.new ≡ record self.old { pc = suc self.old.pc }) }
    {
        match self.pc.checked_add(1) {
            None => Err(NoMemory),
            Some(next) => {
                self.pc = next;
                Ok(())
            }
        }
    }

    /// Puts a cell into a temporary, and goes on to the next instruction. No memory, too, where there is no such
    /// temporary.
    pub(crate) fn give(&mut self, dst: u32, cell: Cell) -> Result<(), NoMemory>
        ensures { OnOk result (self.new ≡ record
            self.old { pc = suc self.old.pc; temps = slice_set self.old.temps dst cell }) }
    {
        if dst as usize >= self.temps.len() {
            return Err(NoMemory);
        }
        self.temps.set(dst as usize, cell);
        self.advance()
    }
}
