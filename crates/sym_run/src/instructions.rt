//! The instructions without events.

ghost use Rattle.std.specs.Prelude.{◌≡◌, suc, IfOk};
ghost use Rattle.cc_model.specs.Compiles.{is_zero};
ghost use Rattle.cc_model.specs.Instructions.{i_step, i_number, i_nil, i_copy, i_jump, i_jump_zero, i_unless, i_stop};
ghost use Rattle.cc_model.specs.Instructions.{i_slot, i_global};
ghost use Rattle.sym_run.specs.Beside.{value_of};
ghost use Rattle.sym_run.specs.Stands.{Setting, Did};

use crate::machine::Machine;
use cc_model::base::{End, FaultKind, NoMemory};
use checked_memory::{Cell, Value};

/// A cell with a number that hangs on no input.
pub(crate) fn number_cell(number: i32) -> Cell
    ensures { result ≡ record { value = Value.Int number; shadow = 0 } }
{
    Cell {
        value: Value::Int(i64::from(number)),
        shadow: 0,
    }
}

/// Whether a value is the number 0.
#[tactic(auto, unfolding(cc_model::specs::Compiles::is_zero, cc_model::specs::Plain::int_eq))]
pub(crate) fn is_zero(value: Value) -> bool
    ensures { result ≡ is_zero (value_of value) }
{
    match value {
        Value::Int(number) => number == 0,
        Value::Null => false,
        Value::Made(_, _) => false,
        Value::Block(_, _) => false,
    }
}

impl Machine {
    /// One step.
    pub(crate) fn step_on(&mut self) -> Result<Option<End>, NoMemory>
        ensures { IfOk result (λ end. (w : Setting) → Did w self.old self.new i_step end) }
    {
        if self.steps == 0 {
            return Ok(Some(End::Steps));
        }
        self.steps -= 1;
        self.advance()?;
        Ok(None)
    }

    /// A number into a temporary.
    pub(crate) fn number(&mut self, dst: u32, number: i32) -> Result<Option<End>, NoMemory>
        ensures { IfOk result (λ end. (w : Setting) → Did w self.old self.new (i_number dst number) end) }
    {
        self.give(dst, number_cell(number))?;
        Ok(None)
    }

    /// NULL into a temporary.
    pub(crate) fn nil(&mut self, dst: u32) -> Result<Option<End>, NoMemory>
        ensures { IfOk result (λ end. (w : Setting) → Did w self.old self.new (i_nil dst) end) }
    {
        let null = Cell {
            value: Value::Null,
            shadow: 0,
        };
        self.give(dst, null)?;
        Ok(None)
    }

    /// What another temporary holds into a temporary.
    pub(crate) fn copy(&mut self, dst: u32, source: u32) -> Result<Option<End>, NoMemory>
        ensures { IfOk result (λ end. (w : Setting) → Did w self.old self.new (i_copy dst source) end) }
    {
        let cell = self.temp(source)?;
        self.give(dst, cell)?;
        Ok(None)
    }

    /// The place that comes next.
    pub(crate) fn jump(&mut self, to: u32) -> Result<Option<End>, NoMemory>
        ensures { IfOk result (λ end. (w : Setting) → Did w self.old self.new (i_jump to) end) }
    {
        self.pc = to;
        Ok(None)
    }

    /// The place that comes next where a temporary is 0.
    pub(crate) fn jump_zero(&mut self, tested: u32, to: u32) -> Result<Option<End>, NoMemory>
        ensures { IfOk result (λ end. (w : Setting) → Did w self.old self.new (i_jump_zero tested to) end) }
    {
        let number = self.temp(tested)?;
        if is_zero(number.value) {
            self.pc = to;
            return Ok(None);
        }
        self.advance()?;
        Ok(None)
    }

    /// The end as `assume` where a temporary is 0.
    pub(crate) fn unless(&mut self, tested: u32) -> Result<Option<End>, NoMemory>
        ensures { IfOk result (λ end. (w : Setting) → Did w self.old self.new (i_unless tested) end) }
    {
        let cell = self.temp(tested)?;
        if is_zero(cell.value) {
            return Ok(Some(End::Assume));
        }
        self.advance()?;
        Ok(None)
    }

    /// A fault at a line.
    pub(crate) fn stop(&mut self, kind: FaultKind, line: u32) -> Result<Option<End>, NoMemory>
        ensures { IfOk result (λ end. (w : Setting) → Did w self.old self.new (i_stop kind line) end) }
    {
        Ok(Some(End::Fault(kind, line)))
    }

    /// A pointer to a slot's object. No memory, too, where the slot isn't set.
    pub(crate) fn slot(&mut self, dst: u32, slot: u32) -> Result<Option<End>, NoMemory>
        ensures { IfOk result (λ end. (w : Setting) → Did w self.old self.new (i_slot dst slot) end) }
    {
        let cell = self.slot_at(slot)?;
        self.give(dst, cell)?;
        Ok(None)
    }

    /// A pointer to a cell of the globals.
    pub(crate) fn global(&mut self, dst: u32, cell: u32) -> Result<Option<End>, NoMemory>
        ensures { IfOk result (λ end. (w : Setting) → Did w self.old self.new (i_global dst cell) end) }
    {
        let pointer = Cell {
            value: Value::Made(0, cell),
            shadow: 0,
        };
        self.give(dst, pointer)?;
        Ok(None)
    }
}
