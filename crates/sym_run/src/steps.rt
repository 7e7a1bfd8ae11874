//! One instruction of a run.

ghost use Rattle.std.specs.Prelude.{◌≡◌, slice_get, IfOk};
ghost use Rattle.tac_lower.specs.Seen.{seen};
ghost use Rattle.sym_run.specs.Stands.{setting, Did, Stepped};

use crate::machine::{Fixed, Machine};
use crate::numbers::Operation;
use cc_model::base::{End, NoMemory};
use tac_lower::Instr;

impl Fixed<'_> {
    /// The instruction at a place of the code.
    fn instruction(&self, at: u32) -> Option<Instr>
        ensures { result ≡ slice_get self.now.tac.now.code at }
    {
        self.tac.code.get(at as usize).copied()
    }
}

impl Machine {
    /// Does the next instruction; Some where the run ends. No memory, too, where none is left in the code, and in a
    /// state that no code of a checked program comes to.
    pub fn step(&mut self, fixed: &Fixed<'_>) -> Result<Option<End>, NoMemory>
        ensures { IfOk result (λ end. Stepped
            (setting fixed.now.checked.now fixed.now.tac.now fixed.now.bounds.now fixed.now.input.now) self.old
            self.new end) }
    {
        match fixed.instruction(self.pc) {
            None => Err(NoMemory),
            Some(instruction) => self.act(fixed, instruction),
        }
    }

    /// Does an instruction.
    fn act(&mut self, fixed: &Fixed<'_>, instruction: Instr) -> Result<Option<End>, NoMemory>
        ensures { IfOk result (λ end. Did (setting fixed.now.checked.now fixed.now.tac.now fixed.now.bounds.now
            fixed.now.input.now) self.old self.new (seen fixed.now.checked.now instruction) end) }
    {
        match instruction {
            Instr::Step => self.step_on(),
            Instr::Number(dst, number) => self.number(dst, number),
            Instr::Nil(dst) => self.nil(dst),
            Instr::Copy(dst, source) => self.copy(dst, source),
            Instr::Slot(dst, slot) => self.slot(dst, slot),
            Instr::Glob(dst, cell) => self.global(dst, cell),
            Instr::Jump(to) => self.jump(to),
            Instr::JumpZero(tested, to) => self.jump_zero(tested, to),
            Instr::Unless(tested) => self.unless(tested),
            Instr::Stop(kind, line) => self.stop(kind, line),
            Instr::Return(source) => self.leave(source),
            other => self.act_on_numbers(fixed, other),
        }
    }

    /// Does an instruction with an event on numbers, a decision, or one on memory.
    fn act_on_numbers(
        &mut self,
        fixed: &Fixed<'_>,
        instruction: Instr,
    ) -> Result<Option<End>, NoMemory>
        ensures { IfOk result (λ end. Did (setting fixed.now.checked.now fixed.now.tac.now fixed.now.bounds.now
            fixed.now.input.now) self.old self.new (seen fixed.now.checked.now instruction) end) }
    {
        match instruction {
            Instr::Add(site, dst, a, b) => self.arith(fixed, site, Operation::Add, dst, a, b),
            Instr::Sub(site, dst, a, b) => self.arith(fixed, site, Operation::Sub, dst, a, b),
            Instr::Mul(site, dst, a, b) => self.arith(fixed, site, Operation::Mul, dst, a, b),
            Instr::Quot(site, dst, a, b) => self.arith(fixed, site, Operation::Quotient, dst, a, b),
            Instr::Rem(site, dst, a, b) => self.arith(fixed, site, Operation::Remainder, dst, a, b),
            Instr::Divisor(site, a, b) => self.divisor(fixed, site, a, b),
            Instr::Neg(site, dst, a) => self.opposite(fixed, site, dst, a),
            Instr::Compare(site, comparison, dst, a, b) => {
                self.comparison(fixed, site, comparison, dst, a, b)
            }
            Instr::Truth(site, dst, a) => self.truth(fixed, site, dst, a),
            other => self.act_on_memory(fixed, other),
        }
    }

    /// Does an instruction on pointers or memory.
    fn act_on_memory(
        &mut self,
        fixed: &Fixed<'_>,
        instruction: Instr,
    ) -> Result<Option<End>, NoMemory>
        ensures { IfOk result (λ end. Did (setting fixed.now.checked.now fixed.now.tac.now fixed.now.bounds.now
            fixed.now.input.now) self.old self.new (seen fixed.now.checked.now instruction) end) }
    {
        match instruction {
            Instr::Access(site, dst, pointer) => self.access(fixed, site, dst, pointer),
            Instr::Offset(dst, pointer, by) => self.offset(dst, pointer, by),
            Instr::Index(site, dst, pointer, i, length, width) => {
                self.element(fixed, site, dst, pointer, i, length, width)
            }
            Instr::Load(dst, pointer) => self.load(dst, pointer),
            Instr::Store(pointer, source) => self.store(pointer, source),
            Instr::Local(slot, ty) => self.local(fixed, slot, ty),
            Instr::Malloc(dst, ty) => self.malloc(fixed, dst, ty),
            Instr::Take(pointer) => self.take(fixed, pointer),
            Instr::Call(dst, function, first, count) => {
                self.call(fixed, dst, function, first, count)
            }
            _ => Err(NoMemory),
        }
    }
}
