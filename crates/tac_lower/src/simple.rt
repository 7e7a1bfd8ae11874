//! The code of simple statements and declarations, written from its end.

ghost use Rattle.std.specs.Prelude.{OnOk, map, Some};
ghost use Rattle.cc_model.specs.Core.{assign, update, bump, perform, assert, assume};
ghost use Rattle.cc_model.specs.Resolve.{value_of, place_of, truth_of, resolve, vals_of, simple_of, simple_if};
ghost use Rattle.cc_model.specs.Resolve.{truth_if, declarator_of, function_named};
ghost use Rattle.cc_model.specs.CheckedProgram.{name_at};
ghost use Rattle.tac_lower.specs.Tables.{facts_of};
ghost use Rattle.tac_lower.specs.Forms.{operation};
ghost use Rattle.tac_lower.specs.Emitted.{AddsSimple, AddsSimpleIf, AddsDeclarator, AddsDeclarators, AddsCondIf};
ghost use Rattle.tac_lower.specs.Emitted.{AddsLocal};

use crate::emit::{emit, here, short};
use crate::form::Operator;
use crate::instr::Instr;
use crate::known::Known;
use cc_model::Expr;
use cc_model::base::{FaultKind, Items, NoMemory};
use cc_model::trees::{Declared, Simple};

impl Known<'_> {
    /// Writes the code of a simple statement.
    pub fn simple(&self, s: &Simple, code: &mut Items<Instr>) -> Result<(), NoMemory>
        ensures { OnOk result (AddsSimple self.now.checked.now
            (simple_of (facts_of self.now.checked.now self.now.function) s.now) code.old code.new) }
    {
        match s {
            Simple::Assign(_, place, e) => self.assign(place, e, code),
            Simple::AddTo(t, place, e) => self.update(Operator::Add, *t, place, e, code),
            Simple::SubFrom(t, place, e) => self.update(Operator::Sub, *t, place, e, code),
            Simple::MulBy(t, place, e) => self.update(Operator::Mul, *t, place, e, code),
            Simple::DivBy(t, place, e) => self.update(Operator::Quot, *t, place, e, code),
            Simple::RemBy(t, place, e) => self.update(Operator::Rem, *t, place, e, code),
            Simple::Increase(t, place) => self.bump(Operator::Add, *t, place, code),
            Simple::Decrease(t, place) => self.bump(Operator::Sub, *t, place, code),
            Simple::IncreaseFirst(t, place) => self.bump(Operator::Add, *t, place, code),
            Simple::DecreaseFirst(t, place) => self.bump(Operator::Sub, *t, place, code),
            Simple::Call(t, args) => self.perform(*t, args.as_slice(), code),
            Simple::Assert(t, e) => self.assert(*t, e, code),
            Simple::Assume(_, e) => self.assume(e, code),
            Simple::Abort(t) => {
                emit(code, Instr::Stop(FaultKind::Abort, self.line_at(*t)))?;
                emit(code, Instr::Step)
            }
            Simple::CrestInt(_, place) => {
                emit(code, Instr::Take(0))?;
                self.place(place, 0, code)?;
                emit(code, Instr::Step)
            }
        }
    }

    /// Writes the code of `=`: the value is computed before the place.
    fn assign(&self, place: &Expr, e: &Expr, code: &mut Items<Instr>) -> Result<(), NoMemory>
        ensures { OnOk result (AddsSimple self.now.checked.now
            (assign (place_of (facts_of self.now.checked.now self.now.function) place.now)
            (value_of (facts_of self.now.checked.now self.now.function) e.now)) code.old code.new) }
    {
        emit(code, Instr::Store(1, 0))?;
        self.place(place, 1, code)?;
        self.value(e, 0, code)
    }

    /// Writes the code of a compound assignment.
    fn update(
        &self,
        operator: Operator,
        t: u32,
        place: &Expr,
        e: &Expr,
        code: &mut Items<Instr>,
    ) -> Result<(), NoMemory>
        ensures { OnOk result (AddsSimple self.now.checked.now
            (update t (operation operator) (place_of (facts_of self.now.checked.now self.now.function) place.now)
            (value_of (facts_of self.now.checked.now self.now.function) e.now)) code.old code.new) }
    {
        emit(code, Instr::Store(1, 2))?;
        self.operation(operator, t, 2, code)?;
        emit(code, Instr::Copy(3, 0))?;
        emit(code, Instr::Load(2, 1))?;
        emit(code, Instr::Step)?;
        self.place(place, 1, code)?;
        self.value(e, 0, code)
    }

    /// Writes the code of `++` and `--`.
    fn bump(
        &self,
        operator: Operator,
        t: u32,
        place: &Expr,
        code: &mut Items<Instr>,
    ) -> Result<(), NoMemory>
        ensures { OnOk result (AddsSimple self.now.checked.now
            (bump t (operation operator) (place_of
            (facts_of self.now.checked.now self.now.function) place.now)) code.old code.new) }
    {
        emit(code, Instr::Store(0, 1))?;
        self.operation(operator, t, 1, code)?;
        emit(code, Instr::Number(2, 1))?;
        emit(code, Instr::Load(1, 0))?;
        emit(code, Instr::Step)?;
        self.place(place, 0, code)
    }

    /// Writes the code of a call whose result is not used.
    fn perform(&self, t: u32, args: &[Expr], code: &mut Items<Instr>) -> Result<(), NoMemory>
        ensures { OnOk result (AddsSimple self.now.checked.now
            (perform (function_named (name_at self.now.checked.now t))
            (vals_of (map (resolve (facts_of self.now.checked.now self.now.function)) args.now))) code.old code.new) }
    {
        emit(
            code,
            Instr::Call(0, self.function_at(t), 0, short(args.len())),
        )?;
        self.arguments(args, 0, code)?;
        emit(code, Instr::Step)
    }

    /// Writes the code of `assert`.
    fn assert(&self, t: u32, e: &Expr, code: &mut Items<Instr>) -> Result<(), NoMemory>
        ensures { OnOk result (AddsSimple self.now.checked.now
            (assert t (truth_of (facts_of self.now.checked.now self.now.function) e.now)) code.old code.new) }
    {
        let end = here(code);
        emit(code, Instr::Stop(FaultKind::Assert, self.line_at(t)))?;
        let fault = here(code);
        self.condition(e, 0, end, fault, code)?;
        emit(code, Instr::Step)
    }

    /// Writes the code of `assume`.
    fn assume(&self, e: &Expr, code: &mut Items<Instr>) -> Result<(), NoMemory>
        ensures { OnOk result (AddsSimple self.now.checked.now
            (assume (truth_of (facts_of self.now.checked.now self.now.function) e.now)) code.old code.new) }
    {
        let end = here(code);
        emit(code, Instr::Unless(0))?;
        emit(code, Instr::Number(0, 0))?;
        let over = here(code);
        self.condition(e, 0, end, over, code)?;
        emit(code, Instr::Step)
    }

    /// Writes the code of a simple statement, where there is one.
    pub fn simple_if(&self, s: &Option<Simple>, code: &mut Items<Instr>) -> Result<(), NoMemory>
        ensures { OnOk result (AddsSimpleIf self.now.checked.now
            (simple_if (facts_of self.now.checked.now self.now.function) s.now) code.old code.new) }
    {
        match s {
            Some(s) => {
                self.simple(s, code)?;
                emit(code, Instr::Step)
            }
            None => Ok(()),
        }
    }

    /// Writes the code of a condition; without one it is true.
    pub fn condition_if(
        &self,
        e: &Option<Expr>,
        yes: u32,
        no: u32,
        code: &mut Items<Instr>,
    ) -> Result<(), NoMemory>
        ensures { OnOk result (AddsCondIf self.now.checked.now
            (truth_if (facts_of self.now.checked.now self.now.function) e.now) yes no code.old code.new) }
    {
        match e {
            Some(e) => self.condition(e, 0, yes, no, code),
            None => emit(code, Instr::Jump(yes)),
        }
    }

    /// Writes the code of a declarator of a local.
    pub fn declared(&self, d: &Declared, code: &mut Items<Instr>) -> Result<(), NoMemory>
        ensures { OnOk result (AddsDeclarator self.now.checked.now
            (declarator_of (facts_of self.now.checked.now self.now.function) d.now) code.old code.new) }
    {
        let slot = self.slot_at(d.declarator.name);
        match &d.initializer {
            Some(start) => {
                emit(code, Instr::Store(0, 1))?;
                self.value(&start.value, 1, code)?;
                emit(code, Instr::Slot(0, slot))?;
                self.local(d.declarator.name, slot, code)
            }
            None => self.local(d.declarator.name, slot, code),
        }
    }

    /// Writes the code that makes a local.
    fn local(&self, t: u32, slot: u32, code: &mut Items<Instr>) -> Result<(), NoMemory>
        ensures { OnOk result (AddsLocal self.now.checked.now slot
            ((facts_of self.now.checked.now self.now.function).declared t) code.old code.new) }
    {
        emit(code, Instr::Local(slot, self.declared_at(t)))?;
        emit(code, Instr::Step)
    }

    /// Writes the code of declarators.
    pub fn declarators(&self, parts: &[Declared], code: &mut Items<Instr>) -> Result<(), NoMemory>
        ensures { OnOk result (AddsDeclarators self.now.checked.now
            (map (declarator_of (facts_of self.now.checked.now self.now.function)) parts.now) code.old code.new) }
    {
        let mut left = parts.len();
        while left > 0 {
            left -= 1;
            self.declared(&parts[left], code)?;
        }
        Ok(())
    }
}
