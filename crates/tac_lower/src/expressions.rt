//! The code of expressions, written from its end.

ghost use Rattle.std.specs.Prelude.{OnOk, map};
ghost use Rattle.cc_model.specs.declared.checked.Checked.{Checked};
ghost use Rattle.cc_model.specs.CheckedProgram.{name_at};
ghost use Rattle.cc_model.specs.Core.{compare, truth, test};
ghost use Rattle.cc_model.specs.Resolve.{value_of, truth_of, place_of, resolve, vals_of, variable_named};
ghost use Rattle.tac_lower.specs.Tables.{facts_of};
ghost use Rattle.tac_lower.specs.Seen.{comparison};
ghost use Rattle.tac_lower.specs.Forms.{operation, computed_of, located_of, decided_of};
ghost use Rattle.tac_lower.specs.Emitted.{AddsOperation, AddsSides, AddsValue, AddsDecision, AddsCond, AddsPlace};
ghost use Rattle.tac_lower.specs.Emitted.{AddsValues, AddsNumber, AddsIndex};

use crate::emit::{emit, here, later, next, short};
use crate::form::{Computed, Decided, Form, Located, Operator, form_of};
use crate::instr::{Comparison, Instr};
use crate::known::{Known, Variable};
use cc_model::base::{Items, NoMemory};
use cc_model::{Expr, SiteKind};

/// Writes jumps by the decision in `n`.
pub fn sides(n: u32, yes: u32, no: u32, code: &mut Items<Instr>) -> Result<(), NoMemory>
    ensures { OnOk result ((c : Checked) → AddsSides c n yes no code.old code.new) }
{
    emit(code, Instr::Jump(yes))?;
    emit(code, Instr::JumpZero(n, no))
}

impl Known<'_> {
    /// Writes an operation on the operands in `n` and the next temporary.
    pub fn operation(
        &self,
        operator: Operator,
        t: u32,
        n: u32,
        code: &mut Items<Instr>,
    ) -> Result<(), NoMemory>
        ensures { OnOk result (AddsOperation self.now.checked.now t (operation operator) n code.old code.new) }
    {
        let m = next(n);
        let fit = self.site_at(SiteKind::Fit, t);
        match operator {
            Operator::Add => emit(code, Instr::Add(fit, n, n, m)),
            Operator::Sub => emit(code, Instr::Sub(fit, n, n, m)),
            Operator::Mul => emit(code, Instr::Mul(fit, n, n, m)),
            Operator::Quot => {
                emit(code, Instr::Quot(fit, n, n, m))?;
                emit(
                    code,
                    Instr::Divisor(self.site_at(SiteKind::Divisor, t), n, m),
                )
            }
            Operator::Rem => {
                emit(code, Instr::Rem(fit, n, n, m))?;
                emit(
                    code,
                    Instr::Divisor(self.site_at(SiteKind::Divisor, t), n, m),
                )
            }
        }
    }

    /// Writes the code that computes an expression's value into the temporary `n`.
    #[cycle(expressions)]
    pub fn value(&self, e: &Expr, n: u32, code: &mut Items<Instr>) -> Result<(), NoMemory>
        ensures { OnOk result (AddsValue self.now.checked.now
            (value_of (facts_of self.now.checked.now self.now.function) e.now) n code.old code.new) }
    {
        match form_of(e) {
            Form::Value(_, value) => self.computed(value, n, code),
            Form::Place(_, place) => {
                emit(code, Instr::Load(n, n))?;
                self.located(place, n, code)
            }
            Form::Truth(decided) => self.truth(decided, n, code),
        }
    }

    /// Writes the code that computes a value that is no place and no truth.
    #[cycle(expressions)]
    fn computed(&self, value: Computed<'_>, n: u32, code: &mut Items<Instr>) -> Result<(), NoMemory>
        ensures { OnOk result (AddsValue self.now.checked.now
            (computed_of (facts_of self.now.checked.now self.now.function) value.entry) n code.old code.new) }
    {
        match value {
            Computed::Number(t, constant) => {
                if self.is_null(t) {
                    emit(code, Instr::Nil(n))
                } else {
                    emit(code, Instr::Number(n, constant))
                }
            }
            Computed::Null => emit(code, Instr::Nil(n)),
            Computed::Arith(operator, t, a, b) => {
                self.operation(operator, t, n, code)?;
                self.value(b, next(n), code)?;
                self.value(a, n, code)?;
                emit(code, Instr::Step)
            }
            Computed::Negate(t, a) => {
                emit(code, Instr::Neg(self.site_at(SiteKind::Fit, t), n, n))?;
                self.value(a, n, code)?;
                emit(code, Instr::Step)
            }
            Computed::Address(a) => {
                self.place(a, n, code)?;
                emit(code, Instr::Step)
            }
            Computed::Call(t, args) => {
                emit(
                    code,
                    Instr::Call(n, self.function_at(t), n, short(args.len())),
                )?;
                self.arguments(args, n, code)?;
                emit(code, Instr::Step)
            }
            Computed::Malloc(t) => {
                emit(code, Instr::Malloc(n, self.made_at(t)))?;
                emit(code, Instr::Step)
            }
        }
    }

    /// Writes the code that computes a truth as a value.
    #[cycle(expressions)]
    fn truth(&self, decided: Decided<'_>, n: u32, code: &mut Items<Instr>) -> Result<(), NoMemory>
        ensures { OnOk result (AddsValue self.now.checked.now
            (truth (decided_of (facts_of self.now.checked.now self.now.function) decided.entry)) n code.old code.new) }
    {
        match decided {
            Decided::Compare(by, t, a, b) => self.comparison(by, t, a, b, n, code),
            Decided::Not(_) => self.as_number(decided, n, code),
            Decided::And(_, _) => self.as_number(decided, n, code),
            Decided::Or(_, _) => self.as_number(decided, n, code),
        }
    }

    /// Writes the code that makes 1 or 0 of a condition's jumps.
    #[cycle(expressions)]
    fn as_number(
        &self,
        decided: Decided<'_>,
        n: u32,
        code: &mut Items<Instr>,
    ) -> Result<(), NoMemory>
        ensures { OnOk result (AddsNumber self.now.checked.now
            (decided_of (facts_of self.now.checked.now self.now.function) decided.entry) n code.old code.new) }
    {
        let end = here(code);
        emit(code, Instr::Number(n, 0))?;
        let zero = here(code);
        emit(code, Instr::Jump(end))?;
        emit(code, Instr::Number(n, 1))?;
        let one = here(code);
        self.decided(decided, n, one, zero, code)
    }

    /// Writes a comparison's code.
    #[cycle(expressions)]
    fn comparison(
        &self,
        by: Comparison,
        t: u32,
        a: &Expr,
        b: &Expr,
        n: u32,
        code: &mut Items<Instr>,
    ) -> Result<(), NoMemory>
        ensures { OnOk result (AddsDecision self.now.checked.now
            (compare t (comparison by) (value_of (facts_of self.now.checked.now self.now.function) a.now)
            (value_of (facts_of self.now.checked.now self.now.function) b.now)) n code.old code.new) }
    {
        let m = next(n);
        emit(
            code,
            Instr::Compare(self.site_at(SiteKind::Decision, t), by, n, n, m),
        )?;
        self.value(b, m, code)?;
        self.value(a, n, code)?;
        emit(code, Instr::Step)
    }

    /// Writes the code of a condition, which leads to where `yes` instructions stand behind, or to where `no` do.
    #[cycle(expressions)]
    pub fn condition(
        &self,
        e: &Expr,
        n: u32,
        yes: u32,
        no: u32,
        code: &mut Items<Instr>,
    ) -> Result<(), NoMemory>
        ensures { OnOk result (AddsCond self.now.checked.now
            (truth_of (facts_of self.now.checked.now self.now.function) e.now) n yes no code.old code.new) }
    {
        match form_of(e) {
            Form::Truth(decided) => self.decided(decided, n, yes, no, code),
            Form::Value(first, _) => self.tested(first, e, n, yes, no, code),
            Form::Place(first, _) => self.tested(first, e, n, yes, no, code),
        }
    }

    /// Writes the code of a condition that is a value other than 0 or NULL.
    #[cycle(expressions)]
    fn tested(
        &self,
        first: u32,
        e: &Expr,
        n: u32,
        yes: u32,
        no: u32,
        code: &mut Items<Instr>,
    ) -> Result<(), NoMemory>
        ensures { OnOk result (AddsCond self.now.checked.now
            (test first (value_of (facts_of self.now.checked.now self.now.function) e.now)) n yes no code.old
            code.new) }
    {
        sides(n, yes, no, code)?;
        emit(
            code,
            Instr::Truth(self.site_at(SiteKind::Decision, first), n, n),
        )?;
        self.value(e, n, code)
    }

    /// Writes the code of a comparison, `!`, `&&` or `||` as a condition.
    #[cycle(expressions)]
    fn decided(
        &self,
        decided: Decided<'_>,
        n: u32,
        yes: u32,
        no: u32,
        code: &mut Items<Instr>,
    ) -> Result<(), NoMemory>
        ensures { OnOk result (AddsCond self.now.checked.now
            (decided_of (facts_of self.now.checked.now self.now.function) decided.entry) n yes no code.old code.new) }
    {
        match decided {
            Decided::Compare(by, t, a, b) => {
                sides(n, yes, no, code)?;
                self.comparison(by, t, a, b, n, code)
            }
            Decided::Not(a) => {
                self.condition(a, n, no, yes, code)?;
                emit(code, Instr::Step)
            }
            Decided::And(a, b) => {
                self.condition(b, n, yes, no, code)?;
                self.condition(a, n, here(code), no, code)?;
                emit(code, Instr::Step)
            }
            Decided::Or(a, b) => {
                self.condition(b, n, yes, no, code)?;
                self.condition(a, n, yes, here(code), code)?;
                emit(code, Instr::Step)
            }
        }
    }

    /// Writes the code that computes a pointer to a place into the temporary `n`.
    #[cycle(expressions)]
    pub fn place(&self, e: &Expr, n: u32, code: &mut Items<Instr>) -> Result<(), NoMemory>
        ensures { OnOk result (AddsPlace self.now.checked.now
            (place_of (facts_of self.now.checked.now self.now.function) e.now) n code.old code.new) }
    {
        match form_of(e) {
            Form::Place(_, place) => self.located(place, n, code),
            Form::Value(_, _) => emit(code, Instr::Glob(n, 0)),
            Form::Truth(_) => emit(code, Instr::Glob(n, 0)),
        }
    }

    /// Writes the code that computes a pointer to a place.
    #[cycle(expressions)]
    fn located(&self, place: Located<'_>, n: u32, code: &mut Items<Instr>) -> Result<(), NoMemory>
        ensures { OnOk result (AddsPlace self.now.checked.now
            (located_of (facts_of self.now.checked.now self.now.function) place.entry) n code.old code.new) }
    {
        match place {
            Located::Name(t) => self.variable(t, n, code),
            Located::Deref(t, a) => {
                emit(code, Instr::Access(self.site_at(SiteKind::Access, t), n, n))?;
                self.value(a, n, code)?;
                emit(code, Instr::Step)
            }
            Located::Arrow(t, a, name) => {
                emit(code, Instr::Offset(n, n, self.offset_at(name)))?;
                emit(code, Instr::Access(self.site_at(SiteKind::Access, t), n, n))?;
                self.value(a, n, code)?;
                emit(code, Instr::Step)
            }
            Located::Dot(a, name) => {
                emit(code, Instr::Offset(n, n, self.offset_at(name)))?;
                self.place(a, n, code)?;
                emit(code, Instr::Step)
            }
            Located::Index(t, a, i) => {
                let m = next(n);
                self.index(t, n, m, code)?;
                self.value(i, m, code)?;
                self.place(a, n, code)?;
                emit(code, Instr::Step)
            }
        }
    }

    /// Writes the code of arguments, from the temporary `n` on.
    #[cycle(expressions)]
    pub fn arguments(&self, args: &[Expr], n: u32, code: &mut Items<Instr>) -> Result<(), NoMemory>
        ensures { OnOk result (AddsValues self.now.checked.now
            (vals_of (map (resolve (facts_of self.now.checked.now self.now.function)) args.now)) n code.old code.new) }
    {
        let mut left = args.len();
        while left > 0 {
            left -= 1;
            self.value(&args[left], later(n, left), code)?;
        }
        Ok(())
    }

    /// Writes a pointer to the variable that the name at a token means.
    fn variable(&self, t: u32, n: u32, code: &mut Items<Instr>) -> Result<(), NoMemory>
        ensures { OnOk result (AddsPlace self.now.checked.now
            (variable_named (facts_of self.now.checked.now self.now.function)
            (name_at self.now.checked.now t)) n code.old code.new) }
    {
        match self.variable_at(t) {
            Variable::Local(slot) => emit(code, Instr::Slot(n, slot)),
            Variable::Global(cell) => emit(code, Instr::Glob(n, cell)),
        }
    }

    /// Writes a step into an array: the array stands in `n`, the index in `m`.
    fn index(&self, t: u32, n: u32, m: u32, code: &mut Items<Instr>) -> Result<(), NoMemory>
        ensures { OnOk result (AddsIndex self.now.checked.now t
            ((facts_of self.now.checked.now self.now.function).lengths t)
            ((facts_of self.now.checked.now self.now.function).widths t) n m code.old code.new) }
    {
        let site = self.site_at(SiteKind::Index, t);
        emit(
            code,
            Instr::Index(site, n, n, m, self.length_at(t), self.width_at(t)),
        )
    }
}
