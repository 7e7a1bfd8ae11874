//! The code of statements, written from its end.

ghost use Rattle.std.specs.Prelude.{◌≡◌, List, ◌∷◌, length, map, slice_set, OnOk};
ghost use Rattle.cc_model.specs.CheckedProgram.{cell_of};
ghost use Rattle.cc_model.specs.Core.{block, choice, choice_else, loop, repeat, loop_for};
ghost use Rattle.tac_lower.specs.declared.instr.Instr.{Instr};
ghost use Rattle.cc_model.specs.Resolve.{Piece, stmt_of, piece_of, parts_of, body_of, truth_of, truth_if, simple_if};
ghost use Rattle.cc_model.specs.Resolve.{value_if, head_simple, head_declarators};
ghost use Rattle.tac_lower.specs.declared.instr.Instr.TheVariants.{Jump};
ghost use Rattle.tac_lower.specs.Tables.{facts_of};
ghost use Rattle.tac_lower.specs.Emitted.{AddsReturn, AddsStmt, AddsParts, AddsSimpleIf, AddsDeclarators};

use crate::emit::{emit, here};
use crate::instr::Instr;
use crate::known::Known;
use cc_model::base::{CellTy, Items, NoMemory};
use cc_model::trees::{Head, Part, Simple};
use cc_model::{Expr, Stmt};

/// Sets a jump that was written before.
fn patch(code: &mut Items<Instr>, at: usize, to: u32)
    ensures { code.new ≡ slice_set code.old at (Jump to) }
{
    if at < code.len() {
        code.set(at, Instr::Jump(to));
    }
}

impl Known<'_> {
    /// Writes the code of `return`, which gives 0 or NULL where it has no value.
    pub fn returned(
        &self,
        given: CellTy,
        e: &Option<Expr>,
        code: &mut Items<Instr>,
    ) -> Result<(), NoMemory>
        ensures { OnOk result (AddsReturn self.now.checked.now (cell_of given)
            (value_if (facts_of self.now.checked.now self.now.function) e.now) code.old code.new) }
    {
        emit(code, Instr::Return(0))?;
        match e {
            Some(e) => self.value(e, 0, code),
            None => match given {
                CellTy::Int => emit(code, Instr::Number(0, 0)),
                CellTy::Ptr(_) => emit(code, Instr::Nil(0)),
            },
        }
    }

    /// Writes the code of a statement: `brk` instructions stand behind where `break` leads to, and `cont` behind where
    /// `continue` does.
    #[cycle(statements)]
    pub fn statement(
        &self,
        given: CellTy,
        s: &Stmt,
        brk: u32,
        cont: u32,
        code: &mut Items<Instr>,
    ) -> Result<(), NoMemory>
        ensures { OnOk result (AddsStmt self.now.checked.now (cell_of given)
            (stmt_of (facts_of self.now.checked.now self.now.function) s.now) brk cont code.old code.new) }
    {
        match s {
            Stmt::Empty => emit(code, Instr::Step),
            Stmt::Block(parts) => self.block(given, parts.as_slice(), brk, cont, code),
            Stmt::If(_, c, a) => self.choice(given, c, a.get(), brk, cont, code),
            Stmt::IfElse(_, c, a, b) => self.either(given, c, a.get(), b.get(), brk, cont, code),
            Stmt::While(_, c, body) => self.while_loop(given, c, body.get(), brk, cont, code),
            Stmt::Do(_, body, c) => self.do_loop(given, body.get(), c, brk, cont, code),
            Stmt::For(_, head, c, next, body) => {
                self.for_loop(given, head, c, next, body.get(), brk, cont, code)
            }
            Stmt::Return(_, e) => {
                self.returned(given, e, code)?;
                emit(code, Instr::Step)
            }
            Stmt::Break(_) => {
                emit(code, Instr::Jump(brk))?;
                emit(code, Instr::Step)
            }
            Stmt::Continue(_) => {
                emit(code, Instr::Jump(cont))?;
                emit(code, Instr::Step)
            }
            Stmt::Simple(simple) => {
                self.simple(simple, code)?;
                emit(code, Instr::Step)
            }
        }
    }

    /// Writes the code of a block.
    #[cycle(statements)]
    fn block(
        &self,
        given: CellTy,
        parts: &[Part],
        brk: u32,
        cont: u32,
        code: &mut Items<Instr>,
    ) -> Result<(), NoMemory>
        ensures { OnOk result (AddsStmt self.now.checked.now (cell_of given)
            (block (body_of (facts_of self.now.checked.now self.now.function) parts.now)) brk cont code.old code.new) }
    {
        self.parts(given, parts, brk, cont, code)?;
        emit(code, Instr::Step)
    }

    /// Writes the code of `if`.
    #[cycle(statements)]
    fn choice(
        &self,
        given: CellTy,
        c: &Expr,
        a: &Stmt,
        brk: u32,
        cont: u32,
        code: &mut Items<Instr>,
    ) -> Result<(), NoMemory>
        ensures { OnOk result (AddsStmt self.now.checked.now (cell_of given)
            (choice (truth_of (facts_of self.now.checked.now self.now.function) c.now)
            (stmt_of (facts_of self.now.checked.now self.now.function) a.now)) brk cont code.old code.new) }
    {
        let end = here(code);
        self.statement(given, a, brk, cont, code)?;
        let inside = here(code);
        self.condition(c, 0, inside, end, code)?;
        emit(code, Instr::Step)
    }

    /// Writes the code of `if` with `else`.
    #[cycle(statements)]
    fn either(
        &self,
        given: CellTy,
        c: &Expr,
        a: &Stmt,
        b: &Stmt,
        brk: u32,
        cont: u32,
        code: &mut Items<Instr>,
    ) -> Result<(), NoMemory>
        ensures { OnOk result (AddsStmt self.now.checked.now (cell_of given)
            (choice_else (truth_of (facts_of self.now.checked.now self.now.function) c.now)
            (stmt_of (facts_of self.now.checked.now self.now.function) a.now)
            (stmt_of (facts_of self.now.checked.now self.now.function) b.now)) brk cont code.old code.new) }
    {
        let end = here(code);
        self.statement(given, b, brk, cont, code)?;
        let other = here(code);
        emit(code, Instr::Jump(end))?;
        self.statement(given, a, brk, cont, code)?;
        let inside = here(code);
        self.condition(c, 0, inside, other, code)?;
        emit(code, Instr::Step)
    }

    /// Writes the code of `while`.
    #[cycle(statements)]
    fn while_loop(
        &self,
        given: CellTy,
        c: &Expr,
        body: &Stmt,
        brk: u32,
        cont: u32,
        code: &mut Items<Instr>,
    ) -> Result<(), NoMemory>
        ensures { OnOk result (AddsStmt self.now.checked.now (cell_of given)
            (loop (truth_of (facts_of self.now.checked.now self.now.function) c.now)
            (stmt_of (facts_of self.now.checked.now self.now.function) body.now)) brk cont code.old code.new) }
    {
        let at = code.len();
        let end = here(code);
        emit(code, Instr::Jump(0))?;
        let again = here(code);
        self.statement(given, body, end, again, code)?;
        let inside = here(code);
        self.condition(c, 0, inside, end, code)?;
        let start = here(code);
        patch(code, at, start);
        emit(code, Instr::Step)
    }

    /// Writes the code of `do`.
    #[cycle(statements)]
    fn do_loop(
        &self,
        given: CellTy,
        body: &Stmt,
        c: &Expr,
        brk: u32,
        cont: u32,
        code: &mut Items<Instr>,
    ) -> Result<(), NoMemory>
        ensures { OnOk result (AddsStmt self.now.checked.now (cell_of given)
            (repeat (stmt_of (facts_of self.now.checked.now self.now.function) body.now)
            (truth_of (facts_of self.now.checked.now self.now.function) c.now)) brk cont code.old code.new) }
    {
        let at = code.len();
        let end = here(code);
        emit(code, Instr::Jump(0))?;
        let again = here(code);
        self.condition(c, 0, again, end, code)?;
        let test = here(code);
        self.statement(given, body, end, test, code)?;
        let start = here(code);
        patch(code, at, start);
        emit(code, Instr::Step)
    }

    /// Writes the code of `for`.
    #[cycle(statements)]
    fn for_loop(
        &self,
        given: CellTy,
        head: &Head,
        c: &Option<Expr>,
        next: &Option<Simple>,
        body: &Stmt,
        brk: u32,
        cont: u32,
        code: &mut Items<Instr>,
    ) -> Result<(), NoMemory>
        ensures { OnOk result (AddsStmt self.now.checked.now (cell_of given)
            (loop_for (head_simple (facts_of self.now.checked.now self.now.function) head.now)
            (head_declarators (facts_of self.now.checked.now self.now.function) head.now)
            (truth_if (facts_of self.now.checked.now self.now.function) c.now)
            (simple_if (facts_of self.now.checked.now self.now.function) next.now)
            (stmt_of (facts_of self.now.checked.now self.now.function) body.now)) brk cont code.old code.new) }
    {
        let at = code.len();
        let end = here(code);
        emit(code, Instr::Jump(0))?;
        self.simple_if(next, code)?;
        let again = here(code);
        self.statement(given, body, end, again, code)?;
        let inside = here(code);
        self.condition_if(c, inside, end, code)?;
        let start = here(code);
        patch(code, at, start);
        self.head_locals(head, code)?;
        self.head_start(head, code)?;
        emit(code, Instr::Step)
    }

    /// Writes the code of the parts of a block.
    #[cycle(statements)]
    pub fn parts(
        &self,
        given: CellTy,
        parts: &[Part],
        brk: u32,
        cont: u32,
        code: &mut Items<Instr>,
    ) -> Result<(), NoMemory>
        ensures { OnOk result (AddsParts self.now.checked.now (cell_of given)
            (body_of (facts_of self.now.checked.now self.now.function) parts.now) brk cont code.old code.new) }
    {
        let mut left = parts.len();
        while left > 0 {
            left -= 1;
            self.part(given, &parts[left], brk, cont, code)?;
        }
        Ok(())
    }

    /// Writes the code of a part of a block in front of that of the parts behind it.
    #[cycle(statements)]
    fn part(
        &self,
        given: CellTy,
        p: &Part,
        brk: u32,
        cont: u32,
        code: &mut Items<Instr>,
    ) -> Result<(), NoMemory>
        ensures { OnOk result ((l : List Piece) (base : List Instr)
            → AddsParts self.now.checked.now (cell_of given) (parts_of l) brk cont base code.old
            → AddsParts self.now.checked.now (cell_of given)
            (parts_of (piece_of (facts_of self.now.checked.now self.now.function) p.now ∷ l)) brk cont base code.new) }
    {
        match p {
            Part::Decl(decl) => self.declarators(decl.parts.as_slice(), code),
            Part::Stmt(s) => self.statement(given, s, brk, cont, code),
        }
    }

    /// Writes the code of the declarators in the head of a `for`.
    fn head_locals(&self, head: &Head, code: &mut Items<Instr>) -> Result<(), NoMemory>
        ensures { OnOk result (AddsDeclarators self.now.checked.now
            (head_declarators (facts_of self.now.checked.now self.now.function) head.now) code.old code.new) }
    {
        match head {
            Head::Decl(decl) => self.declarators(decl.parts.as_slice(), code),
            Head::Simple(_) => Ok(()),
        }
    }

    /// Writes the code of the simple statement in the head of a `for`.
    fn head_start(&self, head: &Head, code: &mut Items<Instr>) -> Result<(), NoMemory>
        ensures { OnOk result (AddsSimpleIf self.now.checked.now
            (head_simple (facts_of self.now.checked.now self.now.function) head.now) code.old code.new) }
    {
        match head {
            Head::Decl(_) => Ok(()),
            Head::Simple(simple) => self.simple_if(simple, code),
        }
    }
}
