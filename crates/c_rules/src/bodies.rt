//! What is said of the body of a function.

ghost use Rattle.std.specs.Prelude.{◌≡◌, ◌++◌, map, OnOk};
ghost use Rattle.cc_model.specs.declared.trees.Part.TheOpen as level;
ghost use Rattle.cc_model.specs.Source.{text_at};
ghost use Rattle.cc_model.specs.Typing as typing;
ghost use Rattle.cc_model.specs.Faults as faults;
ghost use Rattle.c_scopes.specs.Places as places;
ghost use Rattle.c_scopes.specs.Places.{place, Leads};

use crate::calls::note_rule;
use crate::view::View;
use c_names::Named;
use c_scopes::inside::Inside;
use cc_model::base::NoMemory;
use cc_model::trees::{Func, Head, Part, Simple};
use cc_model::typing::{CType, Note, Variable};
use cc_model::{Expr, Stmt};
use sqlite_items::Items;

/// The body of a function: what its file declares and what stands before it, and the type that the function gives,
/// where that is known.
#[derive(Clone, Copy)]
pub struct Body<'a> {
    pub view: View<'a>,
    pub gives: &'a Option<CType>,
}

impl View<'_> {
    /// What is said of a function's parameters and body.
    pub fn body(
        &self,
        function: &Func,
        gives: &Option<CType>,
        notes: &mut Items<Note>,
    ) -> Result<(), NoMemory>
        ensures { OnOk result (notes.new ≡ notes.old
            ++ (faults.follow (faults.params_of
            (text_at self.now.source.now self.now.tokens.now) self.now.file.now self.now.before.now
            (function.now).params faults.at_body)
            (faults.body_of (faults.part_of (text_at self.now.source.now self.now.tokens.now) self.now.file.now
            self.now.before.now gives.now) (function.now).body)).notes) }
    {
        let body = Body { view: *self, gives };
        let mut inside = Inside::at_body(self.alloc)?;
        body.params(function.params.as_slice(), &mut inside, notes)?;
        body.parts(function.body.as_slice(), &mut inside, notes)
    }
}

impl Body<'_> {
    /// What is seen with these variables around.
    pub fn with_scopes<'b>(&'b self, scopes: &'b [Named<Variable>]) -> View<'b>
        ensures source { result.source.now ≡ self.now.view.source.now }
        ensures tokens { result.tokens.now ≡ self.now.view.tokens.now }
        ensures file { result.file.now ≡ self.now.view.file.now }
        ensures before { result.before.now ≡ self.now.view.before.now }
        ensures scopes { result.scopes.now ≡ scopes.now }
    {
        View {
            alloc: self.view.alloc,
            source: self.view.source,
            tokens: self.view.tokens,
            file: self.view.file,
            names: self.view.names,
            before: self.view.before,
            scopes,
        }
    }

    /// A truth value, at the word of its statement.
    fn test(
        &self,
        t: u32,
        value: &Expr,
        inside: &Inside,
        notes: &mut Items<Note>,
    ) -> Result<(), NoMemory>
        ensures { OnOk result (notes.new ≡ notes.old
            ++ faults.tested t (faults.judged_at
            (typing.judged (text_at self.now.view.source.now self.now.view.tokens.now))
            (text_at self.now.view.source.now self.now.view.tokens.now) self.now.view.file.now self.now.view.before.now
            self.now.gives.now (place inside.now) value.now)) }
    {
        let view = self.with_scopes(inside.scopes.as_slice());
        view.test(t, value, notes)
    }

    /// The condition of a `for`, where it has one.
    fn test_if(
        &self,
        t: u32,
        value: &Option<Expr>,
        inside: &Inside,
        notes: &mut Items<Note>,
    ) -> Result<(), NoMemory>
        ensures { OnOk result (notes.new ≡ notes.old
            ++ faults.tested_if (typing.judged (text_at self.now.view.source.now self.now.view.tokens.now))
            (text_at self.now.view.source.now self.now.view.tokens.now) self.now.view.file.now self.now.view.before.now
            self.now.gives.now t value.now (place inside.now)) }
    {
        match value {
            Some(value) => self.test(t, value, inside, notes),
            None => Ok(()),
        }
    }

    /// A statement without its `;`.
    fn simple(
        &self,
        simple: &Simple,
        inside: &Inside,
        notes: &mut Items<Note>,
    ) -> Result<(), NoMemory>
        ensures { OnOk result (notes.new ≡ notes.old
            ++ faults.simple_notes (typing.judged (text_at self.now.view.source.now self.now.view.tokens.now))
            (text_at self.now.view.source.now self.now.view.tokens.now) self.now.view.file.now self.now.view.before.now
            self.now.gives.now simple.now (place inside.now)) }
    {
        let view = self.with_scopes(inside.scopes.as_slice());
        view.simple(simple, notes)
    }

    /// A statement without its `;`, where there is one.
    pub fn simple_if(
        &self,
        simple: &Option<Simple>,
        inside: &Inside,
        notes: &mut Items<Note>,
    ) -> Result<(), NoMemory>
        ensures { OnOk result (notes.new ≡ notes.old
            ++ faults.simple_notes_if (typing.judged (text_at self.now.view.source.now self.now.view.tokens.now))
            (text_at self.now.view.source.now self.now.view.tokens.now) self.now.view.file.now self.now.view.before.now
            self.now.gives.now simple.now (place inside.now)) }
    {
        match simple {
            Some(simple) => self.simple(simple, inside, notes),
            None => Ok(()),
        }
    }

    /// `return`
    fn returns(
        &self,
        t: u32,
        value: &Option<Expr>,
        inside: &Inside,
        notes: &mut Items<Note>,
    ) -> Result<(), NoMemory>
        ensures { OnOk result (notes.new ≡ notes.old
            ++ faults.return_notes (typing.judged (text_at self.now.view.source.now self.now.view.tokens.now))
            (text_at self.now.view.source.now self.now.view.tokens.now) self.now.view.file.now self.now.view.before.now
            self.now.gives.now t value.now (place inside.now)) }
    {
        let view = self.with_scopes(inside.scopes.as_slice());
        view.returns(t, self.gives, value, notes)
    }

    /// A statement.
    #[cycle(statements)]
    fn statement(
        &self,
        s: &Stmt,
        inside: &mut Inside,
        notes: &mut Items<Note>,
    ) -> Result<(), NoMemory>
        ensures { OnOk result (Leads (places.stmt_of
            (text_at self.now.view.source.now self.now.view.tokens.now) self.now.view.file.now self.now.view.before.now
            self.now.gives.now s.now) inside.old inside.new notes.old notes.new) }
    {
        match s {
            Stmt::Empty => Ok(()),
            Stmt::Block(parts) => self.block(parts.as_slice(), inside, notes),
            Stmt::If(t, test, one) => self.choice(*t, test, one.get(), inside, notes),
            Stmt::IfElse(t, test, one, other) => {
                self.either(*t, test, one.get(), other.get(), inside, notes)
            }
            Stmt::While(t, test, body) => self.while_loop(*t, test, body.get(), inside, notes),
            Stmt::Do(t, body, test) => self.do_loop(*t, body.get(), test, inside, notes),
            Stmt::For(t, head, test, next, body) => {
                self.for_loop(*t, head, test, next, body.get(), inside, notes)
            }
            Stmt::Return(t, value) => self.returns(*t, value, inside, notes),
            Stmt::Break(t) => note_rule(*t, inside.in_loop, notes),
            Stmt::Continue(t) => note_rule(*t, inside.in_loop, notes),
            Stmt::Simple(simple) => self.simple(simple, inside, notes),
        }
    }

    /// A block, which is a scope.
    #[cycle(statements)]
    fn block(
        &self,
        parts: &[Part],
        inside: &mut Inside,
        notes: &mut Items<Note>,
    ) -> Result<(), NoMemory>
        ensures { OnOk result (Leads (faults.stmt_level
            (typing.judged (text_at self.now.view.source.now self.now.view.tokens.now))
            (text_at self.now.view.source.now self.now.view.tokens.now) self.now.view.file.now self.now.view.before.now
            self.now.gives.now (level.Block (map
            (faults.part_of (text_at self.now.view.source.now self.now.view.tokens.now) self.now.view.file.now
            self.now.view.before.now self.now.gives.now) parts.now))) inside.old inside.new notes.old notes.new) }
    {
        inside.open(self.view.alloc)?;
        self.parts(parts, inside, notes)?;
        inside.close();
        Ok(())
    }

    /// `if`
    #[cycle(statements)]
    fn choice(
        &self,
        t: u32,
        test: &Expr,
        one: &Stmt,
        inside: &mut Inside,
        notes: &mut Items<Note>,
    ) -> Result<(), NoMemory>
        ensures { OnOk result (Leads (faults.stmt_level
            (typing.judged (text_at self.now.view.source.now self.now.view.tokens.now))
            (text_at self.now.view.source.now self.now.view.tokens.now) self.now.view.file.now self.now.view.before.now
            self.now.gives.now (level.If t test.now
            (places.stmt_of (text_at self.now.view.source.now self.now.view.tokens.now) self.now.view.file.now
            self.now.view.before.now self.now.gives.now one.now))) inside.old inside.new notes.old notes.new) }
    {
        self.test(t, test, inside, notes)?;
        self.statement(one, inside, notes)
    }

    /// `if` with `else`
    #[cycle(statements)]
    fn either(
        &self,
        t: u32,
        test: &Expr,
        one: &Stmt,
        other: &Stmt,
        inside: &mut Inside,
        notes: &mut Items<Note>,
    ) -> Result<(), NoMemory>
        ensures { OnOk result (Leads (faults.stmt_level
            (typing.judged (text_at self.now.view.source.now self.now.view.tokens.now))
            (text_at self.now.view.source.now self.now.view.tokens.now) self.now.view.file.now self.now.view.before.now
            self.now.gives.now (level.IfElse t test.now
            (places.stmt_of (text_at self.now.view.source.now self.now.view.tokens.now) self.now.view.file.now
            self.now.view.before.now self.now.gives.now one.now)
            (places.stmt_of (text_at self.now.view.source.now self.now.view.tokens.now) self.now.view.file.now
            self.now.view.before.now self.now.gives.now other.now))) inside.old inside.new notes.old notes.new) }
    {
        self.test(t, test, inside, notes)?;
        self.statement(one, inside, notes)?;
        self.statement(other, inside, notes)
    }

    /// `while`
    #[cycle(statements)]
    fn while_loop(
        &self,
        t: u32,
        test: &Expr,
        body: &Stmt,
        inside: &mut Inside,
        notes: &mut Items<Note>,
    ) -> Result<(), NoMemory>
        ensures { OnOk result (Leads (faults.stmt_level
            (typing.judged (text_at self.now.view.source.now self.now.view.tokens.now))
            (text_at self.now.view.source.now self.now.view.tokens.now) self.now.view.file.now self.now.view.before.now
            self.now.gives.now (level.While t test.now
            (places.stmt_of (text_at self.now.view.source.now self.now.view.tokens.now) self.now.view.file.now
            self.now.view.before.now self.now.gives.now body.now))) inside.old inside.new notes.old notes.new) }
    {
        self.test(t, test, inside, notes)?;
        self.turn(body, inside, notes)
    }

    /// `do`
    #[cycle(statements)]
    fn do_loop(
        &self,
        t: u32,
        body: &Stmt,
        test: &Expr,
        inside: &mut Inside,
        notes: &mut Items<Note>,
    ) -> Result<(), NoMemory>
        ensures { OnOk result (Leads (faults.stmt_level
            (typing.judged (text_at self.now.view.source.now self.now.view.tokens.now))
            (text_at self.now.view.source.now self.now.view.tokens.now) self.now.view.file.now self.now.view.before.now
            self.now.gives.now (level.Do t (places.stmt_of
            (text_at self.now.view.source.now self.now.view.tokens.now) self.now.view.file.now self.now.view.before.now
            self.now.gives.now body.now) test.now)) inside.old inside.new notes.old notes.new) }
    {
        self.turn(body, inside, notes)?;
        self.test(t, test, inside, notes)
    }

    /// `for`, which is a scope for what its head declares.
    #[cycle(statements)]
    fn for_loop(
        &self,
        t: u32,
        head: &Head,
        test: &Option<Expr>,
        next: &Option<Simple>,
        body: &Stmt,
        inside: &mut Inside,
        notes: &mut Items<Note>,
    ) -> Result<(), NoMemory>
        ensures { OnOk result (Leads (faults.stmt_level
            (typing.judged (text_at self.now.view.source.now self.now.view.tokens.now))
            (text_at self.now.view.source.now self.now.view.tokens.now) self.now.view.file.now self.now.view.before.now
            self.now.gives.now (level.For t head.now test.now next.now
            (places.stmt_of (text_at self.now.view.source.now self.now.view.tokens.now) self.now.view.file.now
            self.now.view.before.now self.now.gives.now body.now))) inside.old inside.new notes.old notes.new) }
    {
        inside.open(self.view.alloc)?;
        self.head(head, inside, notes)?;
        self.test_if(t, test, inside, notes)?;
        self.simple_if(next, inside, notes)?;
        self.turn(body, inside, notes)?;
        inside.close();
        Ok(())
    }

    /// The body of a loop.
    #[cycle(statements)]
    fn turn(
        &self,
        body: &Stmt,
        inside: &mut Inside,
        notes: &mut Items<Note>,
    ) -> Result<(), NoMemory>
        ensures { OnOk result (Leads (places.turn
            (places.stmt_of (text_at self.now.view.source.now self.now.view.tokens.now) self.now.view.file.now
            self.now.view.before.now self.now.gives.now body.now)) inside.old inside.new notes.old notes.new) }
    {
        let outer = inside.in_loop;
        inside.in_loop = true;
        self.statement(body, inside, notes)?;
        inside.in_loop = outer;
        Ok(())
    }

    /// The parts of a block.
    #[cycle(statements)]
    fn parts(
        &self,
        parts: &[Part],
        inside: &mut Inside,
        notes: &mut Items<Note>,
    ) -> Result<(), NoMemory>
        ensures { OnOk result (Leads (faults.body_of
            (faults.part_of (text_at self.now.view.source.now self.now.view.tokens.now) self.now.view.file.now
            self.now.view.before.now self.now.gives.now) parts.now) inside.old inside.new notes.old notes.new) }
    {
        for part in parts {
            self.part(part, inside, notes)?;
        }
        Ok(())
    }

    /// A part of a block.
    #[cycle(statements)]
    fn part(
        &self,
        part: &Part,
        inside: &mut Inside,
        notes: &mut Items<Note>,
    ) -> Result<(), NoMemory>
        ensures { OnOk result (Leads (faults.part_of
            (text_at self.now.view.source.now self.now.view.tokens.now) self.now.view.file.now self.now.view.before.now
            self.now.gives.now part.now) inside.old inside.new notes.old notes.new) }
    {
        match part {
            Part::Decl(decl) => self.declareds(decl.base, decl.parts.as_slice(), inside, notes),
            Part::Stmt(s) => self.statement(s, inside, notes),
        }
    }
}
