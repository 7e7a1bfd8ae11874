//! The walk over statements, declarations and items.

ghost use Rattle.std.specs.Prelude.{[], ◌∷◌, ◌++◌, flat_map, OnOk};
ghost use Rattle.cc_model.specs.CheckedProgram.{expression_if, simple_expressions, simple_expressions_if};
ghost use Rattle.cc_model.specs.CheckedProgram.{decl_expressions, head_expressions, item_expressions};
ghost use Rattle.cc_model.specs.Sites.{at, sites_of, simple_sites, simple_sites_if, value_sites_if, truth_sites_if};
ghost use Rattle.cc_model.specs.Sites.{decl_sites, head_sites, item_sites};
ghost use Rattle.c_trees.specs.Forms.{own_sites, valued, decided};
ghost use Rattle.c_trees.specs.Walks.{Covers, expressions_in, expressions_of, marks_in, marks_of, declared_expressions};
ghost use Rattle.c_trees.specs.Walks.{declared_marks};

use crate::form::Own;
use crate::walk::Walk;
use cc_model::base::NoMemory;
use cc_model::trees::{Decl, Declared, Head, Item, Part, Simple};
use cc_model::{Expr, Stmt};

impl Walk {
    /// The expression alone, for its value or as a place.
    fn used(&mut self, e: &Expr) -> Result<(), NoMemory>
        ensures { OnOk result (Covers self.old self.new (e.now ∷ []) (valued e.now)) }
    {
        self.value(e)
    }

    /// The expression alone, as a truth value.
    fn tested(&mut self, e: &Expr) -> Result<(), NoMemory>
        ensures { OnOk result (Covers self.old self.new (e.now ∷ []) (decided e.now)) }
    {
        self.truth(e)
    }

    fn used_if(&mut self, e: &Option<Expr>) -> Result<(), NoMemory>
        ensures { OnOk result (Covers self.old self.new (expression_if e.now) (value_sites_if sites_of e.now)) }
    {
        match e {
            Some(e) => self.used(e),
            None => Ok(()),
        }
    }

    fn tested_if(&mut self, e: &Option<Expr>) -> Result<(), NoMemory>
        ensures { OnOk result (Covers self.old self.new (expression_if e.now) (truth_sites_if sites_of e.now)) }
    {
        match e {
            Some(e) => self.tested(e),
            None => Ok(()),
        }
    }

    /// A place, the sites of an operator, and a value.
    fn update(&mut self, own: Own, t: u32, place: &Expr, e: &Expr) -> Result<(), NoMemory>
        ensures { OnOk result (Covers self.old self.new (place.now ∷ e.now ∷ [])
            (valued place.now ++ (own_sites own t ++ valued e.now))) }
    {
        self.used(place)?;
        self.own(own, t)?;
        self.used(e)
    }

    /// `++` and `--` behind a place.
    fn step_behind(&mut self, t: u32, place: &Expr) -> Result<(), NoMemory>
        ensures { OnOk result (Covers self.old self.new (place.now ∷ []) (valued place.now ++ own_sites Own.Fit t)) }
    {
        self.used(place)?;
        self.own(Own::Fit, t)
    }

    /// `++` and `--` before a place.
    fn step_before(&mut self, t: u32, place: &Expr) -> Result<(), NoMemory>
        ensures { OnOk result (Covers self.old self.new (place.now ∷ []) (own_sites Own.Fit t ++ valued place.now)) }
    {
        self.own(Own::Fit, t)?;
        self.used(place)
    }

    fn simple(&mut self, s: &Simple) -> Result<(), NoMemory>
        ensures { OnOk result (Covers self.old self.new (simple_expressions s.now) (simple_sites sites_of s.now)) }
    {
        match s {
            Simple::Assign(t, place, e) => self.update(Own::Nothing, *t, place, e),
            Simple::AddTo(t, place, e) => self.update(Own::Fit, *t, place, e),
            Simple::SubFrom(t, place, e) => self.update(Own::Fit, *t, place, e),
            Simple::MulBy(t, place, e) => self.update(Own::Fit, *t, place, e),
            Simple::DivBy(t, place, e) => self.update(Own::Division, *t, place, e),
            Simple::RemBy(t, place, e) => self.update(Own::Division, *t, place, e),
            Simple::Increase(t, place) => self.step_behind(*t, place),
            Simple::Decrease(t, place) => self.step_behind(*t, place),
            Simple::IncreaseFirst(t, place) => self.step_before(*t, place),
            Simple::DecreaseFirst(t, place) => self.step_before(*t, place),
            Simple::Call(_, args) => self.values(args.as_slice()),
            Simple::Assert(_, e) => self.tested(e),
            Simple::Assume(_, e) => self.tested(e),
            Simple::Abort(_) => Ok(()),
            Simple::CrestInt(_, place) => self.used(place),
        }
    }

    fn simple_if(&mut self, s: &Option<Simple>) -> Result<(), NoMemory>
        ensures { OnOk result (Covers self.old self.new (simple_expressions_if s.now)
            (simple_sites_if sites_of s.now)) }
    {
        match s {
            Some(s) => self.simple(s),
            None => Ok(()),
        }
    }

    fn declared(&mut self, d: &Declared) -> Result<(), NoMemory>
        ensures { OnOk result (Covers self.old self.new (declared_expressions d.now) (declared_marks d.now)) }
    {
        match &d.initializer {
            Some(start) => self.used(&start.value),
            None => Ok(()),
        }
    }

    fn declarators(&mut self, parts: &[Declared]) -> Result<(), NoMemory>
        ensures { OnOk result (Covers self.old self.new (flat_map declared_expressions parts.now)
            (flat_map declared_marks parts.now)) }
    {
        for part in parts {
            self.declared(part)?;
        }
        Ok(())
    }

    fn declaration(&mut self, d: &Decl) -> Result<(), NoMemory>
        ensures { OnOk result (Covers self.old self.new (decl_expressions d.now) (decl_sites sites_of d.now)) }
    {
        self.declarators(d.parts.as_slice())
    }

    fn head(&mut self, head: &Head) -> Result<(), NoMemory>
        ensures { OnOk result (Covers self.old self.new (head_expressions head.now) (head_sites sites_of head.now)) }
    {
        match head {
            Head::Decl(d) => self.declaration(d),
            Head::Simple(s) => self.simple_if(s),
        }
    }

    /// What a `for` does around its body.
    fn turn(&mut self, c: &Option<Expr>, next: &Option<Simple>) -> Result<(), NoMemory>
        ensures { OnOk result (Covers self.old self.new (expression_if c.now ++ simple_expressions_if next.now)
            (truth_sites_if sites_of c.now ++ simple_sites_if sites_of next.now)) }
    {
        self.tested_if(c)?;
        self.simple_if(next)
    }

    #[cycle(statements)]
    fn statement(&mut self, s: &Stmt) -> Result<(), NoMemory>
        ensures { OnOk result (Covers self.old self.new (expressions_in s.now) (marks_in s.now)) }
    {
        match s {
            Stmt::Empty => Ok(()),
            Stmt::Block(parts) => self.parts(parts.as_slice()),
            Stmt::If(_, c, a) => {
                self.tested(c)?;
                self.statement(a.get())
            }
            Stmt::IfElse(_, c, a, b) => {
                self.tested(c)?;
                self.statement(a.get())?;
                self.statement(b.get())
            }
            Stmt::While(_, c, body) => {
                self.tested(c)?;
                self.statement(body.get())
            }
            Stmt::Do(_, body, c) => {
                self.statement(body.get())?;
                self.tested(c)
            }
            Stmt::For(_, head, c, next, body) => {
                self.head(head)?;
                self.turn(c, next)?;
                self.statement(body.get())
            }
            Stmt::Return(_, e) => self.used_if(e),
            Stmt::Break(_) => Ok(()),
            Stmt::Continue(_) => Ok(()),
            Stmt::Simple(simple) => self.simple(simple),
        }
    }

    #[cycle(statements)]
    fn part(&mut self, p: &Part) -> Result<(), NoMemory>
        ensures { OnOk result (Covers self.old self.new (expressions_of p.now) (marks_of p.now)) }
    {
        match p {
            Part::Decl(d) => self.declaration(d),
            Part::Stmt(s) => self.statement(s),
        }
    }

    /// The parts of a block or a body.
    #[cycle(statements)]
    fn parts(&mut self, parts: &[Part]) -> Result<(), NoMemory>
        ensures { OnOk result (Covers self.old self.new (flat_map expressions_of parts.now)
            (flat_map marks_of parts.now)) }
    {
        for part in parts {
            self.part(part)?;
        }
        Ok(())
    }

    fn item(&mut self, item: &Item) -> Result<(), NoMemory>
        ensures { OnOk result (Covers self.old self.new (item_expressions item.now) (item_sites item.now)) }
    {
        match item {
            Item::Func(f) => self.parts(f.body.as_slice()),
            _ => Ok(()),
        }
    }

    /// The items of a program.
    pub fn items(&mut self, items: &[Item]) -> Result<(), NoMemory>
        ensures { OnOk result (Covers self.old self.new (flat_map item_expressions items.now)
            (flat_map item_sites items.now)) }
    {
        for item in items {
            self.item(item)?;
        }
        Ok(())
    }
}
