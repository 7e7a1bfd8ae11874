//! The walk over expressions.

ghost use Rattle.std.specs.Prelude.{◌≡◌, [], ◌∷◌, flat_map, map, IfOk, OnOk};
ghost use Rattle.cc_model.specs.CheckedProgram as program;
ghost use Rattle.cc_model.specs.CheckedProgram.{tokens_in};
ghost use Rattle.cc_model.specs.Sites.{at, item_sites};
ghost use Rattle.c_trees.specs.Forms.{own_sites, valued, decided, decision};
ghost use Rattle.c_trees.specs.Walks.{mark, Adds, Walks};

use crate::form::{Form, Own, decision_of, form_of};
use cc_model::base::NoMemory;
use cc_model::trees::Item;
use cc_model::{Expr, SiteKind};
use sqlite_items::Items;
use std::alloc::Global;

/// A site before it has its line: its token and what happens there.
#[derive(Clone, Copy)]
pub struct Mark {
    pub token: u32,
    pub kind: SiteKind,
}

/// What a walk has met so far: the tokens of expressions in order of their numbers, and the sites as they stand in the
/// trees.
#[derive(Drop)]
pub struct Walk {
    pub tokens: Items<u32>,
    pub marks: Items<Mark>,
}

/// The tokens of all expressions of a program's items, and its sites.
pub fn walked(alloc: Global, items: &[Item]) -> Result<Walk, NoMemory>
    ensures { IfOk result (λ w. Walks items.now w) }
{
    let mut walk = Walk {
        tokens: Items::new(alloc),
        marks: Items::new(alloc),
    };
    walk.items(items)?;
    Ok(walk)
}

/// The tokens of all expressions of a program's items, in order of their numbers.
pub fn expression_tokens(alloc: Global, items: &[Item]) -> Result<Items<u32>, NoMemory>
    ensures { IfOk result (λ l. l ≡ program.expression_tokens items.now) }
{
    let Walk { tokens, marks: _ } = walked(alloc, items)?;
    Ok(tokens)
}

/// The sites of a program's items, as they stand in its trees.
pub fn marks(alloc: Global, items: &[Item]) -> Result<Items<Mark>, NoMemory>
    ensures { IfOk result (λ l. map mark l ≡ flat_map item_sites items.now) }
{
    let Walk { tokens: _, marks } = walked(alloc, items)?;
    Ok(marks)
}

impl Walk {
    fn token(&mut self, t: u32) -> Result<(), NoMemory>
        ensures { OnOk result (Adds self.old self.new (t ∷ []) []) }
    {
        self.tokens.push(t)?;
        Ok(())
    }

    fn mark(&mut self, kind: SiteKind, t: u32) -> Result<(), NoMemory>
        ensures { OnOk result (Adds self.old self.new [] (at kind t ∷ [])) }
    {
        self.marks.push(Mark { token: t, kind })?;
        Ok(())
    }

    /// The decision of a truth value.
    fn decision(&mut self, t: Option<u32>) -> Result<(), NoMemory>
        ensures { OnOk result (Adds self.old self.new [] (decision t)) }
    {
        match t {
            Some(t) => self.mark(SiteKind::Decision, t),
            None => Ok(()),
        }
    }

    /// The sites of an operator at its token.
    pub fn own(&mut self, own: Own, t: u32) -> Result<(), NoMemory>
        ensures { OnOk result (Adds self.old self.new [] (own_sites own t)) }
    {
        match own {
            Own::Nothing => Ok(()),
            Own::Decision => self.mark(SiteKind::Decision, t),
            Own::Fit => self.mark(SiteKind::Fit, t),
            Own::Division => {
                self.mark(SiteKind::Divisor, t)?;
                self.mark(SiteKind::Fit, t)
            }
            Own::Index => self.mark(SiteKind::Index, t),
            Own::Access => self.mark(SiteKind::Access, t),
        }
    }

    /// An expression that is used for its value or as a place.
    #[cycle(expressions)]
    pub fn value(&mut self, e: &Expr) -> Result<(), NoMemory>
        ensures { OnOk result (Adds self.old self.new (tokens_in e.now) (valued e.now)) }
    {
        match form_of(e) {
            Form::Logical(t, a, b) => {
                self.token(t)?;
                self.truth(a)?;
                self.truth(b)
            }
            Form::Not(t, a) => {
                self.token(t)?;
                self.truth(a)
            }
            Form::Binary(t, own, a, b) => {
                self.token(t)?;
                self.value(a)?;
                self.own(own, t)?;
                self.value(b)
            }
            Form::Unary(t, own, a) => {
                self.token(t)?;
                self.own(own, t)?;
                self.value(a)
            }
            Form::Arrow(t, a) => {
                self.token(t)?;
                self.value(a)?;
                self.mark(SiteKind::Access, t)
            }
            Form::Call(t, args) => {
                self.token(t)?;
                self.values(args)
            }
            Form::Alone(t) => self.token(t),
        }
    }

    /// An expression that is used as a truth value.
    #[cycle(expressions)]
    pub fn truth(&mut self, e: &Expr) -> Result<(), NoMemory>
        ensures { OnOk result (Adds self.old self.new (tokens_in e.now) (decided e.now)) }
    {
        self.decision(decision_of(e))?;
        self.value(e)
    }

    /// The arguments of a call.
    #[cycle(expressions)]
    pub fn values(&mut self, args: &[Expr]) -> Result<(), NoMemory>
        ensures { OnOk result (Adds self.old self.new (flat_map tokens_in args.now) (flat_map valued args.now)) }
    {
        for arg in args {
            self.value(arg)?;
        }
        Ok(())
    }
}
