//! What an expression is: its type, and what is wrong in it.

ghost use Rattle.std.specs.Prelude.{◌≡◌, ◌++◌, ℕ, map, IfOk};
ghost use Rattle.cc_model.specs.Source.{text_at};
ghost use Rattle.cc_model.specs.Scopes as scopes;
ghost use Rattle.cc_model.specs.Typing as typing;
ghost use Rattle.c_rules.specs.Telling as telling;
ghost use Rattle.c_rules.specs.Telling.{answer, behind, args_told};
ghost use Rattle.c_rules.specs.Views.{seen};

use crate::made::{alone, number_shape};
use crate::rules::{address, deref, equals, index, ints, minus, named, negation, truths};
use crate::shapes::{is_well, struct_at, struct_place};
use crate::view::View;
use cc_model::Expr;
use cc_model::base::NoMemory;
use cc_model::typing::{Note, Operand, Shape};
use sqlite_items::Items;

impl View<'_> {
    /// What the expression is, and what is said of its tokens behind the notes so far.
    pub fn judge(&self, e: &Expr, notes: &mut Items<Note>) -> Result<Shape, NoMemory>
        ensures { IfOk result (λ s. behind notes.old
            (typing.judged (text_at self.now.source.now self.now.tokens.now)
            (seen self.now.file.now self.now.before.now self.now.scopes.now) e.now) ≡ answer s notes.new) }
    {
        self.tell(e, notes)
    }

    /// What the arguments are, from left to right.
    #[tactic(auto, using(crate::proofs::TellingLaws::args_if))]
    pub fn judge_args(
        &self,
        args: &[Expr],
        notes: &mut Items<Note>,
    ) -> Result<Items<Operand>, NoMemory>
        ensures { IfOk result (λ l. args_told
            (map typing.operand_of (map (typing.judged (text_at self.now.source.now self.now.tokens.now)
            (seen self.now.file.now self.now.before.now self.now.scopes.now)) args.now))
            (notes.old ++ typing.notes_of (map (typing.judged (text_at self.now.source.now self.now.tokens.now)
            (seen self.now.file.now self.now.before.now self.now.scopes.now)) args.now)) ≡ args_told l notes.new) }
    {
        self.tell_args(args, notes)
    }

    /// What the expression is, and what is said of its tokens behind the notes so far.
    #[cycle(judging)]
    fn tell(&self, e: &Expr, notes: &mut Items<Note>) -> Result<Shape, NoMemory>
        ensures { IfOk result (λ s. telling.tell (text_at self.now.source.now self.now.tokens.now)
            (seen self.now.file.now self.now.before.now self.now.scopes.now) e.now notes.old ≡ answer s notes.new) }
    {
        let alloc = self.alloc;
        match e {
            Expr::Or(_, t, left, right) | Expr::And(_, t, left, right) => {
                let left = self.tell(left.get(), notes)?;
                let right = self.tell(right.get(), notes)?;
                truths(alloc, *t, &left, &right, notes)
            }
            Expr::Equal(_, t, left, right) | Expr::Unequal(_, t, left, right) => {
                let left = self.tell(left.get(), notes)?;
                let right = self.tell(right.get(), notes)?;
                equals(alloc, *t, &left, &right, notes)
            }
            Expr::Less(_, t, left, right)
            | Expr::Greater(_, t, left, right)
            | Expr::AtMost(_, t, left, right)
            | Expr::AtLeast(_, t, left, right)
            | Expr::Sum(_, t, left, right)
            | Expr::Difference(_, t, left, right)
            | Expr::Product(_, t, left, right)
            | Expr::Quotient(_, t, left, right)
            | Expr::Remainder(_, t, left, right) => {
                let left = self.tell(left.get(), notes)?;
                let right = self.tell(right.get(), notes)?;
                ints(alloc, *t, &left, &right, notes)
            }
            Expr::Minus(_, t, of) => {
                let of = self.tell(of.get(), notes)?;
                minus(alloc, *t, &of, notes)
            }
            Expr::Not(_, t, of) => {
                let of = self.tell(of.get(), notes)?;
                negation(alloc, *t, &of, notes)
            }
            Expr::Deref(_, t, of) => {
                let of = self.tell(of.get(), notes)?;
                deref(alloc, *t, &of, notes)
            }
            Expr::Address(_, t, of) => {
                let of = self.tell(of.get(), notes)?;
                address(alloc, *t, &of, notes)
            }
            Expr::Dot(_, t, of, name) => {
                let of = self.tell(of.get(), notes)?;
                self.member(*t, *name, is_well(&of), struct_place(&of), notes)
            }
            Expr::Arrow(_, t, of, name) => {
                let of = self.tell(of.get(), notes)?;
                self.member(*t, *name, is_well(&of), struct_at(&of), notes)
            }
            Expr::Index(_, t, array, at) => {
                let array = self.tell(array.get(), notes)?;
                let at = self.tell(at.get(), notes)?;
                index(alloc, *t, &array, &at, notes)
            }
            Expr::Name(_, t) => named(alloc, *t, self.variable(*t), notes),
            Expr::Number(_, t, value) => alone(alloc, *t, number_shape(alloc, *t, *value), notes),
            Expr::Null(_, t) => alone(alloc, *t, Shape::Null, notes),
            Expr::Call(_, t, args) => {
                let args = self.tell_args(args.as_slice(), notes)?;
                self.call(*t, args.as_slice(), notes)
            }
            Expr::Malloc(_, t, cast, made) => self.malloc(*t, *cast, *made, notes),
        }
    }

    /// What the arguments are, from left to right.
    #[cycle(judging)]
    fn tell_args(&self, args: &[Expr], notes: &mut Items<Note>) -> Result<Items<Operand>, NoMemory>
        ensures { IfOk result (λ l. telling.told_args
            (map (telling.telling (text_at self.now.source.now self.now.tokens.now)
            (seen self.now.file.now self.now.before.now self.now.scopes.now)) args.now) (telling.no_args notes.old)
            ≡ telling.args_told l notes.new) }
    {
        let mut operands = Items::new(self.alloc);
        for arg in args {
            let shape = self.tell(arg, notes)?;
            operands.push(Operand {
                first: first(arg),
                shape,
            })?;
        }
        Ok(operands)
    }
}

/// The first token of an expression.
fn first(e: &Expr) -> u32
    ensures { (text : ℕ → scopes.Text) (view : scopes.View) → (telling.telling text view e.now).first ≡ result }
{
    match e {
        Expr::Or(first, ..)
        | Expr::And(first, ..)
        | Expr::Equal(first, ..)
        | Expr::Unequal(first, ..)
        | Expr::Less(first, ..)
        | Expr::Greater(first, ..)
        | Expr::AtMost(first, ..)
        | Expr::AtLeast(first, ..)
        | Expr::Sum(first, ..)
        | Expr::Difference(first, ..)
        | Expr::Product(first, ..)
        | Expr::Quotient(first, ..)
        | Expr::Remainder(first, ..)
        | Expr::Minus(first, ..)
        | Expr::Not(first, ..)
        | Expr::Deref(first, ..)
        | Expr::Address(first, ..)
        | Expr::Dot(first, ..)
        | Expr::Arrow(first, ..)
        | Expr::Index(first, ..)
        | Expr::Name(first, ..)
        | Expr::Number(first, ..)
        | Expr::Null(first, ..)
        | Expr::Call(first, ..)
        | Expr::Malloc(first, ..) => *first,
    }
}
