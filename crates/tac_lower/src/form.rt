//! The forms of expressions, each with its parts.

ghost use Rattle.std.specs.Prelude.{◌≡◌, ◌<◌};
ghost use Rattle.cc_model.specs.Resolve.{Facts, resolve};
ghost use Rattle.tac_lower.specs.Forms.{read_of, depth_of};
ghost use Rattle.cc_model.specs.declared.trees.Expr.{size-Expr};

use crate::instr::Comparison;
use cc_model::Expr;

/// An operator of arithmetic.
#[derive(Clone, Copy)]
pub enum Operator {
    Add,
    Sub,
    Mul,
    Quot,
    Rem,
}

/// An expression that is no place and no truth, and its parts. A `u32` is the token of its name, operator or word.
#[derive(Clone, Copy)]
pub enum Computed<'a> {
    Number(u32, i32),
    Null,
    Arith(Operator, u32, &'a Expr, &'a Expr),
    Negate(u32, &'a Expr),
    Address(&'a Expr),
    Call(u32, &'a [Expr]),
    Malloc(u32),
}

/// An expression that is a place, and its parts.
#[derive(Clone, Copy)]
pub enum Located<'a> {
    Name(u32),
    Deref(u32, &'a Expr),
    /// The operator, the pointer and the field's name.
    Arrow(u32, &'a Expr, u32),
    /// The struct and the field's name.
    Dot(&'a Expr, u32),
    /// The `[`, the array and the index.
    Index(u32, &'a Expr, &'a Expr),
}

/// A comparison, `!`, `&&` or `||`, and its operands.
#[derive(Clone, Copy)]
pub enum Decided<'a> {
    Compare(Comparison, u32, &'a Expr, &'a Expr),
    Not(&'a Expr),
    And(&'a Expr, &'a Expr),
    Or(&'a Expr, &'a Expr),
}

/// An expression by what it is; a value and a place with its first token.
#[derive(Clone, Copy)]
pub enum Form<'a> {
    Value(u32, Computed<'a>),
    Place(u32, Located<'a>),
    Truth(Decided<'a>),
}

/// The form of an expression.
pub fn form_of(e: &Expr) -> Form<'_>
    ensures reads { (facts : Facts) → resolve facts e.now ≡ read_of facts result }
    ensures parts { depth_of result < size-Expr e.now }
{
    match e {
        Expr::Or(_, _, a, b) => Form::Truth(Decided::Or(a.get(), b.get())),
        Expr::And(_, _, a, b) => Form::Truth(Decided::And(a.get(), b.get())),
        Expr::Equal(_, t, a, b) => Form::Truth(Decided::Compare(
            Comparison::Equal,
            *t,
            a.get(),
            b.get(),
        )),
        Expr::Unequal(_, t, a, b) => Form::Truth(Decided::Compare(
            Comparison::Unequal,
            *t,
            a.get(),
            b.get(),
        )),
        Expr::Less(_, t, a, b) => Form::Truth(Decided::Compare(
            Comparison::Less,
            *t,
            a.get(),
            b.get(),
        )),
        Expr::Greater(_, t, a, b) => Form::Truth(Decided::Compare(
            Comparison::Greater,
            *t,
            a.get(),
            b.get(),
        )),
        Expr::AtMost(_, t, a, b) => Form::Truth(Decided::Compare(
            Comparison::AtMost,
            *t,
            a.get(),
            b.get(),
        )),
        Expr::AtLeast(_, t, a, b) => Form::Truth(Decided::Compare(
            Comparison::AtLeast,
            *t,
            a.get(),
            b.get(),
        )),
        Expr::Sum(f, t, a, b) => Form::Value(
            *f,
            Computed::Arith(Operator::Add, *t, a.get(), b.get()),
        ),
        Expr::Difference(f, t, a, b) => Form::Value(
            *f,
            Computed::Arith(Operator::Sub, *t, a.get(), b.get()),
        ),
        Expr::Product(f, t, a, b) => Form::Value(
            *f,
            Computed::Arith(Operator::Mul, *t, a.get(), b.get()),
        ),
        Expr::Quotient(f, t, a, b) => Form::Value(
            *f,
            Computed::Arith(Operator::Quot, *t, a.get(), b.get()),
        ),
        Expr::Remainder(f, t, a, b) => Form::Value(
            *f,
            Computed::Arith(Operator::Rem, *t, a.get(), b.get()),
        ),
        Expr::Minus(f, t, a) => Form::Value(*f, Computed::Negate(*t, a.get())),
        Expr::Not(_, _, a) => Form::Truth(Decided::Not(a.get())),
        Expr::Deref(f, t, a) => Form::Place(*f, Located::Deref(*t, a.get())),
        Expr::Address(f, _, a) => Form::Value(*f, Computed::Address(a.get())),
        Expr::Dot(f, _, a, name) => Form::Place(*f, Located::Dot(a.get(), *name)),
        Expr::Arrow(f, t, a, name) => Form::Place(*f, Located::Arrow(*t, a.get(), *name)),
        Expr::Index(f, t, a, i) => Form::Place(*f, Located::Index(*t, a.get(), i.get())),
        Expr::Name(f, t) => Form::Place(*f, Located::Name(*t)),
        Expr::Number(f, t, value) => Form::Value(*f, Computed::Number(*t, *value)),
        Expr::Null(f, _) => Form::Value(*f, Computed::Null),
        Expr::Call(f, t, args) => Form::Value(*f, Computed::Call(*t, args.as_slice())),
        Expr::Malloc(f, t, _, _) => Form::Value(*f, Computed::Malloc(*t)),
    }
}
