//! Expressions by their sites and operands.

ghost use Rattle.std.specs.Prelude.{◌≡◌, ◌<◌, ◌++◌};
ghost use Rattle.cc_model.specs.CheckedProgram.{tokens_in};
ghost use Rattle.cc_model.specs.Sites.{sites_of};
ghost use Rattle.cc_model.specs.declared.trees.Expr.{size-Expr};
ghost use Rattle.c_trees.specs.Forms.{form_tokens, form_sites, form_depth, decision};

use cc_model::Expr;

/// The sites of an operator.
#[derive(Clone, Copy)]
pub enum Own {
    Nothing,
    Decision,
    Fit,
    /// A divisor, and then a fit.
    Division,
    Index,
    Access,
}

/// An expression by its operands. The `u32` is the token of its operator, name, number or word.
#[derive(Clone, Copy)]
pub enum Form<'a> {
    /// `||` or `&&`, between truth values.
    Logical(u32, &'a Expr, &'a Expr),
    /// `!`
    Not(u32, &'a Expr),
    /// An operator between two operands.
    Binary(u32, Own, &'a Expr, &'a Expr),
    /// An operator whose sites come before its operand.
    Unary(u32, Own, &'a Expr),
    /// `->`, whose site comes behind its operand.
    Arrow(u32, &'a Expr),
    Call(u32, &'a [Expr]),
    /// An expression without operands.
    Alone(u32),
}

/// The form of an expression.
pub fn form_of(e: &Expr) -> Form<'_>
    ensures tokens { tokens_in e.now ≡ form_tokens result }
    ensures sites { (sites_of e.now).by_value ≡ form_sites result }
    ensures parts { form_depth result < size-Expr e.now }
{
    match e {
        Expr::Or(_, t, a, b) => Form::Logical(*t, a.get(), b.get()),
        Expr::And(_, t, a, b) => Form::Logical(*t, a.get(), b.get()),
        Expr::Equal(_, t, a, b) => Form::Binary(*t, Own::Decision, a.get(), b.get()),
        Expr::Unequal(_, t, a, b) => Form::Binary(*t, Own::Decision, a.get(), b.get()),
        Expr::Less(_, t, a, b) => Form::Binary(*t, Own::Decision, a.get(), b.get()),
        Expr::Greater(_, t, a, b) => Form::Binary(*t, Own::Decision, a.get(), b.get()),
        Expr::AtMost(_, t, a, b) => Form::Binary(*t, Own::Decision, a.get(), b.get()),
        Expr::AtLeast(_, t, a, b) => Form::Binary(*t, Own::Decision, a.get(), b.get()),
        Expr::Sum(_, t, a, b) => Form::Binary(*t, Own::Fit, a.get(), b.get()),
        Expr::Difference(_, t, a, b) => Form::Binary(*t, Own::Fit, a.get(), b.get()),
        Expr::Product(_, t, a, b) => Form::Binary(*t, Own::Fit, a.get(), b.get()),
        Expr::Quotient(_, t, a, b) => Form::Binary(*t, Own::Division, a.get(), b.get()),
        Expr::Remainder(_, t, a, b) => Form::Binary(*t, Own::Division, a.get(), b.get()),
        Expr::Minus(_, t, a) => Form::Unary(*t, Own::Fit, a.get()),
        Expr::Not(_, t, a) => Form::Not(*t, a.get()),
        Expr::Deref(_, t, a) => Form::Unary(*t, Own::Access, a.get()),
        Expr::Address(_, t, a) => Form::Unary(*t, Own::Nothing, a.get()),
        Expr::Dot(_, t, a, _) => Form::Unary(*t, Own::Nothing, a.get()),
        Expr::Arrow(_, t, a, _) => Form::Arrow(*t, a.get()),
        Expr::Index(_, t, a, i) => Form::Binary(*t, Own::Index, a.get(), i.get()),
        Expr::Name(_, t) => Form::Alone(*t),
        Expr::Number(_, t, _) => Form::Alone(*t),
        Expr::Null(_, t) => Form::Alone(*t),
        Expr::Call(_, t, args) => Form::Call(*t, args.as_slice()),
        Expr::Malloc(_, t, _, _) => Form::Alone(*t),
    }
}

/// The token at which an expression that is used as a truth value is a decision; none where it decides inside.
pub fn decision_of(e: &Expr) -> Option<u32>
    ensures { (sites_of e.now).by_truth ≡ decision result ++ (sites_of e.now).by_value }
{
    match e {
        Expr::Or(_, _, _, _) => None,
        Expr::And(_, _, _, _) => None,
        Expr::Equal(_, _, _, _) => None,
        Expr::Unequal(_, _, _, _) => None,
        Expr::Less(_, _, _, _) => None,
        Expr::Greater(_, _, _, _) => None,
        Expr::AtMost(_, _, _, _) => None,
        Expr::AtLeast(_, _, _, _) => None,
        Expr::Not(_, _, _) => None,
        Expr::Sum(first, _, _, _) => Some(*first),
        Expr::Difference(first, _, _, _) => Some(*first),
        Expr::Product(first, _, _, _) => Some(*first),
        Expr::Quotient(first, _, _, _) => Some(*first),
        Expr::Remainder(first, _, _, _) => Some(*first),
        Expr::Minus(first, _, _) => Some(*first),
        Expr::Deref(first, _, _) => Some(*first),
        Expr::Address(first, _, _) => Some(*first),
        Expr::Dot(first, _, _, _) => Some(*first),
        Expr::Arrow(first, _, _, _) => Some(*first),
        Expr::Index(first, _, _, _) => Some(*first),
        Expr::Name(first, _) => Some(*first),
        Expr::Number(first, _, _) => Some(*first),
        Expr::Null(first, _) => Some(*first),
        Expr::Call(first, _, _) => Some(*first),
        Expr::Malloc(first, _, _, _) => Some(*first),
    }
}
