//! Which token is which sign, word or operator, and the trees of the operators.

ghost use Rattle.std.specs.Prelude.{false, ◌≡◌, ◌<◌, Some, None, IfNone, IfSome, IsSome, IsNone, IfOk, IsTrue};
ghost use Rattle.cc_model.specs.declared.trees.Expr.{Expr};
ghost use Rattle.cc_model.specs.declared.tokens.Punct.TheVariants.{OpenSquare};
ghost use Rattle.cc_model.specs.ReadExpressions.{with_first as first_is, binary_sign};
ghost use Rattle.c_expressions.specs.Descent.{is_sign as sign_is, is_key as key_is, is_name as name_is, code, key_code};
ghost use Rattle.c_expressions.specs.Descent.{binary_at, prefix_at, field_at};
ghost use Rattle.c_expressions.specs.Shown.{StepAt, StartsAt, TypeStartsAt, binary_maker, prefix_maker, field_maker};

use crate::starts::{Start, Step, TypeStart};
use cc_model::{Expr, Keyword, Kind, Punct};
use sqlite_items::Boxed;
use std::alloc::{AllocError, Global};

/// Whether the token is the sign.
#[tactic(auto, unfolding(crate::specs::Descent::is_sign))]
pub fn is_sign(sign: Punct, kind: Option<Kind>) -> bool
    ensures value { result ≡ sign_is sign kind }
    ensures there { IsTrue result → IsSome kind }
{
    match kind {
        Some(Kind::Punct(found)) => code_of(sign) == code_of(found),
        _ => false,
    }
}

/// Whether the token is the word.
#[tactic(auto, unfolding(crate::specs::Descent::is_key))]
pub fn is_key(word: Keyword, kind: Option<Kind>) -> bool
    ensures value { result ≡ key_is word kind }
    ensures there { IsTrue result → IsSome kind }
{
    match kind {
        Some(Kind::Key(found)) => key_code_of(word) == key_code_of(found),
        _ => false,
    }
}

/// Whether the token is a name.
#[tactic(auto, unfolding(crate::specs::Descent::is_name))]
pub fn is_name(kind: Option<Kind>) -> bool
    ensures value { result ≡ name_is kind }
    ensures there { IsTrue result → IsSome kind }
{
    matches!(kind, Some(Kind::Name))
}

/// The number that tells the sign from all others.
fn code_of(sign: Punct) -> u8
    ensures { result ≡ code sign }
{
    sign as u8
}

/// The number that tells the word from all others.
fn key_code_of(word: Keyword) -> u8
    ensures { result ≡ key_code word }
{
    word as u8
}

/// What the token begins as a type.
#[tactic(auto, unfolding(crate::specs::Descent::base_at))]
pub fn type_start_in(kind: Option<Kind>) -> TypeStart
    ensures here { TypeStartsAt result kind }
    ensures there { IsNone kind → TypeStartsAt result None }
{
    match kind {
        Some(Kind::Key(Keyword::Int)) => TypeStart::Int,
        Some(Kind::Key(Keyword::Struct)) => TypeStart::Struct,
        Some(Kind::Name) => TypeStart::Alias,
        _ => TypeStart::Other,
    }
}

/// What the token begins as a primary expression.
#[tactic(auto, unfolding(crate::specs::Descent::start_at))]
pub fn start_in(kind: Option<Kind>) -> Start
    ensures here { StartsAt result kind }
    ensures there { IsNone kind → StartsAt result None }
{
    match kind {
        Some(Kind::Name) => Start::Name,
        Some(Kind::Number(value)) => Start::Number(value),
        Some(Kind::Key(Keyword::Null)) => Start::Null,
        Some(Kind::Key(Keyword::Malloc)) => Start::Malloc,
        Some(Kind::Punct(Punct::Open)) => Start::Paren,
        _ => Start::Other,
    }
}

/// What goes on behind a postfix expression.
#[tactic(auto, unfolding(crate::specs::Descent::field_at, crate::specs::Descent::is_sign))]
pub fn step_in(kind: Option<Kind>) -> Option<Step>
    ensures none { IfNone result ((field_at kind ≡ None) × (sign_is OpenSquare kind ≡ false)) }
    ensures some { IfSome result (λ step. StepAt step kind) }
    ensures there { IsNone kind → IsNone result }
{
    match kind {
        Some(Kind::Punct(Punct::Dot)) => Some(Step::Field(Punct::Dot)),
        Some(Kind::Punct(Punct::Arrow)) => Some(Step::Field(Punct::Arrow)),
        Some(Kind::Punct(Punct::OpenSquare)) => Some(Step::Index),
        _ => None,
    }
}

/// The binary operator of the rank that the token is.
#[tactic(auto, using(crate::proofs::Taken::has_rank, crate::proofs::Taken::lacks_rank), unfolding(crate::specs::Descent::binary_at))]
pub fn binary_in(rank: u32, kind: Option<Kind>) -> Option<Punct>
    requires { 0 < rank }
    ensures none { IfNone result (binary_at rank kind ≡ None) }
    ensures some { IfSome result (λ p. binary_at rank kind ≡ Some (binary_maker p)) }
    ensures there { IsNone kind → IsNone result }
{
    let Some(Kind::Punct(sign)) = kind else {
        return None;
    };
    if rank_of(sign) == rank {
        Some(sign)
    } else {
        None
    }
}

/// The prefix operator that the token is.
#[tactic(auto, unfolding(crate::specs::Descent::prefix_at))]
pub fn prefix_in(kind: Option<Kind>) -> Option<Punct>
    ensures none { IfNone result (prefix_at kind ≡ None) }
    ensures some { IfSome result (λ p. prefix_at kind ≡ Some (prefix_maker p)) }
    ensures there { IsNone kind → IsNone result }
{
    match kind {
        Some(Kind::Punct(Punct::Dash)) => Some(Punct::Dash),
        Some(Kind::Punct(Punct::Bang)) => Some(Punct::Bang),
        Some(Kind::Punct(Punct::Star)) => Some(Punct::Star),
        Some(Kind::Punct(Punct::Ampersand)) => Some(Punct::Ampersand),
        _ => None,
    }
}

/// The rank of a binary operator, 1 for the one that binds tightest, or 0.
fn rank_of(sign: Punct) -> u32
    ensures none { result ≡ 0 → binary_sign sign ≡ None }
    ensures some { 0 < result → binary_sign sign ≡ Some (result, binary_maker sign) }
{
    match sign {
        Punct::Star | Punct::Slash | Punct::Percent => 1,
        Punct::Plus | Punct::Dash => 2,
        Punct::Less | Punct::Greater | Punct::AtMost | Punct::AtLeast => 3,
        Punct::Equal | Punct::Unequal => 4,
        Punct::Both => 5,
        Punct::Either => 6,
        _ => 0,
    }
}

/// The tree of a binary operator.
pub fn make_binary(
    alloc: Global,
    sign: Punct,
    first: u32,
    at: u32,
    left: Boxed<Expr>,
    right: Expr,
) -> Result<Expr, AllocError>
    ensures { IfOk result (λ e. e ≡ binary_maker sign first at left right) }
{
    let right = Boxed::new(alloc, right)?;
    Ok(match sign {
        Punct::Star => Expr::Product(first, at, left, right),
        Punct::Slash => Expr::Quotient(first, at, left, right),
        Punct::Percent => Expr::Remainder(first, at, left, right),
        Punct::Plus => Expr::Sum(first, at, left, right),
        Punct::Dash => Expr::Difference(first, at, left, right),
        Punct::Less => Expr::Less(first, at, left, right),
        Punct::Greater => Expr::Greater(first, at, left, right),
        Punct::AtMost => Expr::AtMost(first, at, left, right),
        Punct::AtLeast => Expr::AtLeast(first, at, left, right),
        Punct::Equal => Expr::Equal(first, at, left, right),
        Punct::Unequal => Expr::Unequal(first, at, left, right),
        Punct::Both => Expr::And(first, at, left, right),
        _ => Expr::Or(first, at, left, right),
    })
}

/// The tree of a prefix operator.
pub fn make_prefix(alloc: Global, sign: Punct, at: u32, operand: Expr) -> Result<Expr, AllocError>
    ensures { IfOk result (λ e. e ≡ prefix_maker sign at at operand) }
{
    let operand = Boxed::new(alloc, operand)?;
    Ok(match sign {
        Punct::Bang => Expr::Not(at, at, operand),
        Punct::Star => Expr::Deref(at, at, operand),
        Punct::Ampersand => Expr::Address(at, at, operand),
        _ => Expr::Minus(at, at, operand),
    })
}

/// The tree of a field.
pub fn make_field(sign: Punct, first: u32, at: u32, value: Boxed<Expr>, name: u32) -> Expr
    ensures { result ≡ field_maker sign first at value name }
{
    match sign {
        Punct::Arrow => Expr::Arrow(first, at, value, name),
        _ => Expr::Dot(first, at, value, name),
    }
}

/// The tree with another first token.
#[tactic(auto, unfolding(cc_model::specs::ReadExpressions::with_first))]
pub fn with_first(first: u32, value: Expr) -> Expr
    ensures { result ≡ first_is first value }
{
    match value {
        Expr::Or(_, at, a, b) => Expr::Or(first, at, a, b),
        Expr::And(_, at, a, b) => Expr::And(first, at, a, b),
        Expr::Equal(_, at, a, b) => Expr::Equal(first, at, a, b),
        Expr::Unequal(_, at, a, b) => Expr::Unequal(first, at, a, b),
        Expr::Less(_, at, a, b) => Expr::Less(first, at, a, b),
        Expr::Greater(_, at, a, b) => Expr::Greater(first, at, a, b),
        Expr::AtMost(_, at, a, b) => Expr::AtMost(first, at, a, b),
        Expr::AtLeast(_, at, a, b) => Expr::AtLeast(first, at, a, b),
        Expr::Sum(_, at, a, b) => Expr::Sum(first, at, a, b),
        Expr::Difference(_, at, a, b) => Expr::Difference(first, at, a, b),
        Expr::Product(_, at, a, b) => Expr::Product(first, at, a, b),
        Expr::Quotient(_, at, a, b) => Expr::Quotient(first, at, a, b),
        Expr::Remainder(_, at, a, b) => Expr::Remainder(first, at, a, b),
        Expr::Minus(_, at, a) => Expr::Minus(first, at, a),
        Expr::Not(_, at, a) => Expr::Not(first, at, a),
        Expr::Deref(_, at, a) => Expr::Deref(first, at, a),
        Expr::Address(_, at, a) => Expr::Address(first, at, a),
        Expr::Dot(_, at, a, name) => Expr::Dot(first, at, a, name),
        Expr::Arrow(_, at, a, name) => Expr::Arrow(first, at, a, name),
        Expr::Index(_, at, a, i) => Expr::Index(first, at, a, i),
        Expr::Name(_, at) => Expr::Name(first, at),
        Expr::Number(_, at, value) => Expr::Number(first, at, value),
        Expr::Null(_, at) => Expr::Null(first, at),
        Expr::Call(_, at, args) => Expr::Call(first, at, args),
        Expr::Malloc(_, at, cast, named) => Expr::Malloc(first, at, cast, named),
    }
}
