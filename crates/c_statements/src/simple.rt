//! Simple statements, and the parentheses of a `for`.

ghost use Rattle.std.specs.Prelude.{◌≡◌, ◌<◌, ◌≤◌, Some, IfOk};
ghost use Rattle.cc_model.specs.Spots.{kind_at, shallow};
ghost use Rattle.c_statements.specs.DescentStatements as of;
ghost use Rattle.c_expressions.specs.Shown.{place, Shows};
ghost use Rattle.c_statements.specs.ShownStatements.{assign_maker, behind_maker, before_maker};

use crate::declarations::{declaration, starts_decl};
use crate::openings::{
    Behind, SimpleStart, behind_in, call_of, is_left_out, make_assign, make_before, make_behind,
    simple_in,
};
use c_expressions::operators::{is_name, is_sign};
use c_expressions::{ParseFault, Parser, Spot};
use cc_model::trees::{Head, Simple};
use cc_model::{Expr, Punct};
use sqlite_items::Boxed;

/// What stands in the parentheses of a `for`.
type Control = (Boxed<Head>, Boxed<Option<Expr>>, Boxed<Option<Simple>>);

/// The assignment to `left` whose operator stands there; behind it `level` tokens are open.
fn assigned(
    parser: &Parser<'_>,
    level: u32,
    left: Expr,
    sign: Punct,
    here: Spot,
) -> Result<(Simple, Spot), ParseFault>
    requires { here.at < 1048576 }
    ensures shown { Shows (λ n. of.assigned (kind_at parser.now.tokens.now) shallow n level left (assign_maker sign))
        (place here) result }
    ensures onward { IfOk result (λ x. here.at ≤ x.1.at) }
{
    let held = Boxed::new(parser.alloc, left)?;
    let inner = parser.take_pass(here)?;
    let (right, end) = parser.expression(inner)?;
    let assignment = make_assign(sign, here.at, held.into_inner(), right);
    Ok((assignment, Spot { at: end.at, level }))
}

/// The step by one of `value` whose sign stands there.
fn stepped(
    parser: &Parser<'_>,
    value: Expr,
    sign: Punct,
    here: Spot,
) -> Result<(Simple, Spot), ParseFault>
    requires { here.at < 1048576 }
    ensures shown { Shows (λ n. of.stepped (kind_at parser.now.tokens.now) shallow value (behind_maker sign))
        (place here) result }
    ensures onward { IfOk result (λ x. here.at ≤ x.1.at) }
{
    let held = Boxed::new(parser.alloc, value)?;
    let after = parser.take_pass(here)?;
    Ok((make_behind(sign, here.at, held.into_inner()), after))
}

/// The call that the unary expression from `start` on has to be.
fn called(
    parser: &Parser<'_>,
    start: Spot,
    value: Expr,
    here: Spot,
) -> Result<(Simple, Spot), ParseFault>
    ensures shown { Shows (λ n. of.called (kind_at parser.now.tokens.now) shallow (place start) value)
        (place here) result }
    ensures onward { IfOk result (λ x. here.at ≤ x.1.at) }
{
    match call_of(is_name(parser.kind(start.at)), value) {
        Some(args) => Ok((Simple::Call(start.at, args), here)),
        None => Err(ParseFault::Syntax(here.at)),
    }
}

/// The simple statement that begins with the unary expression from `start` on.
fn behind_unary(
    parser: &Parser<'_>,
    start: Spot,
    value: Expr,
    here: Spot,
) -> Result<(Simple, Spot), ParseFault>
    ensures shown { Shows (λ n. of.behind_unary (kind_at parser.now.tokens.now) shallow n (place start) value)
        (place here) result }
    ensures onward { IfOk result (λ x. here.at ≤ x.1.at) }
{
    match behind_in(parser.kind(start.at), parser.kind(here.at)) {
        Behind::Assign(sign) => assigned(parser, start.level, value, sign, here),
        Behind::Step(sign) => stepped(parser, value, sign, here),
        Behind::Nothing => called(parser, start, value, here),
    }
}

/// The simple statement that stands there and begins with a unary expression.
fn unary_stmt(parser: &Parser<'_>, spot: Spot) -> Result<(Simple, Spot), ParseFault>
    ensures shown { Shows (λ n. of.unary_stmt (kind_at parser.now.tokens.now) shallow n) (place spot) result }
    ensures onward { IfOk result (λ x. spot.at ≤ x.1.at) }
{
    let (value, end) = parser.unary(spot)?;
    let level = spot.level;
    behind_unary(parser, spot, value, Spot { at: end.at, level })
}

/// The `assert` that stands there.
fn assert_stmt(parser: &Parser<'_>, spot: Spot) -> Result<(Simple, Spot), ParseFault>
    requires { spot.at < 1048576 }
    ensures shown { Shows (λ n. of.simple_of (kind_at parser.now.tokens.now) shallow n of.an_assert)
        (place spot) result }
    ensures onward { IfOk result (λ x. spot.at ≤ x.1.at) }
{
    let inner = parser.take_pass(spot)?;
    let (value, after) = parser.bracketed(inner)?;
    Ok((Simple::Assert(spot.at, value), after))
}

/// The `assume` that stands there.
fn assume_stmt(parser: &Parser<'_>, spot: Spot) -> Result<(Simple, Spot), ParseFault>
    requires { spot.at < 1048576 }
    ensures shown { Shows (λ n. of.simple_of (kind_at parser.now.tokens.now) shallow n of.an_assume)
        (place spot) result }
    ensures onward { IfOk result (λ x. spot.at ≤ x.1.at) }
{
    let inner = parser.take_pass(spot)?;
    let (value, after) = parser.bracketed(inner)?;
    Ok((Simple::Assume(spot.at, value), after))
}

/// The `abort` that stands there.
fn abort_stmt(parser: &Parser<'_>, spot: Spot) -> Result<(Simple, Spot), ParseFault>
    requires { spot.at < 1048576 }
    ensures shown { Shows (λ n. of.simple_of (kind_at parser.now.tokens.now) shallow n of.an_abort)
        (place spot) result }
    ensures onward { IfOk result (λ x. spot.at ≤ x.1.at) }
{
    let bracket = parser.take_pass(spot)?;
    let inner = parser.pass(Punct::Open, bracket)?;
    let after = parser.pass(Punct::Close, inner)?;
    Ok((Simple::Abort(spot.at), after))
}

/// The `CREST_int` that stands there.
fn crest_int_stmt(parser: &Parser<'_>, spot: Spot) -> Result<(Simple, Spot), ParseFault>
    requires { spot.at < 1048576 }
    ensures shown { Shows (λ n. of.simple_of (kind_at parser.now.tokens.now) shallow n of.a_crest_int)
        (place spot) result }
    ensures onward { IfOk result (λ x. spot.at ≤ x.1.at) }
{
    let bracket = parser.take_pass(spot)?;
    let inner = parser.open(Punct::Open, bracket)?;
    let (value, end) = parser.unary(inner)?;
    let held = Boxed::new(parser.alloc, value)?;
    let after = parser.close(Punct::Close, end, spot.level)?;
    Ok((Simple::CrestInt(spot.at, held.into_inner()), after))
}

/// The simple statement that stands there and begins with `++` or `--`.
fn step_stmt(parser: &Parser<'_>, sign: Punct, spot: Spot) -> Result<(Simple, Spot), ParseFault>
    requires { spot.at < 1048576 }
    ensures shown { Shows (λ n. of.simple_of (kind_at parser.now.tokens.now) shallow n
        (of.a_step (before_maker sign))) (place spot) result }
    ensures onward { IfOk result (λ x. spot.at ≤ x.1.at) }
{
    let inner = parser.take_pass(spot)?;
    let (value, end) = parser.unary(inner)?;
    let level = spot.level;
    Ok((
        make_before(sign, spot.at, value),
        Spot { at: end.at, level },
    ))
}

/// The simple statement that stands there.
pub fn simple_stmt(parser: &Parser<'_>, spot: Spot) -> Result<(Simple, Spot), ParseFault>
    ensures shown { Shows (λ n. of.simple_stmt (kind_at parser.now.tokens.now) shallow n) (place spot) result }
    ensures onward { IfOk result (λ x. spot.at ≤ x.1.at) }
{
    match simple_in(parser.kind(spot.at)) {
        SimpleStart::Assert => assert_stmt(parser, spot),
        SimpleStart::Assume => assume_stmt(parser, spot),
        SimpleStart::Abort => abort_stmt(parser, spot),
        SimpleStart::CrestInt => crest_int_stmt(parser, spot),
        SimpleStart::Step(sign) => step_stmt(parser, sign, spot),
        SimpleStart::Unary => unary_stmt(parser, spot),
    }
}

/// The expression that stands there, or none before a `;`.
pub fn opt_expr(parser: &Parser<'_>, spot: Spot) -> Result<(Option<Expr>, Spot), ParseFault>
    ensures shown { Shows (λ n. of.opt_expr (kind_at parser.now.tokens.now) shallow n) (place spot) result }
    ensures onward { IfOk result (λ x. spot.at ≤ x.1.at) }
{
    if is_sign(Punct::Semicolon, parser.kind(spot.at)) {
        return Ok((None, spot));
    }
    let (value, end) = parser.expression(spot)?;
    let level = spot.level;
    Ok((Some(value), Spot { at: end.at, level }))
}

/// The simple statement that stands there, or none before a `;` or a `)`.
fn opt_simple(parser: &Parser<'_>, spot: Spot) -> Result<(Option<Simple>, Spot), ParseFault>
    ensures shown { Shows (λ n. of.opt_simple (kind_at parser.now.tokens.now) shallow n) (place spot) result }
    ensures onward { IfOk result (λ x. spot.at ≤ x.1.at) }
{
    if is_left_out(parser.kind(spot.at)) {
        return Ok((None, spot));
    }
    let (value, after) = simple_stmt(parser, spot)?;
    Ok((Some(value), after))
}

/// What stands before the first `;` of a `for`, with the `;`.
fn for_head(parser: &Parser<'_>, spot: Spot) -> Result<(Head, Spot), ParseFault>
    ensures shown { Shows (λ n. of.for_head (kind_at parser.now.tokens.now) shallow n) (place spot) result }
    ensures onward { IfOk result (λ x. spot.at ≤ x.1.at) }
{
    if starts_decl(parser, spot) {
        return head_decl(parser, spot);
    }
    head_simple(parser, spot)
}

/// The declaration at the head of a `for`.
fn head_decl(parser: &Parser<'_>, spot: Spot) -> Result<(Head, Spot), ParseFault>
    ensures shown { Shows (λ n. of.head_decl (kind_at parser.now.tokens.now) shallow n) (place spot) result }
    ensures onward { IfOk result (λ x. spot.at ≤ x.1.at) }
{
    let (decl, after) = declaration(parser, spot)?;
    Ok((Head::Decl(decl), after))
}

/// The simple statement, or none, at the head of a `for`, with the `;`.
fn head_simple(parser: &Parser<'_>, spot: Spot) -> Result<(Head, Spot), ParseFault>
    ensures shown { Shows (λ n. of.head_simple (kind_at parser.now.tokens.now) shallow n) (place spot) result }
    ensures onward { IfOk result (λ x. spot.at ≤ x.1.at) }
{
    let (value, end) = opt_simple(parser, spot)?;
    let held = Boxed::new(parser.alloc, value)?;
    let after = parser.pass(Punct::Semicolon, end)?;
    Ok((Head::Simple(held.into_inner()), after))
}

/// The parentheses of a `for`.
pub fn for_control(parser: &Parser<'_>, spot: Spot) -> Result<(Control, Spot), ParseFault>
    ensures shown { Shows (λ n. of.for_control (kind_at parser.now.tokens.now) shallow n) (place spot) result }
    ensures onward { IfOk result (λ x. spot.at ≤ x.1.at) }
{
    let inner = parser.open(Punct::Open, spot)?;
    let (head, first) = for_head(parser, inner)?;
    let head = Boxed::new(parser.alloc, head)?;
    let (condition, second) = opt_expr(parser, first)?;
    let condition = Boxed::new(parser.alloc, condition)?;
    let third = parser.pass(Punct::Semicolon, second)?;
    let (step, end) = opt_simple(parser, third)?;
    let step = Boxed::new(parser.alloc, step)?;
    let after = parser.close(Punct::Close, end, spot.level)?;
    let control = (head, condition, step);
    Ok((control, after))
}
