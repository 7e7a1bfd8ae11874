//! Statements and blocks.

ghost use Rattle.std.specs.Prelude.{◌≡◌, ◌<◌, ◌≤◌, [], IfOk};
ghost use Rattle.cc_model.specs.Spots.{kind_at, shallow};
ghost use Rattle.c_statements.specs.DescentStatements as of;
ghost use Rattle.c_expressions.specs.Shown.{place, Shows};

use crate::declarations::{declaration, starts_decl};
use crate::openings::{StmtStart, stmt_in};
use crate::simple::{for_control, opt_expr, simple_stmt};
use c_expressions::operators::{is_key, is_sign};
use c_expressions::{ParseFault, Parser, Spot};
use cc_model::trees::{Part, Stmt};
use cc_model::{Expr, Keyword, Punct};
use sqlite_items::{Boxed, Items};

/// The `;` that stands there.
fn empty_stmt(parser: &Parser<'_>, spot: Spot) -> Result<(Stmt, Spot), ParseFault>
    requires { spot.at < 1048576 }
    ensures shown { Shows (λ n. of.statement_of (kind_at parser.now.tokens.now) shallow n of.an_empty)
        (place spot) result }
    ensures onward { IfOk result (λ x. spot.at < x.1.at) }
{
    let after = parser.take_pass(spot)?;
    Ok((Stmt::Empty, after))
}

/// The `return` that stands there.
fn return_stmt(parser: &Parser<'_>, spot: Spot) -> Result<(Stmt, Spot), ParseFault>
    requires { spot.at < 1048576 }
    ensures shown { Shows (λ n. of.statement_of (kind_at parser.now.tokens.now) shallow n of.a_return)
        (place spot) result }
    ensures onward { IfOk result (λ x. spot.at < x.1.at) }
{
    let inner = parser.take_pass(spot)?;
    let (value, end) = opt_expr(parser, inner)?;
    let held = Boxed::new(parser.alloc, value)?;
    let after = parser.pass(Punct::Semicolon, end)?;
    Ok((Stmt::Return(spot.at, held.into_inner()), after))
}

/// The `break` that stands there.
fn break_stmt(parser: &Parser<'_>, spot: Spot) -> Result<(Stmt, Spot), ParseFault>
    requires { spot.at < 1048576 }
    ensures shown { Shows (λ n. of.statement_of (kind_at parser.now.tokens.now) shallow n of.a_break)
        (place spot) result }
    ensures onward { IfOk result (λ x. spot.at < x.1.at) }
{
    let end = parser.take_pass(spot)?;
    let after = parser.pass(Punct::Semicolon, end)?;
    Ok((Stmt::Break(spot.at), after))
}

/// The `continue` that stands there.
fn continue_stmt(parser: &Parser<'_>, spot: Spot) -> Result<(Stmt, Spot), ParseFault>
    requires { spot.at < 1048576 }
    ensures shown { Shows (λ n. of.statement_of (kind_at parser.now.tokens.now) shallow n of.a_continue)
        (place spot) result }
    ensures onward { IfOk result (λ x. spot.at < x.1.at) }
{
    let end = parser.take_pass(spot)?;
    let after = parser.pass(Punct::Semicolon, end)?;
    Ok((Stmt::Continue(spot.at), after))
}

/// The simple statement that stands there, with its `;`.
fn plain_stmt(parser: &Parser<'_>, spot: Spot) -> Result<(Stmt, Spot), ParseFault>
    ensures shown { Shows (λ n. of.statement_of (kind_at parser.now.tokens.now) shallow n of.a_plain)
        (place spot) result }
    ensures onward { IfOk result (λ x. spot.at < x.1.at) }
{
    let (value, end) = simple_stmt(parser, spot)?;
    let held = Boxed::new(parser.alloc, value)?;
    let after = parser.pass(Punct::Semicolon, end)?;
    Ok((Stmt::Simple(held.into_inner()), after))
}

/// The declaration in a block that stands there.
fn part_decl(parser: &Parser<'_>, spot: Spot) -> Result<(Part, Spot), ParseFault>
    ensures shown { Shows (λ n. of.part_decl (kind_at parser.now.tokens.now) shallow n) (place spot) result }
    ensures onward { IfOk result (λ x. spot.at < x.1.at) }
{
    let (decl, after) = declaration(parser, spot)?;
    Ok((Part::Decl(decl), after))
}

/// The statement that stands there.
#[cycle(blocks)]
fn statement(parser: &Parser<'_>, spot: Spot) -> Result<(Stmt, Spot), ParseFault>
    ensures shown { Shows (λ n. of.statement (kind_at parser.now.tokens.now) shallow n) (place spot) result }
    ensures onward { IfOk result (λ x. spot.at < x.1.at) }
{
    match stmt_in(parser.kind(spot.at)) {
        StmtStart::Empty => empty_stmt(parser, spot),
        StmtStart::Block => {
            let (parts, after) = block(parser, spot)?;
            Ok((Stmt::Block(parts), after))
        }
        StmtStart::If => if_stmt(parser, spot),
        StmtStart::While => while_stmt(parser, spot),
        StmtStart::Do => do_stmt(parser, spot),
        StmtStart::For => for_stmt(parser, spot),
        StmtStart::Return => return_stmt(parser, spot),
        StmtStart::Break => break_stmt(parser, spot),
        StmtStart::Continue => continue_stmt(parser, spot),
        StmtStart::Simple => plain_stmt(parser, spot),
    }
}

/// The `if` that stands there.
#[cycle(blocks)]
fn if_stmt(parser: &Parser<'_>, spot: Spot) -> Result<(Stmt, Spot), ParseFault>
    requires { spot.at < 1048576 }
    ensures shown { Shows (λ n. of.statement_of (kind_at parser.now.tokens.now) shallow n of.an_if)
        (place spot) result }
    ensures onward { IfOk result (λ x. spot.at < x.1.at) }
{
    let inner = parser.take_open(spot)?;
    let (condition, here) = parser.bracketed(inner)?;
    let held = Boxed::new(parser.alloc, condition)?;
    let (first, end) = statement(parser, here)?;
    let branch = Boxed::new(parser.alloc, first)?;
    else_part(parser, spot, held, branch, end)
}

/// The `if` from `start` on, whose `else` may stand there.
#[cycle(blocks)]
fn else_part(
    parser: &Parser<'_>,
    start: Spot,
    condition: Boxed<Expr>,
    first: Boxed<Stmt>,
    here: Spot,
) -> Result<(Stmt, Spot), ParseFault>
    ensures shown { Shows (λ n. of.else_part (kind_at parser.now.tokens.now) shallow n (place start) condition first)
        (place here) result }
    ensures onward { IfOk result (λ x. here.at ≤ x.1.at) }
{
    let level = start.level;
    if !is_key(Keyword::Else, parser.kind(here.at)) {
        let alone = Stmt::If(start.at, condition.into_inner(), first);
        return Ok((alone, Spot { at: here.at, level }));
    }
    let inner = parser.take_open(here)?;
    let (second, end) = statement(parser, inner)?;
    let branch = Boxed::new(parser.alloc, second)?;
    let whole = Stmt::IfElse(start.at, condition.into_inner(), first, branch);
    Ok((whole, Spot { at: end.at, level }))
}

/// The `while` that stands there.
#[cycle(blocks)]
fn while_stmt(parser: &Parser<'_>, spot: Spot) -> Result<(Stmt, Spot), ParseFault>
    requires { spot.at < 1048576 }
    ensures shown { Shows (λ n. of.statement_of (kind_at parser.now.tokens.now) shallow n of.a_while)
        (place spot) result }
    ensures onward { IfOk result (λ x. spot.at < x.1.at) }
{
    let inner = parser.take_open(spot)?;
    let (condition, here) = parser.bracketed(inner)?;
    let held = Boxed::new(parser.alloc, condition)?;
    let (turn, end) = statement(parser, here)?;
    let body = Boxed::new(parser.alloc, turn)?;
    let level = spot.level;
    let whole = Stmt::While(spot.at, held.into_inner(), body);
    Ok((whole, Spot { at: end.at, level }))
}

/// The `do` that stands there.
#[cycle(blocks)]
fn do_stmt(parser: &Parser<'_>, spot: Spot) -> Result<(Stmt, Spot), ParseFault>
    requires { spot.at < 1048576 }
    ensures shown { Shows (λ n. of.statement_of (kind_at parser.now.tokens.now) shallow n of.a_do)
        (place spot) result }
    ensures onward { IfOk result (λ x. spot.at < x.1.at) }
{
    let inner = parser.take_open(spot)?;
    let (turn, here) = statement(parser, inner)?;
    let body = Boxed::new(parser.alloc, turn)?;
    let bracket = parser.word(Keyword::While, here)?;
    let (condition, end) = parser.bracketed(bracket)?;
    let held = Boxed::new(parser.alloc, condition)?;
    let after = parser.pass(Punct::Semicolon, end)?;
    let level = spot.level;
    let whole = Stmt::Do(spot.at, body, held.into_inner());
    Ok((
        whole,
        Spot {
            at: after.at,
            level,
        },
    ))
}

/// The `for` that stands there.
#[cycle(blocks)]
fn for_stmt(parser: &Parser<'_>, spot: Spot) -> Result<(Stmt, Spot), ParseFault>
    requires { spot.at < 1048576 }
    ensures shown { Shows (λ n. of.statement_of (kind_at parser.now.tokens.now) shallow n of.a_for)
        (place spot) result }
    ensures onward { IfOk result (λ x. spot.at < x.1.at) }
{
    let inner = parser.take_open(spot)?;
    let (control, here) = for_control(parser, inner)?;
    let (turn, end) = statement(parser, here)?;
    let body = Boxed::new(parser.alloc, turn)?;
    let level = spot.level;
    let (head, condition, step) = control;
    let whole = Stmt::For(
        spot.at,
        head.into_inner(),
        condition.into_inner(),
        step.into_inner(),
        body,
    );
    Ok((whole, Spot { at: end.at, level }))
}

/// The block that stands there.
#[cycle(blocks)]
pub fn block(parser: &Parser<'_>, spot: Spot) -> Result<(Items<Part>, Spot), ParseFault>
    ensures shown { Shows (λ n. of.block (kind_at parser.now.tokens.now) shallow n) (place spot) result }
    ensures onward { IfOk result (λ x. spot.at < x.1.at) }
{
    let inner = parser.open(Punct::OpenBrace, spot)?;
    let (parts, end) = parts(parser, inner)?;
    let after = parser.close(Punct::CloseBrace, end, spot.level)?;
    Ok((parts, after))
}

/// The declarations and statements that stand there, up to a `}`.
#[cycle(blocks)]
fn parts(parser: &Parser<'_>, spot: Spot) -> Result<(Items<Part>, Spot), ParseFault>
    ensures shown { Shows (λ n. of.parts (kind_at parser.now.tokens.now) shallow n []) (place spot) result }
    ensures onward { IfOk result (λ x. spot.at ≤ x.1.at) }
{
    let mut items = Items::new(parser.alloc);
    let mut here = spot;
    while !is_sign(Punct::CloseBrace, parser.kind(here.at)) {
        let (part, after) = part(parser, here)?;
        items.push(part)?;
        here = after;
    }
    Ok((items, here))
}

/// The declaration or statement that stands there.
#[cycle(blocks)]
fn part(parser: &Parser<'_>, spot: Spot) -> Result<(Part, Spot), ParseFault>
    ensures shown { Shows (λ n. of.part (kind_at parser.now.tokens.now) shallow n) (place spot) result }
    ensures onward { IfOk result (λ x. spot.at < x.1.at) }
{
    if starts_decl(parser, spot) {
        return part_decl(parser, spot);
    }
    let (statement, after) = statement(parser, spot)?;
    Ok((Part::Stmt(statement), after))
}
