//! Globals, and their start values.

ghost use Rattle.std.specs.Prelude.{◌≡◌, ◌<◌, ◌≤◌, [], ◌∷◌, IfOk};
ghost use Rattle.cc_model.specs.Spots.{kind_at, shallow};
ghost use Rattle.c_statements.specs.DescentStatements as stmts;
ghost use Rattle.c_parse.specs.DescentItems as of_item;
ghost use Rattle.c_expressions.specs.Shown.{place, Shows};

use crate::openings::{ValueStart, value_in};
use c_expressions::operators::is_sign;
use c_expressions::{ParseFault, Parser, Spot};
use c_statements::declarations::{declarator, declarator_from, number};
use cc_model::trees::{Base, Declarator, GlobalPart, GlobalStart, Item, StartValue, TypeName};
use cc_model::{Keyword, Punct};
use sqlite_items::Items;

/// The number that stands there, as a start value.
fn number_value(
    parser: &Parser<'_>,
    spot: Spot,
    value: i32,
) -> Result<(StartValue, Spot), ParseFault>
    requires { spot.at < 1048576 }
    ensures shown { Shows (λ _. of_item.number_value (kind_at parser.now.tokens.now) shallow value)
        (place spot) result }
    ensures onward { IfOk result (λ x. spot.at ≤ x.1.at) }
{
    let after = parser.take_pass(spot)?;
    Ok((StartValue::Number(spot.at, value), after))
}

/// The `-` with a number that stands there, as a start value.
fn negative_value(parser: &Parser<'_>, spot: Spot) -> Result<(StartValue, Spot), ParseFault>
    requires { spot.at < 1048576 }
    ensures shown { Shows (λ _. of_item.negative_value (kind_at parser.now.tokens.now) shallow) (place spot) result }
    ensures onward { IfOk result (λ x. spot.at ≤ x.1.at) }
{
    let inner = parser.take_pass(spot)?;
    let (value, after) = number(parser, inner)?;
    Ok((StartValue::Negative(spot.at, inner.at, value), after))
}

/// The `NULL` that has to stand there, as a start value.
fn null_value(parser: &Parser<'_>, spot: Spot) -> Result<(StartValue, Spot), ParseFault>
    ensures shown { Shows (λ _. of_item.null_value (kind_at parser.now.tokens.now) shallow) (place spot) result }
    ensures onward { IfOk result (λ x. spot.at ≤ x.1.at) }
{
    let after = parser.word(Keyword::Null, spot)?;
    Ok((StartValue::Null(spot.at), after))
}

/// The start value that stands there.
fn start_value(parser: &Parser<'_>, spot: Spot) -> Result<(StartValue, Spot), ParseFault>
    ensures shown { Shows (λ n. of_item.start_value (kind_at parser.now.tokens.now) shallow n) (place spot) result }
    ensures onward { IfOk result (λ x. spot.at ≤ x.1.at) }
{
    match value_in(parser.kind(spot.at)) {
        ValueStart::Number(value) => number_value(parser, spot, value),
        ValueStart::Negative => negative_value(parser, spot),
        ValueStart::Null => null_value(parser, spot),
    }
}

/// The global of this declarator, whose `=` may stand there.
fn global_from(
    parser: &Parser<'_>,
    declarator: Declarator,
    here: Spot,
) -> Result<(GlobalPart, Spot), ParseFault>
    ensures shown { Shows (λ n. of_item.global_from (kind_at parser.now.tokens.now) shallow n declarator)
        (place here) result }
    ensures onward { IfOk result (λ x. here.at ≤ x.1.at) }
{
    if !is_sign(Punct::Assign, parser.kind(here.at)) {
        let start = None;
        return Ok((GlobalPart { declarator, start }, here));
    }
    let inner = parser.take_pass(here)?;
    let (value, after) = start_value(parser, inner)?;
    let equals = here.at;
    let start = Some(GlobalStart { equals, value });
    Ok((GlobalPart { declarator, start }, after))
}

/// The global that stands there.
fn global(parser: &Parser<'_>, spot: Spot) -> Result<(GlobalPart, Spot), ParseFault>
    ensures shown { Shows (λ n. of_item.global (kind_at parser.now.tokens.now) shallow n) (place spot) result }
    ensures onward { IfOk result (λ x. spot.at ≤ x.1.at) }
{
    let (declarator, here) = declarator(parser, spot)?;
    global_from(parser, declarator, here)
}

/// The globals behind the first one.
fn global_list(
    parser: &Parser<'_>,
    first: GlobalPart,
    spot: Spot,
) -> Result<(Items<GlobalPart>, Spot), ParseFault>
    ensures shown { Shows (λ n. stmts.commas_more (kind_at parser.now.tokens.now) shallow
        (of_item.global (kind_at parser.now.tokens.now) shallow) n (first ∷ [])) (place spot) result }
    ensures onward { IfOk result (λ x. spot.at ≤ x.1.at) }
{
    let mut items = Items::new(parser.alloc);
    items.push(first)?;
    let mut here = spot;
    while is_sign(Punct::Comma, parser.kind(here.at)) {
        let inner = parser.take_pass(here)?;
        let (next, after) = global(parser, inner)?;
        items.push(next)?;
        here = after;
    }
    Ok((items, here))
}

/// The globals of this type whose first declarator ends there.
fn globals_from(
    parser: &Parser<'_>,
    base: Base,
    declarator: Declarator,
    here: Spot,
) -> Result<(Item, Spot), ParseFault>
    ensures shown { Shows (λ n. of_item.globals_from (kind_at parser.now.tokens.now) shallow n base declarator)
        (place here) result }
    ensures onward { IfOk result (λ x. here.at < x.1.at) }
{
    let (first, behind) = global_from(parser, declarator, here)?;
    let (parts, end) = global_list(parser, first, behind)?;
    let after = parser.pass(Punct::Semicolon, end)?;
    Ok((Item::Globals(base, parts), after))
}

/// The globals behind their type and the first one's stars and name; behind a declarator `level` tokens are open.
pub fn globals_named(
    parser: &Parser<'_>,
    level: u32,
    ty: TypeName,
    name: u32,
    here: Spot,
) -> Result<(Item, Spot), ParseFault>
    ensures shown { Shows (λ n. of_item.globals_named
        (kind_at parser.now.tokens.now) shallow n level ty.base ty.stars name) (place here) result }
    ensures onward { IfOk result (λ x. here.at < x.1.at) }
{
    let (declarator, end) = declarator_from(parser, level, ty.stars, name, here)?;
    globals_from(parser, ty.base, declarator, end)
}
