//! Declarators and declarations.

ghost use Rattle.std.specs.Prelude.{◌≡◌, ◌<◌, ◌≤◌, [], IfOk};
ghost use Rattle.cc_model.specs.Spots.{kind_at, shallow};
ghost use Rattle.cc_model.specs.declared.tokens.Punct.TheVariants.{OpenSquare};
ghost use Rattle.c_statements.specs.DescentStatements as of;
ghost use Rattle.c_expressions.specs.Shown.{place, Shows};

use crate::openings::{is_declared, number_in};
use c_expressions::operators::{is_sign, type_start_in};
use c_expressions::starts::TypeStart;
use c_expressions::{ParseFault, Parser, Spot};
use cc_model::Punct;
use cc_model::trees::{Decl, Declarator, Declared, Initializer, Length};
use sqlite_items::Items;

/// The number that has to stand there.
pub fn number(parser: &Parser<'_>, spot: Spot) -> Result<(i32, Spot), ParseFault>
    ensures shown { Shows (λ _. of.expect_number (kind_at parser.now.tokens.now) shallow) (place spot) result }
    ensures onward { IfOk result (λ x. spot.at < x.1.at) }
{
    let Some(value) = number_in(parser.kind(spot.at)) else {
        return Err(ParseFault::Syntax(spot.at));
    };
    let after = parser.take_pass(spot)?;
    Ok((value, after))
}

/// The length in brackets that stands there.
fn length(parser: &Parser<'_>, spot: Spot) -> Result<(Length, Spot), ParseFault>
    requires { spot.at < 1048576 }
    ensures shown { Shows (λ n. of.length (kind_at parser.now.tokens.now) shallow n) (place spot) result }
    ensures onward { IfOk result (λ x. spot.at < x.1.at) }
{
    let inner = parser.take_open(spot)?;
    let (value, end) = number(parser, inner)?;
    let after = parser.pass(Punct::CloseSquare, end)?;
    let token = inner.at;
    Ok((Length { token, value }, after))
}

/// The lengths that stand there.
fn lengths(parser: &Parser<'_>, spot: Spot) -> Result<(Items<Length>, Spot), ParseFault>
    ensures shown { Shows (λ n. of.many (kind_at parser.now.tokens.now) shallow
        (of.lacks (kind_at parser.now.tokens.now) shallow OpenSquare)
        (of.length (kind_at parser.now.tokens.now) shallow) n []) (place spot) result }
    ensures onward { IfOk result (λ x. spot.at ≤ x.1.at) }
{
    let mut items = Items::new(parser.alloc);
    let mut here = spot;
    while is_sign(Punct::OpenSquare, parser.kind(here.at)) {
        let (length, after) = length(parser, here)?;
        items.push(length)?;
        here = after;
    }
    Ok((items, here))
}

/// The declarator with these stars and this name, behind which `level` tokens are open: its lengths stand there.
pub fn declarator_from(
    parser: &Parser<'_>,
    level: u32,
    stars: u32,
    name: u32,
    here: Spot,
) -> Result<(Declarator, Spot), ParseFault>
    ensures shown { Shows (λ n. of.declarator_from (kind_at parser.now.tokens.now) shallow n level stars name)
        (place here) result }
    ensures onward { IfOk result (λ x. here.at ≤ x.1.at) }
{
    let (lengths, end) = lengths(parser, here)?;
    let declarator = Declarator {
        stars,
        name,
        lengths,
    };
    Ok((declarator, Spot { at: end.at, level }))
}

/// The declarator that stands there.
pub fn declarator(parser: &Parser<'_>, spot: Spot) -> Result<(Declarator, Spot), ParseFault>
    ensures shown { Shows (λ n. of.declarator (kind_at parser.now.tokens.now) shallow n) (place spot) result }
    ensures onward { IfOk result (λ x. spot.at ≤ x.1.at) }
{
    let (stars, named) = parser.stars(spot)?;
    let here = parser.name(named)?;
    declarator_from(parser, spot.level, stars, named.at, here)
}

/// The declarator that stands there, with its initialiser where it has one.
fn initialised(parser: &Parser<'_>, spot: Spot) -> Result<(Declared, Spot), ParseFault>
    ensures shown { Shows (λ n. of.initialised (kind_at parser.now.tokens.now) shallow n) (place spot) result }
    ensures onward { IfOk result (λ x. spot.at ≤ x.1.at) }
{
    let (declarator, here) = declarator(parser, spot)?;
    if is_sign(Punct::Assign, parser.kind(here.at)) {
        return starting(parser, spot.level, declarator, here);
    }
    let initializer = None;
    let declared = Declared {
        declarator,
        initializer,
    };
    Ok((declared, here))
}

/// The declarator with the initialiser whose `=` stands there.
fn starting(
    parser: &Parser<'_>,
    level: u32,
    declarator: Declarator,
    here: Spot,
) -> Result<(Declared, Spot), ParseFault>
    requires { here.at < 1048576 }
    ensures shown { Shows (λ n. of.starting (kind_at parser.now.tokens.now) shallow n level declarator)
        (place here) result }
    ensures onward { IfOk result (λ x. here.at ≤ x.1.at) }
{
    let inner = parser.take_pass(here)?;
    let (value, end) = parser.expression(inner)?;
    let equals = here.at;
    let declared = Declared {
        declarator,
        initializer: Some(Initializer { equals, value }),
    };
    Ok((declared, Spot { at: end.at, level }))
}

/// The declarators of a declaration that stand there.
fn declared_list(parser: &Parser<'_>, spot: Spot) -> Result<(Items<Declared>, Spot), ParseFault>
    ensures shown { Shows (λ n. of.commas (kind_at parser.now.tokens.now) shallow
        (of.initialised (kind_at parser.now.tokens.now) shallow) n) (place spot) result }
    ensures onward { IfOk result (λ x. spot.at ≤ x.1.at) }
{
    let mut items = Items::new(parser.alloc);
    let (first, behind) = initialised(parser, spot)?;
    items.push(first)?;
    let mut here = behind;
    while is_sign(Punct::Comma, parser.kind(here.at)) {
        let inner = parser.take_pass(here)?;
        let (next, after) = initialised(parser, inner)?;
        items.push(next)?;
        here = after;
    }
    Ok((items, here))
}

/// Whether the tokens there begin a declaration.
pub fn starts_decl(parser: &Parser<'_>, spot: Spot) -> bool
    ensures { result ≡ of.starts_decl (kind_at parser.now.tokens.now) shallow (place spot) }
{
    match type_start_in(parser.kind(spot.at)) {
        TypeStart::Int => true,
        TypeStart::Struct => true,
        TypeStart::Alias => is_declared(parser.kind(spot.at + 1)),
        TypeStart::Other => false,
    }
}

/// The declaration that stands there.
pub fn declaration(parser: &Parser<'_>, spot: Spot) -> Result<(Decl, Spot), ParseFault>
    ensures shown { Shows (λ n. of.declaration (kind_at parser.now.tokens.now) shallow n) (place spot) result }
    ensures onward { IfOk result (λ x. spot.at < x.1.at) }
{
    let (base, here) = parser.base_type(spot)?;
    let (parts, end) = declared_list(parser, here)?;
    let after = parser.pass(Punct::Semicolon, end)?;
    Ok((Decl { base, parts }, after))
}
