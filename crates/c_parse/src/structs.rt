//! Definitions of structs, and their aliases.

ghost use Rattle.std.specs.Prelude.{◌≡◌, ◌<◌, ◌≤◌, IfOk};
ghost use Rattle.cc_model.specs.Spots.{kind_at, shallow};
ghost use Rattle.c_statements.specs.DescentStatements as stmts;
ghost use Rattle.c_parse.specs.DescentItems as of_item;
ghost use Rattle.c_expressions.specs.Shown.{place, Shows};

use c_expressions::operators::{is_name, is_sign};
use c_expressions::{ParseFault, Parser, Spot};
use c_statements::declarations::declarator;
use cc_model::trees::{Declarator, Field, Item, StructDef};
use cc_model::{Keyword, Punct};
use sqlite_items::Items;

/// The declarators of a line of fields that stand there.
fn declarators(parser: &Parser<'_>, spot: Spot) -> Result<(Items<Declarator>, Spot), ParseFault>
    ensures shown { Shows (λ n. stmts.commas (kind_at parser.now.tokens.now) shallow
        (stmts.declarator (kind_at parser.now.tokens.now) shallow) n) (place spot) result }
    ensures onward { IfOk result (λ x. spot.at ≤ x.1.at) }
{
    let mut items = Items::new(parser.alloc);
    let (first, behind) = declarator(parser, spot)?;
    items.push(first)?;
    let mut here = behind;
    while is_sign(Punct::Comma, parser.kind(here.at)) {
        let inner = parser.take_pass(here)?;
        let (next, after) = declarator(parser, inner)?;
        items.push(next)?;
        here = after;
    }
    Ok((items, here))
}

/// The line of fields that stands there.
fn field_line(parser: &Parser<'_>, spot: Spot) -> Result<(Field, Spot), ParseFault>
    ensures shown { Shows (λ n. of_item.field_line (kind_at parser.now.tokens.now) shallow n) (place spot) result }
    ensures onward { IfOk result (λ x. spot.at < x.1.at) }
{
    let (base, here) = parser.base_type(spot)?;
    let (parts, end) = declarators(parser, here)?;
    let after = parser.pass(Punct::Semicolon, end)?;
    Ok((Field { base, parts }, after))
}

/// The lines of fields that stand there, up to a `}`.
fn field_lines(parser: &Parser<'_>, spot: Spot) -> Result<(Items<Field>, Spot), ParseFault>
    ensures shown { Shows (λ n. of_item.field_lines (kind_at parser.now.tokens.now) shallow n) (place spot) result }
    ensures onward { IfOk result (λ x. spot.at ≤ x.1.at) }
{
    let mut items = Items::new(parser.alloc);
    let (first, behind) = field_line(parser, spot)?;
    items.push(first)?;
    let mut here = behind;
    while !is_sign(Punct::CloseBrace, parser.kind(here.at)) {
        let (next, after) = field_line(parser, here)?;
        items.push(next)?;
        here = after;
    }
    Ok((items, here))
}

/// The fields in braces that stand there.
fn fields(parser: &Parser<'_>, spot: Spot) -> Result<(Items<Field>, Spot), ParseFault>
    ensures shown { Shows (λ n. of_item.fields (kind_at parser.now.tokens.now) shallow n) (place spot) result }
    ensures onward { IfOk result (λ x. spot.at ≤ x.1.at) }
{
    let inner = parser.open(Punct::OpenBrace, spot)?;
    let (lines, end) = field_lines(parser, inner)?;
    let after = parser.close(Punct::CloseBrace, end, spot.level)?;
    Ok((lines, after))
}

/// `NAME ;` behind `typedef struct x`.
fn alias(parser: &Parser<'_>, tag: u32, spot: Spot) -> Result<(Item, Spot), ParseFault>
    requires { spot.at < 1048576 }
    ensures shown { Shows (λ n. of_item.alias (kind_at parser.now.tokens.now) shallow tag) (place spot) result }
    ensures onward { IfOk result (λ x. spot.at < x.1.at) }
{
    let end = parser.take_pass(spot)?;
    let after = parser.pass(Punct::Semicolon, end)?;
    Ok((Item::Alias(tag, spot.at), after))
}

/// The fields and the name of a `typedef struct` that stand there.
fn struct_type(
    parser: &Parser<'_>,
    tag: Option<u32>,
    spot: Spot,
) -> Result<(Item, Spot), ParseFault>
    ensures shown { Shows (λ n. of_item.struct_type (kind_at parser.now.tokens.now) shallow n tag)
        (place spot) result }
    ensures onward { IfOk result (λ x. spot.at < x.1.at) }
{
    let (fields, named) = fields(parser, spot)?;
    let end = parser.name(named)?;
    let after = parser.pass(Punct::Semicolon, end)?;
    let definition = StructDef::Named(tag, fields, named.at);
    Ok((Item::Struct(definition), after))
}

/// The tag of a `typedef struct` that stands there, and what is behind it.
fn tagged(parser: &Parser<'_>, spot: Spot) -> Result<(Item, Spot), ParseFault>
    requires { spot.at < 1048576 }
    ensures shown { Shows (λ n. of_item.tagged (kind_at parser.now.tokens.now) shallow n) (place spot) result }
    ensures onward { IfOk result (λ x. spot.at < x.1.at) }
{
    let here = parser.take_pass(spot)?;
    if is_name(parser.kind(here.at)) {
        return alias(parser, spot.at, here);
    }
    struct_type(parser, Some(spot.at), here)
}

/// The `typedef` that stands there.
pub fn typedef(parser: &Parser<'_>, spot: Spot) -> Result<(Item, Spot), ParseFault>
    requires { spot.at < 1048576 }
    ensures shown { Shows (λ n. of_item.typedef (kind_at parser.now.tokens.now) shallow n) (place spot) result }
    ensures onward { IfOk result (λ x. spot.at < x.1.at) }
{
    let word = parser.take_pass(spot)?;
    let here = parser.word(Keyword::Struct, word)?;
    if is_name(parser.kind(here.at)) {
        return tagged(parser, here);
    }
    struct_type(parser, None, here)
}

/// The struct that is defined there.
pub fn struct_def(parser: &Parser<'_>, spot: Spot) -> Result<(Item, Spot), ParseFault>
    requires { spot.at < 1048576 }
    ensures shown { Shows (λ n. of_item.struct_def (kind_at parser.now.tokens.now) shallow n) (place spot) result }
    ensures onward { IfOk result (λ x. spot.at < x.1.at) }
{
    let tag = parser.take_pass(spot)?;
    let here = parser.name(tag)?;
    let (fields, end) = fields(parser, here)?;
    let after = parser.pass(Punct::Semicolon, end)?;
    let definition = StructDef::Tagged(tag.at, fields);
    Ok((Item::Struct(definition), after))
}
