//! The items of a file.

ghost use Rattle.std.specs.Prelude.{◌≡◌, ◌<◌, ◌≤◌, IfOk};
ghost use Rattle.cc_model.specs.Spots.{kind_at, shallow};
ghost use Rattle.c_parse.specs.DescentItems as of_item;
ghost use Rattle.c_expressions.specs.Shown.{place, Shows};

use crate::functions::{function_from, procedure};
use crate::globals::globals_named;
use crate::openings::{ItemStart, is_end, item_in};
use crate::structs::{struct_def, typedef};
use c_expressions::operators::is_sign;
use c_expressions::{ParseFault, Parser, Spot};
use cc_model::Punct;
use cc_model::trees::{Base, Item, ResultType, TypeName};
use sqlite_items::Items;

/// A function with a result, or globals, behind their type.
fn typed_from(parser: &Parser<'_>, base: Base, spot: Spot) -> Result<(Item, Spot), ParseFault>
    ensures shown { Shows (λ n. of_item.typed_from (kind_at parser.now.tokens.now) shallow n base)
        (place spot) result }
    ensures onward { IfOk result (λ x. spot.at < x.1.at) }
{
    let (stars, named) = parser.stars(spot)?;
    let here = parser.name(named)?;
    let ty = TypeName { base, stars };
    if is_sign(Punct::Open, parser.kind(here.at)) {
        return function_from(parser, ResultType::Value(ty), named.at, here);
    }
    globals_named(parser, spot.level, ty, named.at, here)
}

/// The function with a result, or the globals, that stand there.
fn typed(parser: &Parser<'_>, spot: Spot) -> Result<(Item, Spot), ParseFault>
    ensures shown { Shows (λ n. of_item.item_of (kind_at parser.now.tokens.now) shallow n of_item.a_typed)
        (place spot) result }
    ensures onward { IfOk result (λ x. spot.at < x.1.at) }
{
    let (base, here) = parser.base_type(spot)?;
    typed_from(parser, base, here)
}

/// The item that stands there.
fn item(parser: &Parser<'_>, spot: Spot) -> Result<(Item, Spot), ParseFault>
    ensures shown { Shows (λ n. of_item.item (kind_at parser.now.tokens.now) shallow n) (place spot) result }
    ensures onward { IfOk result (λ x. spot.at < x.1.at) }
{
    if is_end(parser.kind(spot.at)) {
        return typed(parser, spot);
    }
    match item_in(parser.kind(spot.at), parser.kind(spot.at + 2)) {
        ItemStart::Typedef => typedef(parser, spot),
        ItemStart::Struct => struct_def(parser, spot),
        ItemStart::Void => procedure(parser, spot),
        ItemStart::Typed => typed(parser, spot),
    }
}

/// The items that stand there, up to the end of the file.
pub fn items(parser: &Parser<'_>, spot: Spot) -> Result<(Items<Item>, Spot), ParseFault>
    ensures shown { Shows (λ n. of_item.items (kind_at parser.now.tokens.now) shallow n) (place spot) result }
{
    let mut items = Items::new(parser.alloc);
    let mut here = spot;
    while !is_end(parser.kind(here.at)) {
        let (item, after) = item(parser, here)?;
        items.push(item)?;
        here = after;
    }
    Ok((items, here))
}
