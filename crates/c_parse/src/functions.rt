//! Functions and prototypes.

ghost use Rattle.std.specs.Prelude.{◌≡◌, ◌<◌, ◌≤◌, IfOk};
ghost use Rattle.cc_model.specs.Spots.{kind_at, shallow};
ghost use Rattle.c_statements.specs.DescentStatements as stmts;
ghost use Rattle.c_parse.specs.DescentItems as of_item;
ghost use Rattle.c_parse.specs.DescentItems.{with_names as names_are};
ghost use Rattle.c_expressions.specs.Shown.{place, Shows};

use c_expressions::operators::{is_key, is_name, is_sign};
use c_expressions::{ParseFault, Parser, Spot};
use c_statements::statements::block;
use cc_model::trees::{Func, Item, Param, ProtoParam, ResultType};
use cc_model::{Keyword, Punct};
use sqlite_items::Items;
use std::alloc::{AllocError, Global};

/// The parameter that stands there, whose name may be left out.
fn proto(parser: &Parser<'_>, spot: Spot) -> Result<(ProtoParam, Spot), ParseFault>
    ensures shown { Shows (λ n. of_item.proto (kind_at parser.now.tokens.now) shallow n) (place spot) result }
    ensures onward { IfOk result (λ x. spot.at ≤ x.1.at) }
{
    let (ty, here) = parser.type_name(spot)?;
    if !is_name(parser.kind(here.at)) {
        let name = None;
        return Ok((ProtoParam { ty, name }, here));
    }
    let after = parser.take_pass(here)?;
    let name = Some(here.at);
    Ok((ProtoParam { ty, name }, after))
}

/// One parameter or more that stand there.
fn proto_list(parser: &Parser<'_>, spot: Spot) -> Result<(Items<ProtoParam>, Spot), ParseFault>
    ensures shown { Shows (λ n. stmts.commas (kind_at parser.now.tokens.now) shallow
        (of_item.proto (kind_at parser.now.tokens.now) shallow) n) (place spot) result }
    ensures onward { IfOk result (λ x. spot.at ≤ x.1.at) }
{
    let mut items = Items::new(parser.alloc);
    let (first, behind) = proto(parser, spot)?;
    items.push(first)?;
    let mut here = behind;
    while is_sign(Punct::Comma, parser.kind(here.at)) {
        let inner = parser.take_pass(here)?;
        let (next, after) = proto(parser, inner)?;
        items.push(next)?;
        here = after;
    }
    Ok((items, here))
}

/// `void` for no parameters.
fn void_protos(parser: &Parser<'_>, spot: Spot) -> Result<(Items<ProtoParam>, Spot), ParseFault>
    requires { spot.at < 1048576 }
    ensures shown { Shows (λ _. of_item.void_protos (kind_at parser.now.tokens.now) shallow) (place spot) result }
    ensures onward { IfOk result (λ x. spot.at ≤ x.1.at) }
{
    let after = parser.take_pass(spot)?;
    Ok((Items::new(parser.alloc), after))
}

/// What stands in the parentheses of a function.
fn protos(parser: &Parser<'_>, spot: Spot) -> Result<(Items<ProtoParam>, Spot), ParseFault>
    ensures shown { Shows (λ n. of_item.protos (kind_at parser.now.tokens.now) shallow n) (place spot) result }
    ensures onward { IfOk result (λ x. spot.at ≤ x.1.at) }
{
    if is_sign(Punct::Close, parser.kind(spot.at)) {
        return Ok((Items::new(parser.alloc), spot));
    }
    if is_key(Keyword::Void, parser.kind(spot.at)) {
        return void_protos(parser, spot);
    }
    proto_list(parser, spot)
}

/// The parentheses of a function.
fn heading(parser: &Parser<'_>, spot: Spot) -> Result<(Items<ProtoParam>, Spot), ParseFault>
    ensures shown { Shows (λ n. of_item.heading (kind_at parser.now.tokens.now) shallow n) (place spot) result }
    ensures onward { IfOk result (λ x. spot.at ≤ x.1.at) }
{
    let inner = parser.open(Punct::Open, spot)?;
    let (protos, end) = protos(parser, inner)?;
    let after = parser.close(Punct::Close, end, spot.level)?;
    Ok((protos, after))
}

/// The parameters, where each has a name.
fn with_names(alloc: Global, protos: &Items<ProtoParam>) -> Result<Option<Items<Param>>, AllocError>
    ensures named { IfOk result (λ o. o ≡ names_are protos.now) }
{
    let mut params = Items::new(alloc);
    let mut at = 0;
    while at < protos.len() {
        let Some(proto) = protos.get(at) else {
            return Ok(None);
        };
        let Some(name) = proto.name else {
            return Ok(None);
        };
        params.push(Param { ty: proto.ty, name })?;
        at += 1;
    }
    Ok(Some(params))
}

/// The function with these parameters, whose body stands there.
fn bodied(
    parser: &Parser<'_>,
    returned: ResultType,
    name: u32,
    protos: Items<ProtoParam>,
    here: Spot,
) -> Result<(Item, Spot), ParseFault>
    ensures shown { Shows (λ n. of_item.bodied (kind_at parser.now.tokens.now) shallow n returned name protos)
        (place here) result }
    ensures onward { IfOk result (λ x. here.at < x.1.at) }
{
    let named = with_names(parser.alloc, &protos)?;
    let Some(params) = named else {
        return Err(ParseFault::Syntax(here.at));
    };
    let (body, after) = block(parser, here)?;
    let function = Func {
        result: returned,
        name,
        params,
        body,
    };
    Ok((Item::Func(function), after))
}

/// A block or a `;` behind the parameters of a function.
fn ending(
    parser: &Parser<'_>,
    returned: ResultType,
    name: u32,
    protos: Items<ProtoParam>,
    here: Spot,
) -> Result<(Item, Spot), ParseFault>
    ensures shown { Shows (λ n. of_item.ending (kind_at parser.now.tokens.now) shallow n returned name protos)
        (place here) result }
    ensures onward { IfOk result (λ x. here.at < x.1.at) }
{
    if is_sign(Punct::OpenBrace, parser.kind(here.at)) {
        return bodied(parser, returned, name, protos, here);
    }
    let after = parser.pass(Punct::Semicolon, here)?;
    Ok((Item::Prototype(returned, name, protos), after))
}

/// The function behind its name.
pub fn function_from(
    parser: &Parser<'_>,
    returned: ResultType,
    name: u32,
    here: Spot,
) -> Result<(Item, Spot), ParseFault>
    ensures shown { Shows (λ n. of_item.function_from (kind_at parser.now.tokens.now) shallow n returned name)
        (place here) result }
    ensures onward { IfOk result (λ x. here.at < x.1.at) }
{
    let (protos, end) = heading(parser, here)?;
    ending(parser, returned, name, protos, end)
}

/// The function without result that stands there.
pub fn procedure(parser: &Parser<'_>, spot: Spot) -> Result<(Item, Spot), ParseFault>
    requires { spot.at < 1048576 }
    ensures shown { Shows (λ n. of_item.procedure (kind_at parser.now.tokens.now) shallow n) (place spot) result }
    ensures onward { IfOk result (λ x. spot.at < x.1.at) }
{
    let named = parser.take_pass(spot)?;
    let here = parser.name(named)?;
    function_from(parser, ResultType::Void, named.at, here)
}
