//! Which declaration a name means.

ghost use Rattle.std.specs.Prelude.{◌≡◌, ◌<◌, ◌^◌, length, slice_range, IfSome, find, bytes_eq};
ghost use Rattle.std.specs.Option.{option_copied};
ghost use Rattle.cc_model.specs.Scopes as scopes;

use c_names::{Named, TagIndex};
use cc_model::typing::{Function, Text, Variable};

/// The bytes from `start` to `end`; those that are there, where the source ends before.
pub fn cut(source: &[u8], start: usize, end: usize) -> &[u8]
    ensures { result.now ≡ slice_range source.now start end }
{
    let end = if end < source.len() {
        end
    } else {
        source.len()
    };
    if start < end {
        &source[start..end]
    } else {
        &[]
    }
}

/// The variable of that name.
pub fn variable_in<'a>(name: &[u8], variables: &'a Named<Variable>) -> Option<&'a Variable>
    ensures { option_copied result ≡ scopes.variable_in name.now variables.now }
{
    variables.find(name)
}

/// The variable of that name in the innermost scope that has one.
pub fn variable_in_scopes<'a>(name: &[u8], around: &'a [Named<Variable>]) -> Option<&'a Variable>
    ensures { option_copied result ≡ scopes.variable_in_scopes name.now around.now }
{
    match around {
        [] => None,
        [scope, rest @ ..] => match variable_in_scopes(name, rest) {
            Some(variable) => Some(variable),
            None => variable_in(name, scope),
        },
    }
}

/// The number of the struct of that tag.
pub fn tag_in(name: &[u8], tags: &TagIndex) -> Option<u32>
    requires { length tags.now < 2 ^ 32 }
    ensures { result ≡ scopes.tag_in name.now tags.now }
{
    match tags.position(name) {
        Some(number) => Some(number as u32),
        None => None,
    }
}

/// Where the function of that name stands among those.
fn function_position(name: &[u8], functions: &[Function]) -> Option<usize>
    ensures value { result ≡ scopes.function_in name.now functions.now }
    ensures within { IfSome result (λ n. n < length functions.now) }
{
    functions.iter().position(|f| name == f.name.as_slice())
}

/// The number of the function of that name.
pub fn function_in(name: &[u8], functions: &[Function]) -> Option<u32>
    requires { length functions.now < 2 ^ 32 }
    ensures { result ≡ scopes.function_in name.now functions.now }
{
    match function_position(name, functions) {
        Some(number) => Some(number as u32),
        None => None,
    }
}

/// The first of the names that is this one.
fn find_name<'a>(name: &[u8], names: &'a [Text]) -> Option<&'a Text>
    ensures { option_copied result ≡ find (bytes_eq name.now) names.now }
{
    names.iter().find(|n| name == n.as_slice())
}

/// Whether the name is among those.
pub fn has_name(name: &[u8], names: &[Text]) -> bool
    ensures { result ≡ scopes.has_name name.now names.now }
{
    match find_name(name, names) {
        Some(_) => true,
        None => false,
    }
}
