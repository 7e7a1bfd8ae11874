//! The body of each function, by its item.

ghost use Rattle.std.specs.Prelude.{◌≡◌, length, IfOk};
ghost use Rattle.cc_model.specs.CheckedProgram.{name_at};
ghost use Rattle.tac_lower.specs.Bodies.{number_named, body_number, noted, AreBodies};

use crate::known::name;
use cc_model::base::{Items, NoMemory};
use cc_model::trees::Item;
use cc_model::{Checked, Target};
use std::alloc::Global;

/// The function that the name at a token means.
fn number_named(checked: &Checked, t: u32) -> Option<u32>
    ensures { result ≡ number_named (name_at checked.now t) }
{
    match name(checked, t) {
        Some(Target::Func(number)) => Some(number),
        _ => None,
    }
}

/// The number of the function whose body an item is.
fn body_number(checked: &Checked, item: &Item) -> Option<u32>
    ensures { result ≡ body_number checked.now item.now }
{
    match item {
        Item::Func(function) => number_named(checked, function.name),
        _ => None,
    }
}

/// Notes the index of a body.
fn note(bodies: &mut Items<Option<usize>>, function: Option<u32>, at: usize)
    ensures { bodies.new ≡ noted function at bodies.old }
{
    if let Some(number) = function {
        let number = number as usize;
        if number < bodies.len() {
            bodies.set(number, Some(at));
        }
    }
}

/// The index of each function's body among the items. None where it has no body.
pub fn bodies(alloc: Global, checked: &Checked) -> Result<Items<Option<usize>>, NoMemory>
    ensures bodies { IfOk result (λ l. AreBodies checked.now (checked.now.program).items
        (checked.now.program).items l) }
    ensures many { IfOk result (λ l. length l ≡ length checked.now.funcs) }
{
    let items = checked.program.items.as_slice();
    let mut bodies = Items::from_vec(vec![in alloc; None; checked.funcs.len()]?);
    let mut left = items.len();
    while left > 0 {
        left -= 1;
        let number = body_number(checked, &items[left]);
        note(&mut bodies, number, left);
    }
    Ok(bodies)
}
