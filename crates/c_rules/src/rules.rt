//! The rule of each operator, over what its operands are.

ghost use Rattle.std.specs.Prelude.{◌≡◌, ◌++◌, OnOk, IfOk};
ghost use Rattle.std.specs.Option.{option_copied};
ghost use Rattle.cc_model.specs.Typing.{null_beside};
ghost use Rattle.c_rules.specs.Telling as telling;
ghost use Rattle.c_rules.specs.Telling.{answer};

use crate::shapes::{
    can_equal, has_truth, is_int_shape, is_place, is_pointer_shape, is_well, type_of,
};
use c_scopes::types::{copy, element_of, int_type, is_array, pointer_to, target_of};
use cc_model::base::NoMemory;
use cc_model::typing::{Note, Shape, Variable, Wrong};
use sqlite_items::Items;
use std::alloc::Global;

/// The rule of the operator at token `t`: what the expression is where the rule holds, else a fault there.
pub fn ending(
    alloc: Global,
    t: u32,
    well: bool,
    holds: bool,
    shape: Shape,
    notes: &mut Items<Note>,
) -> Result<Shape, NoMemory>
    ensures { IfOk result (λ s. telling.ending t well holds shape notes.old ≡ answer s notes.new) }
{
    if !well {
        return Ok(Shape::Unclear);
    }
    if !holds {
        notes.push(Note::Fault(Wrong::Mismatch, t))?;
        return Ok(Shape::Unclear);
    }
    let ty = type_of(alloc, &shape)?;
    notes.push(Note::Typed(t, ty))?;
    Ok(shape)
}

/// An operator that takes two ints and gives one.
pub fn ints(
    alloc: Global,
    t: u32,
    left: &Shape,
    right: &Shape,
    notes: &mut Items<Note>,
) -> Result<Shape, NoMemory>
    ensures { IfOk result (λ s. telling.ints t left.now right.now notes.old ≡ answer s notes.new) }
{
    let well = is_well(left) && is_well(right);
    let holds = is_int_shape(left) && is_int_shape(right);
    ending(alloc, t, well, holds, Shape::Value(int_type(alloc)), notes)
}

/// `&&` and `||`.
pub fn truths(
    alloc: Global,
    t: u32,
    left: &Shape,
    right: &Shape,
    notes: &mut Items<Note>,
) -> Result<Shape, NoMemory>
    ensures { IfOk result (λ s. telling.truths t left.now right.now notes.old ≡ answer s notes.new) }
{
    let well = is_well(left) && is_well(right);
    let holds = has_truth(left) && has_truth(right);
    ending(alloc, t, well, holds, Shape::Value(int_type(alloc)), notes)
}

/// Notes that the number 0 stands for NULL, where it stands beside a pointer.
pub fn note_null(pointer: bool, shape: &Shape, notes: &mut Items<Note>) -> Result<(), NoMemory>
    ensures { OnOk result (notes.new ≡ notes.old ++ null_beside pointer shape.now) }
{
    if pointer && let Shape::Zero(at) = shape {
        notes.push(Note::Null(*at))?;
    }
    Ok(())
}

/// `==` and `!=`.
pub fn equals(
    alloc: Global,
    t: u32,
    left: &Shape,
    right: &Shape,
    notes: &mut Items<Note>,
) -> Result<Shape, NoMemory>
    ensures { IfOk result (λ s. telling.equals t left.now right.now notes.old ≡ answer s notes.new) }
{
    let well = is_well(left) && is_well(right);
    let holds = can_equal(left, right);
    note_null(is_pointer_shape(left), right, notes)?;
    note_null(is_pointer_shape(right), left, notes)?;
    ending(alloc, t, well, holds, Shape::Value(int_type(alloc)), notes)
}

/// The sign `-` in front.
pub fn minus(alloc: Global, t: u32, of: &Shape, notes: &mut Items<Note>) -> Result<Shape, NoMemory>
    ensures { IfOk result (λ s. telling.minus t of.now notes.old ≡ answer s notes.new) }
{
    ending(
        alloc,
        t,
        is_well(of),
        is_int_shape(of),
        Shape::Value(int_type(alloc)),
        notes,
    )
}

/// `!`
pub fn negation(
    alloc: Global,
    t: u32,
    of: &Shape,
    notes: &mut Items<Note>,
) -> Result<Shape, NoMemory>
    ensures { IfOk result (λ s. telling.negation t of.now notes.old ≡ answer s notes.new) }
{
    ending(
        alloc,
        t,
        is_well(of),
        has_truth(of),
        Shape::Value(int_type(alloc)),
        notes,
    )
}

/// `*` in front.
pub fn deref(alloc: Global, t: u32, of: &Shape, notes: &mut Items<Note>) -> Result<Shape, NoMemory>
    ensures { IfOk result (λ s. telling.deref t of.now notes.old ≡ answer s notes.new) }
{
    let ty = type_of(alloc, of)?;
    let shape = Shape::Place(target_of(alloc, &ty));
    ending(alloc, t, is_well(of), is_pointer_shape(of), shape, notes)
}

/// `&` in front.
pub fn address(
    alloc: Global,
    t: u32,
    of: &Shape,
    notes: &mut Items<Note>,
) -> Result<Shape, NoMemory>
    ensures { IfOk result (λ s. telling.address t of.now notes.old ≡ answer s notes.new) }
{
    let ty = type_of(alloc, of)?;
    let holds = is_place(of) && !is_array(&ty);
    let shape = Shape::Value(pointer_to(alloc, &ty)?);
    ending(alloc, t, is_well(of), holds, shape, notes)
}

/// `[` behind an array.
pub fn index(
    alloc: Global,
    t: u32,
    array: &Shape,
    at: &Shape,
    notes: &mut Items<Note>,
) -> Result<Shape, NoMemory>
    ensures { IfOk result (λ s. telling.index t array.now at.now notes.old ≡ answer s notes.new) }
{
    let ty = type_of(alloc, array)?;
    let well = is_well(array) && is_well(at);
    let holds = is_place(array) && is_array(&ty) && is_int_shape(at);
    let shape = Shape::Place(element_of(alloc, &ty)?);
    ending(alloc, t, well, holds, shape, notes)
}

/// A name that means a variable or nothing.
pub fn named(
    alloc: Global,
    t: u32,
    found: Option<&Variable>,
    notes: &mut Items<Note>,
) -> Result<Shape, NoMemory>
    ensures { IfOk result (λ s. telling.named t (option_copied found.entry) notes.old ≡ answer s notes.new) }
{
    let variable = match found {
        Some(variable) => variable,
        None => {
            notes.push(Note::Fault(Wrong::Unknown, t))?;
            return Ok(Shape::Unclear);
        }
    };
    notes.push(Note::Means(t, variable.target))?;
    let ty = match &variable.ty {
        Some(ty) => ty,
        None => return Ok(Shape::Unclear),
    };
    notes.push(Note::Typed(t, copy(alloc, ty)?))?;
    Ok(Shape::Place(copy(alloc, ty)?))
}
