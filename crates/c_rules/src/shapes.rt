//! What an expression is, and what the rules ask of it.

ghost use Rattle.std.specs.Prelude.{◌≡◌, IfOk};
ghost use Rattle.cc_model.specs.Types as types;
ghost use Rattle.cc_model.specs.Typing as typing;

use c_scopes::types::{
    copy, int_type, is_int, is_pointer, same_type, struct_behind, struct_in, void_type,
};
use cc_model::base::NoMemory;
use cc_model::typing::{CType, Shape};
use std::alloc::Global;

/// Whether the expression is well typed.
pub fn is_well(shape: &Shape) -> bool
    ensures { result ≡ typing.is_well shape.now }
{
    !matches!(shape, Shape::Unclear)
}

/// The type of an expression.
pub fn type_of(alloc: Global, shape: &Shape) -> Result<CType, NoMemory>
    ensures { IfOk result (λ t. t ≡ typing.type_of shape.now) }
{
    match shape {
        Shape::Unclear | Shape::Null => Ok(void_type(alloc)),
        Shape::Zero(_) => Ok(int_type(alloc)),
        Shape::Value(ty) | Shape::Place(ty) => copy(alloc, ty),
    }
}

/// Whether the expression is an int.
pub fn is_int_shape(shape: &Shape) -> bool
    ensures { result ≡ typing.is_int_shape shape.now }
{
    match shape {
        Shape::Unclear | Shape::Null => false,
        Shape::Zero(_) => true,
        Shape::Value(ty) | Shape::Place(ty) => is_int(ty),
    }
}

/// Whether the expression is a pointer.
pub fn is_pointer_shape(shape: &Shape) -> bool
    ensures { result ≡ typing.is_pointer_shape shape.now }
{
    match shape {
        Shape::Unclear | Shape::Null | Shape::Zero(_) => false,
        Shape::Value(ty) | Shape::Place(ty) => is_pointer(ty),
    }
}

/// Whether the expression is NULL or the number 0.
pub fn is_nil(shape: &Shape) -> bool
    ensures { result ≡ typing.is_nil shape.now }
{
    matches!(shape, Shape::Null | Shape::Zero(_))
}

/// Whether the expression has a truth value.
pub fn has_truth(shape: &Shape) -> bool
    ensures { result ≡ typing.has_truth shape.now }
{
    is_int_shape(shape) || is_pointer_shape(shape)
}

/// Whether the expression is a place.
pub fn is_place(shape: &Shape) -> bool
    ensures { result ≡ typing.is_place shape.now }
{
    matches!(shape, Shape::Place(_))
}

/// Whether the expression is the place of an int.
pub fn is_int_place(shape: &Shape) -> bool
    ensures { result ≡ typing.is_int_place shape.now }
{
    is_place(shape) && is_int_shape(shape)
}

/// Whether two expressions are pointers of one type, where the first is a pointer.
fn same_pointers(one: &Shape, other: &Shape) -> bool
    ensures { result ≡ typing.same_pointers one.now other.now }
{
    match (one, other) {
        (Shape::Value(one) | Shape::Place(one), Shape::Value(other) | Shape::Place(other)) => {
            is_pointer(one) && same_type(one, other)
        }
        _ => false,
    }
}

/// Whether `==` takes the two expressions.
pub fn can_equal(one: &Shape, other: &Shape) -> bool
    ensures { result ≡ typing.can_equal one.now other.now }
{
    (is_int_shape(one) && is_int_shape(other))
        || same_pointers(one, other)
        || (is_pointer_shape(one) && is_nil(other))
        || (is_nil(one) && is_pointer_shape(other))
}

/// Whether an object of the type takes the value of the expression.
pub fn takes(ty: &CType, shape: &Shape) -> bool
    ensures { result ≡ typing.takes ty.now shape.now }
{
    match shape {
        Shape::Unclear => false,
        Shape::Null => is_pointer(ty),
        Shape::Zero(_) => is_int(ty) || is_pointer(ty),
        Shape::Value(other) | Shape::Place(other) => same_type(ty, other),
    }
}

/// The struct of a place.
pub fn struct_place(shape: &Shape) -> Option<u32>
    ensures { result ≡ typing.struct_place shape.now }
{
    match shape {
        Shape::Place(ty) => struct_in(ty),
        _ => None,
    }
}

/// The struct that a pointer points to.
pub fn struct_at(shape: &Shape) -> Option<u32>
    ensures { result ≡ types.struct_behind (typing.type_of shape.now) }
{
    match shape {
        Shape::Value(ty) | Shape::Place(ty) => struct_behind(ty),
        _ => None,
    }
}
