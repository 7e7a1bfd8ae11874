//! Types, and how many cells they have.

ghost use Rattle.std.specs.Prelude.{◌≡◌, ◌*◌, IfOk, slice_get, unwrap_or};
ghost use Rattle.cc_model.specs.Types as types;

use cc_model::base::NoMemory;
use cc_model::typing::{BaseType, CType};
use sqlite_items::{Items, at};
use std::alloc::Global;

/// The type `int`.
pub fn int_type(alloc: Global) -> CType
    ensures { result ≡ types.int_type }
{
    CType {
        base: BaseType::Int,
        stars: 0,
        lengths: Items::new(alloc),
    }
}

/// No type: that of NULL itself.
pub fn void_type(alloc: Global) -> CType
    ensures { result ≡ types.void_type }
{
    CType {
        base: BaseType::Void,
        stars: 0,
        lengths: Items::new(alloc),
    }
}

/// The same type once more.
pub fn copy(alloc: Global, ty: &CType) -> Result<CType, NoMemory>
    ensures { IfOk result (λ t. t ≡ ty.now) }
{
    let lengths = Items::from_slice(alloc, ty.lengths.as_slice())?;
    Ok(CType {
        base: ty.base,
        stars: ty.stars,
        lengths,
    })
}

/// The pointer to a type that is no array.
pub fn pointer_to(alloc: Global, ty: &CType) -> Result<CType, NoMemory>
    ensures { IfOk result (λ t. t ≡ types.pointer_to ty.now) }
{
    // No memory holds a program of so many stars.
    let stars = match ty.stars.checked_add(1) {
        Some(stars) => stars,
        None => return Err(NoMemory),
    };
    Ok(CType {
        base: ty.base,
        stars,
        lengths: Items::new(alloc),
    })
}

/// What a pointer points to.
pub fn target_of(alloc: Global, ty: &CType) -> CType
    ensures { result ≡ types.target_of ty.now }
{
    CType {
        base: ty.base,
        stars: if ty.stars == 0 { 0 } else { ty.stars - 1 },
        lengths: Items::new(alloc),
    }
}

/// What an array is an array of.
pub fn element_of(alloc: Global, ty: &CType) -> Result<CType, NoMemory>
    ensures { IfOk result (λ t. t ≡ types.element_of ty.now) }
{
    let lengths = match ty.lengths.as_slice() {
        [] => Items::new(alloc),
        [_, rest @ ..] => Items::from_slice(alloc, rest)?,
    };
    Ok(CType {
        base: ty.base,
        stars: ty.stars,
        lengths,
    })
}

/// Whether the type is an array.
pub fn is_array(ty: &CType) -> bool
    ensures { result ≡ types.is_array ty.now }
{
    !ty.lengths.is_empty()
}

/// Whether the type is a pointer.
pub fn is_pointer(ty: &CType) -> bool
    ensures { result ≡ types.is_pointer ty.now }
{
    ty.stars > 0 && !is_array(ty)
}

/// Whether the type is its base alone.
fn is_bare(ty: &CType) -> bool
    ensures { result ≡ types.is_bare ty.now }
{
    ty.stars == 0 && !is_array(ty)
}

/// Whether the type is `int`.
pub fn is_int(ty: &CType) -> bool
    ensures { result ≡ types.is_int ty.now }
{
    matches!(ty.base, BaseType::Int) && is_bare(ty)
}

/// Whether the type is `void`.
pub fn is_void(ty: &CType) -> bool
    ensures { result ≡ types.is_void ty.now }
{
    matches!(ty.base, BaseType::Void) && is_bare(ty)
}

/// The struct of a base.
fn struct_of(base: BaseType) -> Option<u32>
    ensures { result ≡ types.struct_of base }
{
    match base {
        BaseType::Struct(number) => Some(number),
        BaseType::Int | BaseType::Void => None,
    }
}

/// The struct that a type is.
pub fn struct_in(ty: &CType) -> Option<u32>
    ensures { result ≡ types.struct_in ty.now }
{
    if is_bare(ty) {
        struct_of(ty.base)
    } else {
        None
    }
}

/// The struct that a pointer points to.
pub fn struct_behind(ty: &CType) -> Option<u32>
    ensures { result ≡ types.struct_behind ty.now }
{
    if ty.stars == 1 && !is_array(ty) {
        struct_of(ty.base)
    } else {
        None
    }
}

/// Whether the bases are the same.
fn same_base(one: BaseType, other: BaseType) -> bool
    ensures { result ≡ types.same_base one other }
{
    match (one, other) {
        (BaseType::Int, BaseType::Int) | (BaseType::Void, BaseType::Void) => true,
        (BaseType::Struct(m), BaseType::Struct(n)) => m == n,
        _ => false,
    }
}

/// Whether the types are the same.
pub fn same_type(one: &CType, other: &CType) -> bool
    ensures { result ≡ types.same_type one.now other.now }
{
    same_base(one.base, other.base)
        && one.stars == other.stars
        && same_lengths(one.lengths.as_slice(), other.lengths.as_slice())
}

/// Whether the lengths are the same.
fn same_lengths(one: &[u32], other: &[u32]) -> bool
    ensures { result ≡ types.same_lengths one.now other.now }
{
    one == other
}

/// A size, where one above 256 is told as 257.
pub fn up_to_257(size: u64) -> u32
    ensures { result ≡ types.up_to_257 size }
{
    if size < 257 { size as u32 } else { 257 }
}

/// The product of two numbers, where one above 256 is told as 257.
fn times(one: u32, other: u32) -> u32
    ensures { result ≡ types.up_to_257 (one * other) }
{
    up_to_257(u64::from(one).saturating_mul(u64::from(other)))
}

/// The product of array lengths, where one above 256 is told as 257.
fn product(lengths: &[u32]) -> u32
    ensures { result ≡ types.up_to_257 (types.product lengths.now) }
{
    let mut size = 1;
    for length in lengths {
        size = times(size, *length);
    }
    size
}

/// The size of a base: the sizes of structs are given by their numbers.
fn base_size(sizes: &[u32], base: BaseType) -> u32
    ensures { result ≡ types.base_size sizes.now base }
{
    match base {
        BaseType::Int => 1,
        BaseType::Void => 0,
        BaseType::Struct(number) => struct_size(sizes, number),
    }
}

/// The size of a struct by its number; 0 where there is none.
fn struct_size(sizes: &[u32], number: u32) -> u32
    ensures { result ≡ unwrap_or (slice_get sizes.now number) 0 }
{
    match at(sizes, number as usize) {
        Some(size) => *size,
        None => 0,
    }
}

/// The number of cells of a type, where one above 256 is told as 257.
pub fn size_of(sizes: &[u32], ty: &CType) -> u32
    ensures { result ≡ types.size_of sizes.now ty.now }
{
    let element = if ty.stars == 0 {
        base_size(sizes, ty.base)
    } else {
        1
    };
    let product = product(ty.lengths.as_slice());
    times(product, element)
}
