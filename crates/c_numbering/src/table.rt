//! The types of a program by their numbers.

ghost use Rattle.std.specs.Prelude.{◌≡◌, [], ◌∷◌, ◌++◌, slice_get, IfOk, OnOk};
ghost use Rattle.cc_model.specs.declared.checked.Ty.TheVariants.{Void};
ghost use Rattle.c_numbering.specs.Table as tables;
ghost use Rattle.c_numbering.specs.Table.{plain, base_ty, IsAdded, Numbered, AllNumbered};

use cc_model::Ty;
use cc_model::base::{NoMemory, TyId};
use cc_model::typing::{BaseType, CType};
use indexmap::IndexSet;
use sqlite_items::Items;
use std::alloc::Global;
use std::marker::Model;

/// A type as the key of an entry.
#[derive(Clone, Copy, Debug, PartialEq, Eq, Hash)]
pub enum Key {
    Int,
    Void,
    Ptr(u32),
    Struct(u32),
    Array(u32, u32),
}

/// The types so far, each by its number. Contracts see their list.
#[derive(Drop)]
pub struct Table {
    keys: IndexSet<Key>,
}

impl Model for Table {
    ghost use Rattle.std.specs.Prelude.{List, map};
    ghost use Rattle.cc_model.specs.declared.checked.Ty.{Ty as Entry};
    ghost use Rattle.c_numbering.specs.Table.{ty_of};

    ghost Value = { List Entry };

    ghost view = { λ t. map ty_of t.keys.keys };
}

/// The key of an entry.
fn key_of(ty: Ty) -> Key
    ensures { result ≡ tables.key_of ty }
{
    match ty {
        Ty::Int => Key::Int,
        Ty::Void => Key::Void,
        Ty::Ptr(target) => Key::Ptr(target.0),
        Ty::Struct(number) => Key::Struct(number),
        Ty::Array(element, length) => Key::Array(element.0, length),
    }
}

/// The entry of a key.
fn ty_of(key: Key) -> Ty
    ensures { result ≡ tables.ty_of key }
{
    match key {
        Key::Int => Ty::Int,
        Key::Void => Ty::Void,
        Key::Ptr(target) => Ty::Ptr(TyId(target)),
        Key::Struct(number) => Ty::Struct(number),
        Key::Array(element, length) => Ty::Array(TyId(element), length),
    }
}

/// The entry of a type that is its base alone.
fn base_entry(base: BaseType) -> Ty
    ensures { result ≡ base_ty base }
{
    match base {
        BaseType::Int => Ty::Int,
        BaseType::Void => Ty::Void,
        BaseType::Struct(number) => Ty::Struct(number),
    }
}

impl Table {
    /// A table without entries.
    fn empty(alloc: Global) -> Table
        ensures { result ≡ [] }
    {
        Table {
            keys: IndexSet::new(alloc),
        }
    }

    /// A table with `Void` alone.
    pub fn new(alloc: Global) -> Result<Table, NoMemory>
        ensures { IfOk result (λ t. t ≡ Void ∷ []) }
    {
        let mut table = Table::empty(alloc);
        table.put(Ty::Void)?;
        Ok(table)
    }

    /// The entries, in order of their numbers.
    pub fn tys(&self, alloc: Global) -> Result<Items<Ty>, NoMemory>
        ensures { IfOk result (λ l. l ≡ self.now) }
    {
        let mut tys = Items::new(alloc);
        for key in self.keys.as_slice() {
            tys.push(ty_of(*key))?;
        }
        Ok(tys)
    }

    /// The number of an entry, which is put last where it isn't there.
    fn put(&mut self, ty: Ty) -> Result<TyId, NoMemory>
        ensures there { IfOk result (λ n. slice_get self.new n.0 ≡ Some ty) }
        ensures added { OnOk result (IsAdded ty self.old self.new) }
    {
        let (number, _) = self.keys.insert_full(key_of(ty))?;
        match u32::try_from(number) {
            Ok(number) => Ok(TyId(number)),
            Err(_) => Err(NoMemory),
        }
    }

    /// The number of a type that is no array.
    pub fn number_of_plain(&mut self, base: BaseType, stars: u32) -> Result<TyId, NoMemory>
        ensures { IfOk result (λ n. Numbered self.old self.new n.0 (plain base stars)) }
    {
        let mut number = self.put(base_entry(base))?;
        for _star in 0..stars {
            number = self.put(Ty::Ptr(number))?;
        }
        Ok(number)
    }

    /// The number of a type. It and each type that it is made of are in the table afterwards.
    pub fn number_of(&mut self, ty: &CType) -> Result<TyId, NoMemory>
        ensures { IfOk result (λ n. Numbered self.old self.new n.0 ty.now) }
    {
        let mut number = self.number_of_plain(ty.base, ty.stars)?;
        let lengths = ty.lengths.as_slice();
        for k in (0..lengths.len()).rev() {
            number = self.put(Ty::Array(number, lengths[k]))?;
        }
        Ok(number)
    }

    /// The numbers of types, one after the other.
    pub fn numbers_of(&mut self, alloc: Global, types: &[CType]) -> Result<Items<TyId>, NoMemory>
        ensures { IfOk result (λ ns. AllNumbered self.old self.new ns types.now) }
    {
        let mut numbers = Items::new(alloc);
        for ty in types {
            numbers.push(self.number_of(ty)?)?;
        }
        Ok(numbers)
    }
}
