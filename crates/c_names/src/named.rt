//! Lists of what has a name, each name found without a walk over the list.

ghost use Rattle.std.specs.Prelude.{◌≡◌, ◌++◌, ◌∷◌, [], ℕ, List, find, bytes_eq, OnOk, IfOk};
ghost use Rattle.std.specs.Option.{option_copied};
ghost use Rattle.cc_model.specs.Scopes as scopes;

use crate::name_index::NameIndex;
use crate::places::take_last;
use cc_model::base::NoMemory;
use cc_model::typing::{Alias, Member, Variable};
use sqlite_items::Items;
use std::alloc::Global;
use std::marker::Model;

/// What has a name.
pub trait HasName {
    ghost name_of: { Self → List ℕ };

    /// The name.
    fn name(&self) -> &[u8]
        ensures { result.now ≡ name_of self.now };
}

impl HasName for Variable {
    ghost name_of = { λ v. v.name };

    fn name(&self) -> &[u8] {
        self.name.as_slice()
    }
}

impl HasName for Alias {
    ghost name_of = { λ a. a.name };

    fn name(&self) -> &[u8] {
        self.name.as_slice()
    }
}

impl HasName for Member {
    ghost name_of = { λ m. m.name };

    fn name(&self) -> &[u8] {
        self.name.as_slice()
    }
}

/// A list of what has names. Contracts see it as a list.
#[derive(Drop)]
pub struct Named<T: HasName> {
    items: Items<T>,
    names: NameIndex,
}

impl<T: HasName> Model for Named<T> {
    ghost use Rattle.std.specs.Prelude.{◌≡◌, List, map};

    ghost Value = { List T };

    ghost view = { λ l. l.items };

    ghost invariant = { λ l. l.names ≡ map T.name_of l.items };
}

impl<T: HasName> Named<T> {
    /// An empty list.
    pub fn new(alloc: Global) -> Named<T>
        ensures { result ≡ [] }
    {
        Named {
            items: Items::new(alloc),
            names: NameIndex::new(alloc),
        }
    }

    /// The list.
    pub fn as_slice(&self) -> &[T]
        ensures { result.now ≡ self.now }
    {
        self.items.as_slice()
    }

    /// The first of that name.
    pub fn find(&self, name: &[u8]) -> Option<&T>
        ensures { option_copied result ≡ find (λ (x : T). bytes_eq name.now (T.name_of x)) self.now }
    {
        match self.names.position(name) {
            Some(place) => self.items.get(place),
            None => None,
        }
    }
}

impl<T: HasName + Drop> Named<T> {
    /// Adds an element behind the others.
    pub fn push(&mut self, alloc: Global, item: T) -> Result<(), NoMemory>
        ensures { OnOk result (self.new ≡ self.old ++ item ∷ []) }
    {
        let name = Items::from_slice(alloc, item.name())?;
        self.items.push(item)?;
        if let Err(error) = self.names.add(name.as_slice()) {
            take_last(&mut self.items);
            return Err(error);
        }
        Ok(())
    }
}
