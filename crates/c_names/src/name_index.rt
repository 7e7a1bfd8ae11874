//! Names in order, each found without a walk over them.

ghost use Rattle.std.specs.Prelude.{◌≡◌, ◌++◌, ◌∷◌, ◌<◌, [], length, position, bytes_eq, IfSome, OnOk, OnErr};
ghost use Rattle.cc_model.specs.Scopes as scopes;

use crate::places::{place_of, put, take_last};
use cc_model::base::NoMemory;
use cc_model::typing::Text;
use indexmap::IndexMap;
use sqlite_items::Items;
use std::alloc::Global;
use std::marker::Model;

/// Names in order, and the place of the first of each. Contracts see their list.
#[derive(Drop)]
pub struct NameIndex {
    alloc: Global,
    names: Items<Text>,
    places: IndexMap<Vec<u8>, usize>,
}

impl Model for NameIndex {
    ghost use Rattle.std.specs.Prelude.{◌≡◌, ℕ, List, position, bytes_eq};
    ghost use Rattle.indexmap.specs.IndexMap.{get_by};

    ghost Value = { List (List ℕ) };

    ghost view = { λ s. s.names };

    ghost invariant = { λ s. (name : List ℕ)
        → get_by (λ k. bytes_eq name k.items) s.places ≡ position (bytes_eq name) s.names };
}

impl NameIndex {
    /// No names.
    pub fn new(alloc: Global) -> NameIndex
        ensures { result ≡ [] }
    {
        NameIndex {
            alloc,
            names: Items::new(alloc),
            places: IndexMap::new(alloc),
        }
    }

    /// Where the first of that name stands.
    pub fn position(&self, name: &[u8]) -> Option<usize>
        ensures value { result ≡ position (bytes_eq name.now) self.now }
        ensures within { IfSome result (λ n. n < length self.now) }
    {
        place_of(&self.places, name)
    }

    /// Whether the name is among them.
    pub fn has(&self, name: &[u8]) -> bool
        ensures { result ≡ scopes.has_name name.now self.now }
    {
        place_of(&self.places, name).is_some()
    }

    /// Adds a name behind the others.
    pub fn add(&mut self, name: &[u8]) -> Result<(), NoMemory>
        ensures added { OnOk result (self.new ≡ self.old ++ name.now ∷ []) }
        ensures kept { OnErr result (self.new ≡ self.old) }
    {
        let place = self.names.len();
        self.names.push(Items::from_slice(self.alloc, name)?)?;
        if let Err(error) = put(self.alloc, &mut self.places, name, place) {
            take_last(&mut self.names);
            return Err(error);
        }
        Ok(())
    }

    /// The names themselves.
    pub fn into_names(self) -> Items<Text>
        ensures { result ≡ self }
    {
        self.names
    }
}
