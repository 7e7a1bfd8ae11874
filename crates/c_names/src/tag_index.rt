//! The tags of structs in order, each found without a walk over them.

ghost use Rattle.std.specs.Prelude.{◌≡◌, ◌++◌, ◌∷◌, ◌<◌, [], length, map, IfSome, OnOk};
ghost use Rattle.std.specs.Option.{option_map};
ghost use Rattle.cc_model.specs.Scopes as scopes;

use crate::places::{place_of, put, take_last};
use cc_model::base::NoMemory;
use cc_model::typing::Text;
use indexmap::IndexMap;
use sqlite_items::Items;
use std::alloc::Global;
use std::marker::Model;

/// The tags of structs in order, where a struct may have none, and the place of the first struct of each tag. Contracts
/// see the list of tags.
#[derive(Drop)]
pub struct TagIndex {
    alloc: Global,
    tags: Items<Option<Text>>,
    places: IndexMap<Vec<u8>, usize>,
}

impl Model for TagIndex {
    ghost use Rattle.std.specs.Prelude.{◌≡◌, ℕ, List, Option, bytes_eq};
    ghost use Rattle.indexmap.specs.IndexMap.{get_by};
    ghost use Rattle.cc_model.specs.Scopes.{tag_in};

    ghost Value = { List (Option (List ℕ)) };

    ghost view = { λ s. s.tags };

    ghost invariant = { λ s. (name : List ℕ) → get_by (λ k. bytes_eq name k.items) s.places ≡ tag_in name s.tags };
}

impl TagIndex {
    /// No structs.
    pub fn new(alloc: Global) -> TagIndex
        ensures { result ≡ [] }
    {
        TagIndex {
            alloc,
            tags: Items::new(alloc),
            places: IndexMap::new(alloc),
        }
    }

    /// Where the first struct of that tag stands.
    pub fn position(&self, name: &[u8]) -> Option<usize>
        ensures value { result ≡ scopes.tag_in name.now self.now }
        ensures within { IfSome result (λ n. n < length self.now) }
    {
        place_of(&self.places, name)
    }

    /// Adds a struct with that tag behind the others.
    pub fn add(&mut self, name: &[u8]) -> Result<(), NoMemory>
        ensures { OnOk result (self.new ≡ self.old ++ Some name.now ∷ []) }
    {
        let place = self.tags.len();
        let tag = Items::from_slice(self.alloc, name)?;
        self.tags.push(Some(tag))?;
        if let Err(error) = put(self.alloc, &mut self.places, name, place) {
            take_last(&mut self.tags);
            return Err(error);
        }
        Ok(())
    }

    /// Adds a struct without a tag behind the others.
    pub fn add_untagged(&mut self) -> Result<(), NoMemory>
        ensures { OnOk result (self.new ≡ self.old ++ None ∷ []) }
    {
        self.tags.push(None)?;
        Ok(())
    }

    /// The tags themselves.
    pub fn as_slice(&self) -> &[Option<Text>]
        ensures { result.now ≡ self.now }
    {
        self.tags.as_slice()
    }
}
