//! The first place of each name, in a map.

ghost use Rattle.std.specs.Prelude.{◌≡◌, ◌++◌, ◌∷◌, [], ℕ, List, bytes_eq, OnOk, OnErr, Some, None, if◌then◌else◌};
ghost use Rattle.indexmap.specs.IndexMap.{get_by};
ghost use Rattle.cc_model.specs.Scopes as scopes;

use cc_model::base::NoMemory;
use indexmap::IndexMap;
use sqlite_items::Items;
use std::alloc::Global;

/// The place of a name.
pub fn place_of(places: &IndexMap<Vec<u8>, usize>, name: &[u8]) -> Option<usize>
    ensures { result ≡ get_by (λ k. bytes_eq name.now k.items) places.now }
{
    places.get(name).copied()
}

/// Puts the place of a name that has none yet.
pub fn put(
    alloc: Global,
    places: &mut IndexMap<Vec<u8>, usize>,
    name: &[u8],
    place: usize,
) -> Result<(), NoMemory>
    ensures found { OnOk result ((q : List ℕ)
        → get_by (λ k. bytes_eq q k.items) places.new
        ≡ scopes.or_else (get_by (λ k. bytes_eq q k.items) places.old)
        (if bytes_eq q name.now then Some place else None)) }
    ensures kept { OnErr result (places.new.entries ≡ places.old.entries) }
{
    if place_of(places, name).is_some() {
        return Ok(());
    }
    let key = Vec::from_slice(alloc, name)?;
    places.insert(key, place)?;
    Ok(())
}

/// Takes the last element away.
pub fn take_last<T: Drop>(items: &mut Items<T>)
    ensures { (before : List T) (last : T) → items.old ≡ before ++ last ∷ [] → items.new ≡ before }
{
    items.pop();
}
