//! The blocks of which a cell is among the first places of a run.

ghost use Rattle.std.specs.Prelude.{◌≡◌, ◌++◌, ◌∷◌, [], slice_get, IsTrue, IfOk, OnOk};
ghost use Rattle.std.specs.Option.{option_and_then};
ghost use Rattle.cc_base.specs.Paths.{In};
ghost use Rattle.flip_solve.specs.Choosing.{block_of, AreBlocks, HasAlso};

use cc_model::base::{Items, NoMemory};
use std::alloc::Global;
use sym_expr::{Place, PlaceId, Places};

/// The place of the block of which a place is a cell.
fn block_at(places: &Places, id: PlaceId) -> Option<PlaceId>
    ensures { result ≡ option_and_then (λ e. block_of e.place) (slice_get places.now id.0) }
{
    let (place, _) = places.get(id)?;
    match place {
        Place::Field(block, _) => Some(block),
        Place::Arg(_) => None,
        Place::Stream(_) => None,
    }
}

/// Whether the block is the last one.
fn is_last(blocks: &[PlaceId], block: PlaceId) -> bool
    ensures { IsTrue result → In block blocks.now }
{
    match blocks.last() {
        Some(last) => last.0 == block.0,
        None => false,
    }
}

/// Puts a block last, unless it is the last one already.
fn put(blocks: &mut Items<PlaceId>, block: PlaceId) -> Result<(), NoMemory>
    ensures { OnOk result (HasAlso block blocks.old blocks.new) }
{
    if !is_last(blocks.as_slice(), block) {
        blocks.push(block)?;
    }
    Ok(())
}

/// The places of the blocks of which a cell is among the first places.
pub(crate) fn blocks(alloc: Global, places: &Places, count: u32) -> Result<Items<PlaceId>, NoMemory>
    ensures { IfOk result (AreBlocks places.now count) }
{
    let mut blocks = Items::new(alloc);
    for id in 0..count {
        match block_at(places, PlaceId(id)) {
            Some(block) => put(&mut blocks, block)?,
            None => {}
        }
    }
    Ok(blocks)
}
