//! Where the cells of objects and blocks stand.

ghost use Rattle.std.specs.Prelude.{◌≡◌, ◌<◌, None, length, slice_get, MatchOption, IsSome};
ghost use Rattle.checked_memory.specs.Contents.{IsTouched, cell_at};
ghost use Rattle.checked_memory.specs.Entries.{entries, touched_of, made_of, contents, IsLinked, IsBlock, IsMade};
ghost use Rattle.checked_memory.specs.Entries.{IsPlace};

use crate::values::{Cell, Value};

/// The index of an object, where there is one.
pub(crate) type Link = Option<usize>;

/// A touched block.
#[derive(Clone, Copy)]
pub(crate) struct Block {
    pub(crate) address: i64,
    /// The block that was touched before it.
    pub(crate) before: Link,
}

/// The cells of an object that the program made, or of a touched block.
#[derive(Drop)]
pub(crate) struct Object {
    pub(crate) cells: Vec<Cell>,
    pub(crate) block: Option<Block>,
}

/// A touched block: its index among the objects, and its rank.
#[derive(Clone, Copy)]
pub(crate) struct Ranked {
    pub(crate) object: usize,
    pub(crate) rank: u8,
}

/// A cell: the index of its object, and its index there.
#[derive(Clone, Copy)]
pub(crate) struct Place {
    pub(crate) object: usize,
    pub(crate) cell: usize,
}

// The touched block at an address.
pub(crate) fn block_at(
    objects: &[Object],
    latest: Link,
    touched: u8,
    address: i64,
) -> Option<Ranked>
    requires linked { IsLinked (entries objects.now) latest }
    requires counted { touched ≡ length (touched_of (entries objects.now)) }
    ensures { MatchOption result (¬ IsTouched address (touched_of (entries objects.now)))
        (λ b. IsBlock (entries objects.now) address b.object b.rank) }
{
    let mut at = latest;
    let mut rank = touched;
    while let Some(index) = at {
        let block = objects[index].block?;
        rank -= 1;
        if block.address == address {
            return Some(Ranked {
                object: index,
                rank,
            });
        }
        at = block.before;
    }
    None
}

// The index of the made object with a number.
fn made_at(objects: &[Object], latest: Link, touched: u8, number: u32) -> usize
    requires linked { IsLinked (entries objects.now) latest }
    requires counted { touched ≡ length (touched_of (entries objects.now)) }
    requires there { number < length (made_of (entries objects.now)) }
    ensures { IsMade (entries objects.now) number result }
{
    let mut at = latest;
    let mut index = number as usize + touched as usize;
    while let Some(block) = at {
        if block < index {
            break;
        }
        index -= 1;
        at = objects[block].block.unwrap().before;
    }
    index
}

// The place of a cell.
pub(crate) fn place_of(objects: &[Object], latest: Link, touched: u8, at: Value) -> Place
    requires linked { IsLinked (entries objects.now) latest }
    requires counted { touched ≡ length (touched_of (entries objects.now)) }
    requires there { IsSome (cell_at at (contents (entries objects.now))) }
    ensures { IsPlace at (entries objects.now) result.object result.cell }
{
    match at {
        Value::Made(number, offset) => Place {
            object: made_at(objects, latest, touched, number),
            cell: offset as usize,
        },
        Value::Block(address, offset) => Place {
            object: block_at(objects, latest, touched, address).unwrap().object,
            cell: offset as usize,
        },
        Value::Int(_) | Value::Null => unreachable!(),
    }
}

// The place of a cell, where the object with this number or the block at this address is there.
pub(crate) fn place_in(objects: &[Object], latest: Link, touched: u8, at: Value) -> Option<Place>
    requires linked { IsLinked (entries objects.now) latest }
    requires counted { touched ≡ length (touched_of (entries objects.now)) }
    ensures { MatchOption result (cell_at at (contents (entries objects.now)) ≡ None)
        (λ p. IsPlace at (entries objects.now) p.object p.cell) }
{
    match at {
        Value::Made(number, offset) => {
            if number as usize + touched as usize >= objects.len() {
                return None;
            }
            Some(Place {
                object: made_at(objects, latest, touched, number),
                cell: offset as usize,
            })
        }
        Value::Block(address, offset) => {
            match block_at(objects, latest, touched, address) {
                Some(found) => Some(Place {
                    object: found.object,
                    cell: offset as usize,
                }),
                None => None,
            }
        }
        Value::Int(_) => None,
        Value::Null => None,
    }
}

// The cell at an index.
pub(crate) fn cell_in(cells: &[Cell], index: usize) -> Option<Cell>
    ensures { result ≡ slice_get cells.now index }
{
    cells.get(index).copied()
}
