//! Places of an input's values.

ghost use Rattle.std.specs.Prelude.{◌≡◌, ◌<◌, ◌-◌, ◌^◌, ℕ, ℤ, pos, ◌+ℤ◌, ◌≤ℤ◌, unwrap_or, [], ◌∷◌, ◌++◌, length};
ghost use Rattle.std.specs.Prelude.{slice_get, IfOk, IfSome, OnOk, OnErr};
ghost use Rattle.std.specs.Option.{option_map};
ghost use Rattle.cc_base.specs.declared.inputs.Input.{Input as PlainInput};
ghost use Rattle.cc_base.specs.Places.{ParentBelow, ParentsFirst, at_place, cell_at, cell_behind, value_there};
ghost use Rattle.sym_expr.specs.PlacesSeen.{place_of, placed_of, entry_of};

use cc_base::{CellTy, Input, NoMemory};
use std::alloc::Global;
use std::marker::Model;

/// The number of a place in its list, from 0.
#[derive(Clone, Copy, Default)]
pub struct PlaceId(pub u32);

/// Where a value of an input stands.
#[derive(Clone, Copy)]
pub enum Place {
    /// A parameter cell, from 0.
    Arg(u32),
    /// A cell, from 0, of the block that a place points to.
    Field(PlaceId, u32),
    /// A number of the stream, from 0.
    Stream(u32),
}

/// The places of a run. A block's place has a smaller number than the places of its cells.
#[derive(Drop)]
pub struct Places {
    entries: Vec<(Place, CellTy)>,
}

impl Model for Places {
    ghost use Rattle.std.specs.Prelude.{List, ◌<◌, ◌^◌, length};
    ghost use Rattle.cc_base.specs.Places.{Placed, ParentsFirst};

    ghost Value = { List Placed };

    ghost use Rattle.sym_expr.specs.PlacesSeen.{entries_of};

    ghost view = { λ p. entries_of p.entries.items };

    ghost invariant = { λ p. ParentsFirst (entries_of p.entries.items) × (length p.entries.items < 2 ^ 32) };
}

impl Places {
    /// No places.
    pub fn new(alloc: Global) -> Places
        ensures { result ≡ [] }
    {
        Places {
            entries: Vec::new(alloc),
        }
    }

    /// Puts a place last, and answers its number. After want of memory all is as before.
    pub fn add(&mut self, place: Place, ty: CellTy) -> Result<PlaceId, NoMemory>
        requires parent { ParentBelow (length self.old) (place_of place) }
        requires room { length self.old < 2 ^ 32 - 1 }
        ensures id { IfOk result (λ id. id.0 ≡ length self.old) }
        ensures ok { OnOk result (self.new ≡ self.old ++ placed_of place ty ∷ []) }
        ensures err { OnErr result (self.new ≡ self.old) }
        ensures values { OnOk result ((i : PlainInput) (b : ℤ) (id : ℕ) → id < length self.old
            → at_place self.new i b id ≡ at_place self.old i b id) }
    {
        let id = PlaceId(self.entries.len() as u32);
        self.entries.push((place, ty))?;
        Ok(id)
    }

    /// The number of places.
    pub fn len(&self) -> u32
        ensures value { result ≡ length self.now }
        ensures parents { ParentsFirst self.now }
    {
        self.entries.len() as u32
    }

    /// A place, with what stands there: None where the list has no place of this number.
    pub fn get(&self, id: PlaceId) -> Option<(Place, CellTy)>
        ensures value { option_map entry_of result ≡ slice_get self.now id.0 }
        ensures parent { IfSome result (λ e. ParentBelow id.0 (place_of e.0)) }
        ensures parents { ParentsFirst self.now }
    {
        entry_at(self.entries.as_slice(), id.0 as usize)
    }

    /// The value at a place, by following pointers in the input; `base` stands past the stream's end.
    ///
    /// None where a pointer on the way is 0 or leads to no cell of the list, and where no place has this number.
    pub fn at(&self, id: PlaceId, input: &Input, base: i32) -> Option<i64>
        ensures { result ≡ at_place self.now input.now base id.0 }
    {
        let (place, _) = self.get(id)?;
        match place {
            Place::Arg(cell) => number_at(input.cells.as_slice(), cell as usize),
            Place::Field(parent, cell) => cell_from(
                input.cells.as_slice(),
                self.at(parent, input, base)?,
                cell,
            ),
            Place::Stream(number) => Some(number_or(input.stream.as_slice(), number, base)),
        }
    }
}

/// The entry at an index.
fn entry_at(entries: &[(Place, CellTy)], index: usize) -> Option<(Place, CellTy)>
    ensures { result ≡ slice_get entries.now index }
{
    entries.get(index).copied()
}

/// The number at an index.
fn number_at(numbers: &[i64], index: usize) -> Option<i64>
    ensures { result ≡ slice_get numbers.now index }
{
    numbers.get(index).copied()
}

/// The index of the cell at an address.
fn index_of(address: i128) -> usize
    requires low { pos 1 ≤ℤ address }
    requires high { address ≤ℤ pos (2 ^ 63) }
    ensures { address ≡ pos result +ℤ pos 1 }
{
    (address - 1) as usize
}

/// The cell at an address, from 1.
fn cell_of(cells: &[i64], address: i128) -> Option<i64>
    ensures { result ≡ cell_at cells.now address }
{
    if address < 1 {
        return None;
    }
    if address > cells.len() as i128 {
        return None;
    }
    number_at(cells, index_of(address))
}

/// The cell `cell` cells behind the one at `address`.
fn cell_from(cells: &[i64], address: i64, cell: u32) -> Option<i64>
    ensures { result ≡ cell_behind cells.now address cell }
{
    if address == 0 {
        return None;
    }
    cell_of(cells, i128::from(address) + i128::from(cell))
}

/// The number of the stream, or the base value past its end.
fn number_or(stream: &[i32], number: u32, base: i32) -> i64
    ensures { result ≡ unwrap_or (slice_get stream.now number) base }
{
    match stream.get(number as usize) {
        Some(value) => i64::from(*value),
        None => i64::from(base),
    }
}
