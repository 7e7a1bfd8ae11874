//! The memory of a run: the objects that it made and the input blocks that it touched, as cells.
#![tactic(auto)]

mod places;
mod values;

ghost use Rattle.std.specs.Prelude.{◌≡◌, ◌≢◌, ◌<◌, ◌≤◌, ◌^◌, ◌++◌, ◌∷◌, [], length, slice_get, map, Some, IfOk, OnErr};
ghost use Rattle.std.specs.Prelude.{MatchOption, IsSome};
ghost use Rattle.cc_base.specs.Paths.{Pairwise};
ghost use Rattle.checked_memory.specs.declared.values.Value.{Value};
ghost use Rattle.checked_memory.specs.Contents.{IsTouched, address_of, cell_at, with_cell};

use cc_base::NoMemory;
use places::{Block, Link, Object, Place, block_at, cell_in, place_in, place_of};
use std::alloc::Global;
use std::marker::Model;
pub use values::{Cell, Value};

/// The memory of a run: the cells of each object that the program made, by its number, and of each input block that
/// the run touched, by its address.
#[derive(Drop)]
pub struct Memory {
    alloc: Global,
    objects: Vec<Object>,
    latest: Link,
    touched: u8,
}

impl Model for Memory {
    ghost use Rattle.checked_memory.specs.Contents.{Contents};

    ghost Value = { Contents };

    ghost use Rattle.checked_memory.specs.Inside.{contents_of, IsMemory};

    ghost view = { contents_of };

    ghost invariant = { IsMemory };
}

impl Memory {
    /// A memory with no object and no block.
    pub fn new(alloc: Global) -> Memory
        ensures { result ≡ record { made = []; touched = [] } }
    {
        Memory {
            alloc,
            objects: Vec::new(alloc),
            latest: None,
            touched: 0,
        }
    }

    /// Makes an object with these cells, and answers its number: 0 for the first, and so on. Fewer than 2^32 may have
    /// been made. Where memory is wanting, all stays as it was.
    pub fn make(&mut self, cells: &[Cell]) -> Result<u32, NoMemory>
        requires { length self.old.made < 2 ^ 32 }
        ensures number { IfOk result (λ n. n ≡ length self.old.made) }
        ensures made { IfOk result (λ _. self.new ≡ record self.old { made = self.old.made ++ cells.now ∷ [] }) }
        ensures err { OnErr result (self.new ≡ self.old) }
    {
        let number = self.objects.len() - self.touched as usize;
        let cells = Vec::from_slice(self.alloc, cells)?;
        self.objects.push(Object { cells, block: None })?;
        Ok(number as u32)
    }

    /// Takes in the input block at an address, which isn't touched yet, with these cells, and answers its rank: 0 for
    /// the first, and so on. Fewer than 26 may have been touched. Where memory is wanting, all stays as it was.
    pub fn touch(&mut self, address: i64, cells: &[Cell]) -> Result<u8, NoMemory>
        requires fresh { ¬ IsTouched address self.old.touched }
        requires few { length self.old.touched < 26 }
        ensures rank { IfOk result (λ r. r ≡ length self.old.touched) }
        ensures touched { IfOk result (λ _. self.new
            ≡ record self.old { touched = self.old.touched ++ record { address = address; cells = cells.now } ∷ [] }) }
        ensures err { OnErr result (self.new ≡ self.old) }
    {
        let rank = self.touched;
        let index = self.objects.len();
        let cells = Vec::from_slice(self.alloc, cells)?;
        let block = Block {
            address,
            before: self.latest,
        };
        self.objects.push(Object {
            cells,
            block: Some(block),
        })?;
        self.latest = Some(index);
        self.touched += 1;
        Ok(rank)
    }

    /// The rank of the block at an address; None exactly where it isn't touched.
    pub fn rank_of(&self, address: i64) -> Option<u8>
        ensures { MatchOption result (¬ IsTouched address self.now.touched)
            (λ r. slice_get (map address_of self.now.touched) r ≡ Some address) }
    {
        let found = block_at(&self.objects, self.latest, self.touched, address)?;
        Some(found.rank)
    }

    /// How many blocks are touched.
    pub fn touched(&self) -> u8
        ensures count { result ≡ length self.now.touched }
        ensures few { result ≤ 26 }
        ensures apart { Pairwise (λ a b. a ≢ b) (map address_of self.now.touched) }
    {
        self.touched
    }

    /// How many objects were made.
    pub fn made(&self) -> usize
        ensures { result ≡ length self.now.made }
    {
        self.objects.len() - self.touched as usize
    }

    /// The cell at a place; None exactly where neither a made object nor a touched block has a cell there.
    pub fn find(&self, at: Value) -> Option<Cell>
        ensures { result ≡ cell_at at self.now }
    {
        let place = place_in(&self.objects, self.latest, self.touched, at)?;
        cell_in(self.objects[place.object].cells.as_slice(), place.cell)
    }

    /// The cell at a place, which has to be a cell of a made object or of a touched block.
    pub fn read(&self, at: Value) -> Cell
        requires { IsSome (cell_at at self.now) }
        ensures { cell_at at self.now ≡ Some result }
    {
        let place = place_of(&self.objects, self.latest, self.touched, at);
        self.objects[place.object].cells[place.cell]
    }

    /// Puts a cell at a place, which has to be a cell of a made object or of a touched block. All other cells stay.
    pub fn write(&mut self, at: Value, cell: Cell)
        requires { IsSome (cell_at at self.old) }
        ensures whole { self.new ≡ with_cell at cell self.old }
        ensures here { cell_at at self.new ≡ Some cell }
        ensures others { (other : Value) → other ≢ at → cell_at other self.new ≡ cell_at other self.old }
        ensures addresses { map address_of self.new.touched ≡ map address_of self.old.touched }
    {
        let place = place_of(&self.objects, self.latest, self.touched, at);
        let object = &mut self.objects[place.object];
        object.cells[place.cell] = cell;
    }
}
