//! What a run computes on: its memory, and the places that it has met.

ghost use Rattle.std.specs.Prelude.{List, ◌≡◌, ◌++◌, ◌∷◌, [], length, map, ◌≤◌, pos, ◌≤ℤ◌, nat_abs, slice_get};
ghost use Rattle.std.specs.Prelude.{unwrap_or, IfSome, IfOk, OnOk};
ghost use Rattle.cc_base.specs.Places.{ParentBelow};
ghost use Rattle.cc_laws.specs.LinearForms.{linear};
ghost use Rattle.cc_model.specs.CheckedProgram.{cell_of};
ghost use Rattle.cc_model.specs.Core as core;
ghost use Rattle.cc_model.specs.Plain as plain;
ghost use Rattle.cc_model.specs.Traced as traced;
ghost use Rattle.cc_model.specs.Canonical.{Named};
ghost use Rattle.sym_run.specs.declared.symbols.Symbol.{Symbol as PlainSymbol};
ghost use Rattle.checked_memory.specs.declared.values.Value.{Value as CellValue};
ghost use Rattle.sym_expr.specs.PlacesSeen.{place_of, placed_of};
ghost use Rattle.sym_run.specs.Beside.{IsCell, IsValue, traced_of};
ghost use Rattle.sym_run.specs.Remembers.{Remembers, IsKnown, Every, names_in, zero_of};

use crate::symbols::{Symbol, Symbols};
use cc_model::base::{CellTy, Input, Items, NoMemory, TyId};
use checked_memory::{Cell, Memory, Value};
use std::alloc::Global;
use sym_expr::{Form, Place, PlaceId, Places};

/// A touched block: the place by which it was first accessed, and its type.
#[derive(Clone, Copy)]
pub struct First {
    pub place: PlaceId,
    pub ty: TyId,
}

/// The memory of a run, its touched blocks by rank, the places so far, and how many numbers it took from the stream.
#[derive(Drop)]
pub struct Objects {
    pub(crate) memory: Memory,
    pub(crate) firsts: Items<First>,
    pub(crate) places: Places,
    pub(crate) taken: u32,
}

impl Objects {
    /// No objects, blocks and places.
    pub fn new(alloc: Global) -> Objects
        ensures { result ≡ record { memory = record { made = []; touched = [] }; firsts = []; places = []; taken = 0 } }
    {
        Objects {
            memory: Memory::new(alloc),
            firsts: Items::new(alloc),
            places: Places::new(alloc),
            taken: 0,
        }
    }

    /// The cell to which a pointer points; None where there is none.
    pub fn load(&self, at: Cell) -> Option<Cell>
        ensures { IfSome result (λ cell. (start : plain.Data) (named : List Named) (symbols : List PlainSymbol)
            (d : traced.Data)
            → Remembers start named symbols self.now d → IsCell symbols at
            → (traced_of symbols cell ≡ traced.load (traced_of symbols at) d)
            × IsKnown named (names_in self.now) symbols cell) }
    {
        self.memory.find(at.value)
    }

    /// Puts a cell where a pointer points. No memory, too, where there is no cell.
    pub fn store(&mut self, at: Cell, cell: Cell) -> Result<(), NoMemory>
        ensures stored { OnOk result ((start : plain.Data) (named : List Named) (symbols : List PlainSymbol)
            (d : traced.Data)
            → Remembers start named symbols self.old d → IsCell symbols at
            → IsKnown named (names_in self.old) symbols cell
            → Remembers start named symbols self.new (traced.store (traced_of symbols at) (traced_of symbols cell) d)) }
        ensures names { OnOk result (names_in self.new ≡ names_in self.old) }
    {
        if self.memory.find(at.value).is_none() {
            return Err(NoMemory);
        }
        self.memory.write(at.value, cell);
        Ok(())
    }

    /// The rank of the block at an address, or the number of touched blocks where it isn't touched.
    pub(crate) fn rank(&self, address: i64) -> u8
        ensures rank { Every (λ b. pos 0 ≤ℤ b.address) self.now.memory.touched → pos 0 ≤ℤ address
            → result ≡ plain.rank (nat_abs address) (names_in self.now) }
        ensures few { result ≤ 26 }
    {
        let count = self.memory.touched();
        match self.memory.rank_of(address) {
            Some(rank) => rank,
            None => count,
        }
    }

    /// Makes an object of these cells, with 0 and NULL in them, and answers a pointer to its first cell. No memory,
    /// too, where 2^32 - 1 objects were made.
    pub fn make(&mut self, alloc: Global, cells: &[CellTy]) -> Result<Cell, NoMemory>
        ensures made { IfOk result (λ cell. (start : plain.Data) (named : List Named) (symbols : List PlainSymbol)
            (d : traced.Data) (type : core.Layout)
            → Remembers start named symbols self.old d → type.cells ≡ map cell_of cells.now
            → (traced_of symbols cell ≡ (traced.make linear type d).value)
            × Remembers start named symbols self.new (traced.make linear type d).after
            × IsKnown named (names_in self.new) symbols cell) }
        ensures names { OnOk result (names_in self.new ≡ names_in self.old) }
    {
        if self.memory.made() >= u32::MAX as usize {
            return Err(NoMemory);
        }
        let zeros = zero_cells(alloc, cells)?;
        let number = self.memory.make(zeros.as_slice())?;
        Ok(Cell {
            value: Value::Made(number, 0),
            shadow: 0,
        })
    }

    /// Puts the next number of the stream where a pointer points, or the base value past the stream's end; it has a
    /// place of its own. No memory, too, where there is no cell, or 2^32 - 1 numbers were taken.
    pub fn take(
        &mut self,
        symbols: &mut Symbols,
        input: &Input,
        base: i32,
        at: Cell,
    ) -> Result<(), NoMemory>
        ensures taken { OnOk result ((start : plain.Data) (named : List Named) (d : traced.Data)
            → Remembers start named symbols.old self.old d → IsCell symbols.old at → start.stream ≡ input.now.stream
            → start.base ≡ base
            → Remembers start named symbols.new self.new (traced.take linear (traced_of symbols.old at) d)) }
        ensures symbols { OnOk result ((added : List PlainSymbol) × (symbols.new ≡ symbols.old ++ added)) }
        ensures names { OnOk result (names_in self.new ≡ names_in self.old) }
    {
        if self.taken == u32::MAX {
            return Err(NoMemory);
        }
        let value = number_or(input.stream.as_slice(), self.taken, base);
        let place = add_place(&mut self.places, Place::Stream(self.taken), CellTy::Int)?;
        let shadow = symbols.add(Symbol::Form(Form::of(place)))?;
        self.taken += 1;
        self.store(at, Cell { value, shadow })
    }
}

/// The cell that stands where nothing was stored.
fn zero_cell(ty: CellTy) -> Cell
    ensures { result ≡ zero_of ty }
{
    let value = match ty {
        CellTy::Int => Value::Int(0),
        CellTy::Ptr(_) => Value::Null,
    };
    Cell { value, shadow: 0 }
}

/// Such cells of these types.
fn zero_cells(alloc: Global, types: &[CellTy]) -> Result<Vec<Cell>, NoMemory>
    ensures { IfOk result (λ cells. cells.items ≡ map zero_of types.now) }
{
    Ok(types.iter().map(|ty| zero_cell(*ty)).collect(alloc)?)
}

/// The number at an index of the stream, or the base value past its end.
fn number_or(stream: &[i32], index: u32, base: i32) -> Value
    ensures value { result ≡ CellValue.Int (unwrap_or (slice_get stream.now index) base) }
    ensures word { IsValue result }
{
    match stream.get(index as usize) {
        Some(number) => Value::Int(i64::from(*number)),
        None => Value::Int(i64::from(base)),
    }
}

/// Puts a place last. No memory, too, where there are 2^32 - 1 places.
pub(crate) fn add_place(places: &mut Places, place: Place, ty: CellTy) -> Result<PlaceId, NoMemory>
    requires { ParentBelow (length places.old) (place_of place) }
    ensures id { IfOk result (λ id. id.0 ≡ length places.old) }
    ensures ok { OnOk result (places.new ≡ places.old ++ placed_of place ty ∷ []) }
{
    if places.len() == u32::MAX {
        return Err(NoMemory);
    }
    places.add(place, ty)
}
