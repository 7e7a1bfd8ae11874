//! Accesses through pointers.

ghost use Rattle.std.specs.Prelude.{List, ℕ, ℤ, pos, ◌≤ℤ◌, nat_abs, ◌≡◌, ◌++◌, ◌∷◌, [], ◌<◌, ◌≤◌, ◌-◌, ◌^◌, suc, map};
ghost use Rattle.std.specs.Prelude.{length, drop, Some, slice_get, unwrap_or, IfSome, IfOk, OnOk};
ghost use Rattle.cc_base.specs.Paths.{In};
ghost use Rattle.cc_base.specs.declared.cells.CellTy.{CellTy};
ghost use Rattle.checked_memory.specs.Contents.{IsTouched};
ghost use Rattle.sym_run.specs.Blocks.{values_from};
ghost use Rattle.cc_model.specs.Core as core;
ghost use Rattle.cc_model.specs.Plain as plain;
ghost use Rattle.cc_model.specs.Traced as traced;
ghost use Rattle.cc_base.specs.declared.outcomes.Outcome.{Outcome};
ghost use Rattle.cc_model.specs.Canonical.{Named};
ghost use Rattle.sym_run.specs.Beside.{IsSymbol, value_of, traced_of};
ghost use Rattle.cc_base.specs.Places.{ParentBelow};
ghost use Rattle.cc_model.specs.CheckedProgram.{cell_of};
ghost use Rattle.sym_expr.specs.PlacesSeen.{place_of, placed_of};
ghost use Rattle.sym_run.specs.Accesses.{held, symbol_at, symbols_from, cells_from, MayHold, with_touched};
ghost use Rattle.sym_run.specs.Follows.{HasBlocks, accessed, Reaches, Follows};
ghost use Rattle.sym_run.specs.Numbers.{Grows};
ghost use Rattle.sym_run.specs.Pointers.{place_in};
ghost use Rattle.sym_run.specs.Remembers.{cell_shadow, names_in, IsKnown, Remembers};

use crate::acted::Acted;
use crate::objects::{First, Objects, add_place};
use crate::pointer_events::{access_asked, place_beside};
use crate::symbols::{Symbol, Symbols};
use cc_model::Layout;
use cc_model::base::{CellTy, Input, NoMemory, Outcome, TyId};
use checked_memory::{Cell, Value};
use std::alloc::Global;
use sym_expr::{Form, Place, PlaceId, Places};

/// The entry with a rank.
fn first_at(firsts: &[First], rank: u8) -> Option<First>
    ensures { result ≡ slice_get firsts.now rank }
{
    firsts.get(rank as usize).copied()
}

/// The number at an index.
pub(crate) fn number_at(numbers: &[i64], index: usize) -> Option<i64>
    ensures { result ≡ slice_get numbers.now index }
{
    numbers.get(index).copied()
}

/// The numbers of the input's cells from an address on; None where it has no cell there.
fn numbers_from(numbers: &[i64], address: i64) -> Option<&[i64]>
    ensures { IfSome result (λ rest. rest.now ≡ drop (nat_abs address - 1) numbers.now) }
{
    if address < 1 {
        return None;
    }
    let before = (address - 1) as usize;
    if before >= numbers.len() {
        return None;
    }
    Some(&numbers[before..])
}

/// The cells of a type.
pub(crate) fn layout_at(layouts: &[Layout], ty: TyId) -> &[CellTy]
    ensures { result.now ≡ unwrap_or (slice_get layouts.now ty.0) [] }
{
    match layouts.get(ty.0 as usize) {
        Some(layout) => layout.as_slice(),
        None => &[],
    }
}

/// What an input's cell of a type holds.
fn held(ty: CellTy, number: i64) -> Value
    ensures { result ≡ held ty number }
{
    match ty {
        CellTy::Int => Value::Int(number),
        CellTy::Ptr(_) => {
            if number < 1 {
                return Value::Null;
            }
            Value::Block(number, 0)
        }
    }
}

/// What stands beside the value of a place.
fn symbol_of(place: PlaceId, ty: CellTy) -> Symbol
    ensures symbol { result ≡ symbol_at place.0 ty }
    ensures right { IsSymbol result }
{
    match ty {
        CellTy::Int => Symbol::Form(Form::of(place)),
        CellTy::Ptr(target) => Symbol::Place(place, target),
    }
}

/// Adds the place of a block's cell and its symbol, and answers the cell.
pub(crate) fn new_cell(
    symbols: &mut Symbols,
    places: &mut Places,
    place: Place,
    ty: CellTy,
    number: i64,
) -> Result<Cell, NoMemory>
    requires { ParentBelow (length places.old) (place_of place) }
    ensures cell { IfOk result (λ cell. cell ≡ record { value = held ty number; shadow = suc (length symbols.old) }) }
    ensures places { OnOk result (places.new ≡ places.old ++ placed_of place ty ∷ []) }
    ensures symbols { OnOk result (symbols.new ≡ symbols.old ++ symbol_at (length places.old) ty ∷ []) }
{
    let id = add_place(places, place, ty)?;
    let shadow = symbols.add(symbol_of(id, ty))?;
    Ok(Cell {
        value: held(ty, number),
        shadow,
    })
}

/// The cells of a block, from the input's numbers, with their places and symbols. No memory, too, where there are fewer
/// numbers than cells.
pub(crate) fn new_cells(
    alloc: Global,
    symbols: &mut Symbols,
    places: &mut Places,
    first: PlaceId,
    layout: &[CellTy],
    numbers: &[i64],
) -> Result<Vec<Cell>, NoMemory>
    requires parent { first.0 < length places.old }
    requires short { length layout.now < 2 ^ 32 }
    ensures cells { IfOk result (λ cells. cells.items ≡ cells_from (suc (length symbols.old)) layout.now numbers.now) }
    ensures places { OnOk result (places.new ≡ places.old ++ traced.field_places first.0 0 (map cell_of layout.now)) }
    ensures symbols { OnOk result (symbols.new ≡ symbols.old ++ symbols_from (length places.old) layout.now) }
    ensures enough { OnOk result (length layout.now ≤ length numbers.now) }
{
    let mut cells = Vec::new(alloc);
    for (offset, ty) in layout.iter().enumerate() {
        match number_at(numbers, offset) {
            None => return Err(NoMemory),
            Some(number) => {
                let place = Place::Field(first, offset as u32);
                cells.push(new_cell(symbols, places, place, *ty, number)?)?;
            }
        }
    }
    Ok(cells)
}

impl Objects {
    /// Takes in the block at an address, by the pointer with a place that reaches it: `numbers` are the input's cells
    /// from that address on. No memory, too, where 26 blocks are touched, the place isn't there, or there are fewer
    /// numbers than cells.
    fn touch(
        &mut self,
        alloc: Global,
        symbols: &mut Symbols,
        layout: &[CellTy],
        numbers: &[i64],
        address: i64,
        pointer: First,
    ) -> Result<(), NoMemory>
        requires { ¬ IsTouched address self.old.memory.touched }
        ensures touched { OnOk result ((start : plain.Data) (named : List Named) (d : traced.Data)
            (layouts : ℕ → List core.Cell)
            → Remembers start named symbols.old self.old d → layouts pointer.ty.0 ≡ map cell_of layout.now
            → pos 0 ≤ℤ address
            → start.blocks (nat_abs address) ≡ values_from (map cell_of layout.now) numbers.now
            → ((i : ℕ) (c : CellTy) (z : ℤ) → slice_get layout.now i ≡ Some c → slice_get numbers.now i ≡ Some z
            → MayHold named c z)
            → Remembers start named symbols.new self.new (with_touched layouts (nat_abs address) pointer d)) }
        ensures symbols { OnOk result (Grows symbols.old symbols.new) }
        ensures names { OnOk result (names_in self.new ≡ names_in self.old ++ nat_abs address ∷ []) }
    {
        if self.memory.touched() >= 26 {
            return Err(NoMemory);
        }
        if pointer.place.0 >= self.places.len() {
            return Err(NoMemory);
        }
        if layout.len() > u32::MAX as usize {
            return Err(NoMemory);
        }
        let cells = new_cells(
            alloc,
            symbols,
            &mut self.places,
            pointer.place,
            layout,
            numbers,
        )?;
        self.firsts.push(pointer)?;
        self.memory.touch(address, cells.as_slice())?;
        Ok(())
    }

    /// A pointer with a place, to the touched block with a rank: it has the block's first place and its type.
    fn reached_by(
        &self,
        symbols: &mut Symbols,
        rank: u8,
        pointer: Cell,
        beside: First,
    ) -> Result<Cell, NoMemory>
        requires { Some beside ≡ place_in (cell_shadow symbols.old pointer) }
        ensures value { IfOk result (λ cell. (start : plain.Data) (named : List Named) (d : traced.Data)
            → Remembers start named symbols.old self.now d
            → traced_of symbols.new cell ≡ record {
              plain = value_of pointer.value;
              shadow = traced.reached_shadow
                  (Outcome.Object rank) (cell_shadow symbols.old pointer) (d.shadows).touched;
            }) }
        ensures symbols { OnOk result (Grows symbols.old symbols.new) }
        ensures kept { IfOk result (λ cell. (cell.value ≡ pointer.value)
            × (pointer.shadow ≤ length symbols.old → cell.shadow ≤ length symbols.new)) }
    {
        match first_at(self.firsts.as_slice(), rank) {
            None => Ok(pointer),
            Some(first) => {
                if first.place.0 == beside.place.0 && first.ty.0 == beside.ty.0 {
                    return Ok(pointer);
                }
                let shadow = symbols.add(Symbol::Place(first.place, first.ty))?;
                Ok(Cell {
                    value: pointer.value,
                    shadow,
                })
            }
        }
    }

    /// A pointer to the touched block with a rank: where it has a place, it has the block's first one.
    pub(crate) fn reached(
        &self,
        symbols: &mut Symbols,
        rank: u8,
        pointer: Cell,
    ) -> Result<Cell, NoMemory>
        ensures value { IfOk result (λ cell. (start : plain.Data) (named : List Named) (d : traced.Data)
            → Remembers start named symbols.old self.now d
            → traced_of symbols.new cell ≡ record {
              plain = value_of pointer.value;
              shadow = traced.reached_shadow
                  (Outcome.Object rank) (cell_shadow symbols.old pointer) (d.shadows).touched;
            }) }
        ensures symbols { OnOk result (Grows symbols.old symbols.new) }
        ensures kept { IfOk result (λ cell. (cell.value ≡ pointer.value)
            × (pointer.shadow ≤ length symbols.old → cell.shadow ≤ length symbols.new)) }
    {
        match place_beside(symbols, pointer) {
            Some(beside) => self.reached_by(symbols, rank, pointer, beside),
            None => Ok(pointer),
        }
    }

    /// Takes in the block at an address to which a pointer points. No memory, too, where no place stands beside the
    /// pointer, or where the input has no block there.
    fn touch_new(
        &mut self,
        alloc: Global,
        symbols: &mut Symbols,
        layouts: &[Layout],
        input: &Input,
        at: Cell,
        address: i64,
    ) -> Result<(), NoMemory>
        requires { ¬ IsTouched address self.old.memory.touched }
        ensures touched { OnOk result ((start : plain.Data) (named : List Named) (d : traced.Data)
            (layout_of : ℕ → List core.Cell) (pointer : First)
            → HasBlocks layouts.now input.now layout_of named start → Remembers start named symbols.old self.old d
            → Some pointer ≡ place_in (cell_shadow symbols.old at) → pos 0 ≤ℤ address
            → In (record { address = nat_abs address; type = pointer.ty.0 }) named
            → Remembers start named symbols.new self.new (with_touched layout_of (nat_abs address) pointer d)) }
        ensures symbols { OnOk result (Grows symbols.old symbols.new) }
        ensures names { OnOk result (names_in self.new ≡ names_in self.old ++ nat_abs address ∷ []) }
    {
        let Some(pointer) = place_beside(symbols, at) else {
            return Err(NoMemory);
        };
        let Some(numbers) = numbers_from(input.cells.as_slice(), address) else {
            return Err(NoMemory);
        };
        let layout = layout_at(layouts, pointer.ty);
        self.touch(alloc, symbols, layout, numbers, address, pointer)
    }

    /// An access to the block at an address, which has this rank or is touched with it now: the pointer to it.
    fn entered(
        &mut self,
        alloc: Global,
        symbols: &mut Symbols,
        layouts: &[Layout],
        input: &Input,
        at: Cell,
        address: i64,
        rank: u8,
    ) -> Result<Cell, NoMemory>
        ensures reaches { IfOk result (λ cell. (start : plain.Data) (named : List Named) (d : traced.Data)
            (layout_of : ℕ → List core.Cell) (i : ℕ)
            → HasBlocks layouts.now input.now layout_of named start → Remembers start named symbols.old self.old d
            → at.value ≡ Value.Block address i → IsKnown named (names_in self.old) symbols.old at
            → rank ≡ plain.rank (nat_abs address) (names_in self.old)
            → Reaches start named symbols.new self.new cell (accessed layout_of symbols.old at d)) }
        ensures symbols { OnOk result (Grows symbols.old symbols.new) }
        ensures names { OnOk result ((more : List ℕ) × (names_in self.new ≡ names_in self.old ++ more)) }
    {
        match self.memory.rank_of(address) {
            Some(_) => self.reached(symbols, rank, at),
            None => {
                self.touch_new(alloc, symbols, layouts, input, at, address)?;
                self.reached(symbols, rank, at)
            }
        }
    }

    /// An access through a pointer: its outcome, what it asks, and the pointer to the object that it reaches. No
    /// memory, too, where a block more than 26 would be touched.
    pub fn access(
        &mut self,
        alloc: Global,
        symbols: &mut Symbols,
        layouts: &[Layout],
        input: &Input,
        at: Cell,
    ) -> Result<Acted, NoMemory>
        ensures follows { IfOk result (λ r. (start : plain.Data) (named : List Named) (d : traced.Data)
            (layout_of : ℕ → List core.Cell)
            → HasBlocks layouts.now input.now layout_of named start → Remembers start named symbols.old self.old d
            → IsKnown named (names_in self.old) symbols.old at
            → Follows start named symbols.new self.new r (accessed layout_of symbols.old at d)) }
        ensures symbols { OnOk result (Grows symbols.old symbols.new) }
        ensures names { OnOk result ((more : List ℕ) × (names_in self.new ≡ names_in self.old ++ more)) }
    {
        if self.firsts.len() > 26 {
            return Err(NoMemory);
        }
        let asked = access_asked(alloc, symbols, self.firsts.as_slice(), at)?;
        match at.value {
            Value::Block(address, _) => {
                let rank = self.rank(address);
                let cell = self.entered(alloc, symbols, layouts, input, at, address, rank)?;
                Ok(Acted {
                    outcome: Outcome::Object(rank),
                    asked,
                    cell,
                })
            }
            Value::Made(_, _) => Ok(Acted {
                outcome: Outcome::Plain,
                asked,
                cell: at,
            }),
            Value::Null => Ok(Acted {
                outcome: Outcome::Zero,
                asked,
                cell: at,
            }),
            Value::Int(_) => Ok(Acted {
                outcome: Outcome::Zero,
                asked,
                cell: at,
            }),
        }
    }
}
