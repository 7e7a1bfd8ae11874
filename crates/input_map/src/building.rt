//! Inputs from numbers and classes of their places.

ghost use Rattle.std.specs.Option.{option_map};
ghost use Rattle.cc_model.specs.Core.{ptr_cell};
ghost use Rattle.std.specs.Prelude.{ℕ, pos, ◌≡◌, ◌+◌, ◌<◌, ◌≤◌, ◌^◌, ◌∷◌, ◌++◌, [], suc, List, None, IfOk, OnOk};
ghost use Rattle.std.specs.Prelude.{length, map, take, max, slice_get};
ghost use Rattle.std.specs.Ordering.{nat_cmp};
ghost use Rattle.std.specs.BTreeMap.{get};
ghost use Rattle.cc_base.specs.Limits.{Limits, base_of};
ghost use Rattle.cc_base.specs.Places.{ParentsFirst};
ghost use Rattle.cc_model.specs.CheckedProgram.{cell_of, cells_at, core_of};
ghost use Rattle.cc_model.specs.Graphs.{PointsToCells};
ghost use Rattle.cc_model.specs.Runs.{params_of};
ghost use Rattle.sym_expr.specs.PlacesSeen.{place_of};
ghost use Rattle.input_map.specs.Builds.{class_of, number_of, needs, stream_length, IsAssignment, IsBuilt};
ghost use Rattle.input_map.specs.Laying.{Spot, plan_by, spots, key, found_in, owner_in, Puts, block_number};
ghost use Rattle.input_map.specs.Laying.{cell_number, at_block, block_of, spot_of, spots_of, IsIndex, IsOwner};
ghost use Rattle.input_map.specs.Laying.{IsStream, number_there, needs_of, Changes, Passed, Stands, Finished};

use crate::params::{layout, param_cells};
use cc_model::Checked;
use cc_model::base::{Bounds, CellTy, Input, NoMemory, TyId};
use sqlite_items::Items;
use std::alloc::Global;
use std::collections::BTreeMap;
use sym_expr::{Place, PlaceId, Places};

/// A number for each integer place, and a class for each pointer place, of the first places of a list.
///
/// `ints` and `classes` have one entry for each of these places.
#[derive(Drop)]
pub struct Assignment {
    /// The number of an integer place; None where it may be any.
    pub ints: Items<Option<i32>>,
    /// The class of a pointer place: pointers of one class are equal. Class 0 is NULL.
    pub classes: Items<u32>,
    /// The pointer places of which the block's cells may be places.
    pub touched: Items<PlaceId>,
}

/// A cell of the input: its type, and the place that stands there, where there is one.
#[derive(Clone, Copy)]
struct Due {
    ty: CellTy,
    place: Option<u32>,
}

/// How far the cells are laid.
#[derive(Drop)]
struct Laying {
    /// The cells of the parameters and of the blocks that have been named.
    due: Items<Due>,
    /// The values of the first of them.
    cells: Items<i64>,
    /// The pointer to a class's block.
    blocks: BTreeMap<u32, i64>,
}

/// Where places are found.
#[derive(Drop)]
struct Index {
    /// The places, by the keys of their cells.
    found: BTreeMap<u128, u32>,
    /// The touched places, by their classes.
    owners: BTreeMap<u32, u32>,
}

/// No input of this many cells is built.
const MOST: usize = 1_000_000_000_000_000_000;

/// The class of a place.
fn class_at(values: &Assignment, id: u32) -> u32
    ensures { result ≡ class_of values.now id }
{
    match values.classes.get(id as usize) {
        Some(class) => *class,
        None => 0,
    }
}

/// The number of a place, or the base value.
fn number_at(values: &Assignment, bounds: &Bounds, id: u32) -> i32
    ensures { result ≡ number_of values.now (base_of bounds.now) id }
{
    match values.ints.get(id as usize) {
        Some(Some(number)) => *number,
        Some(None) => bounds.base(),
        None => bounds.base(),
    }
}

/// The number of a cell where this place stands, or none.
fn number_in(values: &Assignment, bounds: &Bounds, place: Option<u32>) -> i32
    ensures { result ≡ number_there (number_of values.now (base_of bounds.now)) (base_of bounds.now) place }
{
    match place {
        None => bounds.base(),
        Some(id) => number_at(values, bounds, id),
    }
}

/// The key of a cell of a block.
fn key(block: u64, cell: u64) -> u128
    ensures { result ≡ key block cell }
{
    u128::from(block) * 18_446_744_073_709_551_616 + u128::from(cell)
}

/// The key of the cell where a place stands.
fn key_of(place: Place) -> u128
    ensures value { result ≡ key (block_number (place_of place)) (cell_number (place_of place)) }
    ensures small { cell_number (place_of place) < 4294967296 }
{
    match place {
        Place::Arg(cell) => key(0, u64::from(cell)),
        Place::Stream(number) => key(1, u64::from(number)),
        Place::Field(parent, cell) => key(u64::from(parent.0) + 2, u64::from(cell)),
    }
}

/// Puts a place at a key.
fn put_place(found: &mut BTreeMap<u128, u32>, key: u128, id: u32) -> Result<(), NoMemory>
    ensures { OnOk result (Puts found.old key id found.new) }
{
    found.insert(key, id)?;
    Ok(())
}

/// Puts a place at a class.
fn put_owner(owners: &mut BTreeMap<u32, u32>, class: u32, id: u32) -> Result<(), NoMemory>
    ensures { OnOk result (Puts owners.old class id owners.new) }
{
    owners.insert(class, id)?;
    Ok(())
}

/// Puts an address at a class.
fn put_block(blocks: &mut BTreeMap<u32, i64>, class: u32, address: u64) -> Result<(), NoMemory>
    requires { address ≤ 10 ^ 18 }
    ensures { OnOk result (Puts blocks.old class (pos address) blocks.new) }
{
    blocks.insert(class, address as i64)?;
    Ok(())
}

/// The place at a key.
fn at_key(found: &BTreeMap<u128, u32>, key: u128) -> Option<u32>
    ensures { result ≡ get nat_cmp found.now key }
{
    found.get(&key).copied()
}

/// The place of a cell of a block: block 0 is that of the parameters, 1 the stream, and the block of a place has its
/// number plus 2.
fn find(found: &BTreeMap<u128, u32>, block: u64, cell: u64) -> Option<u32>
    ensures { result ≡ found_in found.now block cell }
{
    at_key(found, key(block, cell))
}

/// The touched place of a class.
fn owner(owners: &BTreeMap<u32, u32>, class: u32) -> Option<u32>
    ensures { result ≡ owner_in owners.now class }
{
    owners.get(&class).copied()
}

/// The pointer to a class's block.
fn pointer_to(blocks: &BTreeMap<u32, i64>, class: u32) -> Option<i64>
    ensures { result ≡ get nat_cmp blocks.now class }
{
    blocks.get(&class).copied()
}

/// No places.
fn no_places(alloc: Global) -> BTreeMap<u128, u32>
    ensures { (q : ℕ) → get nat_cmp result q ≡ None }
{
    BTreeMap::new(alloc)
}

/// No owners.
fn no_owners(alloc: Global) -> BTreeMap<u32, u32>
    ensures { (q : ℕ) → get nat_cmp result q ≡ None }
{
    BTreeMap::new(alloc)
}

/// No blocks.
fn no_blocks(alloc: Global) -> BTreeMap<u32, i64>
    ensures { (q : ℕ) → get nat_cmp result q ≡ None }
{
    BTreeMap::new(alloc)
}

/// The place with a number.
fn place_at(places: &Places, id: u32) -> Option<Place>
    ensures { option_map place_of result ≡ option_map (λ e. e.place) (slice_get places.now id) }
{
    match places.get(PlaceId(id)) {
        None => None,
        Some((place, _)) => Some(place),
    }
}

/// Puts a place of the list at the key of its cell.
fn index_place(found: &mut BTreeMap<u128, u32>, places: &Places, id: u32) -> Result<(), NoMemory>
    ensures { IsIndex places.now id (found_in found.old)
        → OnOk result (IsIndex places.now (suc id) (found_in found.new)) }
{
    let Some(place) = place_at(places, id) else {
        return Ok(());
    };
    put_place(found, key_of(place), id)?;
    Ok(())
}

/// The index of the first places of a list.
fn index_places(alloc: Global, places: &Places, count: u32) -> Result<BTreeMap<u128, u32>, NoMemory>
    ensures { IfOk result (λ m. IsIndex places.now count (found_in m)) }
{
    let mut found = no_places(alloc);
    for id in 0..count {
        index_place(&mut found, places, id)?;
    }
    Ok(found)
}

/// Puts a touched place at its class.
fn index_owner(
    owners: &mut BTreeMap<u32, u32>,
    values: &Assignment,
    place: PlaceId,
) -> Result<(), NoMemory>
    ensures { (l : List PlaceId) → IsOwner values.now l (owner_in owners.old)
        → OnOk result (IsOwner values.now (l ++ place ∷ []) (owner_in owners.new)) }
{
    put_owner(owners, class_at(values, place.0), place.0)?;
    Ok(())
}

/// The touched place of each class.
fn index_owners(
    alloc: Global,
    values: &Assignment,
    touched: &[PlaceId],
) -> Result<BTreeMap<u32, u32>, NoMemory>
    ensures { IfOk result (λ m. IsOwner values.now touched.now (owner_in m)) }
{
    let mut owners = no_owners(alloc);
    for place in touched {
        index_owner(&mut owners, values, *place)?;
    }
    Ok(owners)
}

impl Index {
    /// The place of a cell of a block; None stands for a block whose cells are no places.
    fn place_in(&self, block: Option<u64>, cell: u64) -> Option<u32>
        ensures { result ≡ at_block (found_in (self.now).found) block cell }
    {
        match block {
            None => None,
            Some(block) => find(&self.found, block, cell),
        }
    }

    /// The number of a class's block, where its cells may be places.
    fn block(&self, class: u32) -> Option<u64>
        ensures { result ≡ block_of (owner_in (self.now).owners class) }
    {
        match owner(&self.owners, class) {
            None => None,
            Some(place) => Some(u64::from(place) + 2),
        }
    }
}

/// Puts a cell of a block last.
fn push_cell(
    due: &mut Items<Due>,
    index: &Index,
    block: Option<u64>,
    cell: u64,
    ty: CellTy,
) -> Result<(), NoMemory>
    ensures { OnOk result (spots_of due.new
        ≡ spots_of due.old ++ record { cell = cell_of ty; place = at_block (found_in (index.now).found) block cell }
        ∷ []) }
{
    let place = index.place_in(block, cell);
    due.push(Due { ty, place })?;
    Ok(())
}

/// Puts the cells of a block last.
fn push_cells(
    due: &mut Items<Due>,
    index: &Index,
    block: Option<u64>,
    types: &[CellTy],
) -> Result<(), NoMemory>
    ensures { OnOk result (spots_of due.new
        ≡ spots_of due.old ++ spots (at_block (found_in (index.now).found) block) 0 (map cell_of types.now)) }
{
    for (cell, ty) in types.iter().enumerate() {
        push_cell(due, index, block, cell as u64, *ty)?;
    }
    Ok(())
}

impl Laying {
    /// Before the first cell.
    fn new(alloc: Global, index: &Index, params: &[CellTy]) -> Result<Laying, NoMemory>
        ensures due { IfOk result (λ s. spots_of s.due
            ≡ spots (found_in (index.now).found 0) 0 (map cell_of params.now)) }
        ensures cells { IfOk result (λ s. s.cells ≡ []) }
        ensures blocks { IfOk result (λ s. (c : ℕ) → get nat_cmp s.blocks c ≡ None) }
    {
        let mut due = Items::new(alloc);
        push_cells(&mut due, index, Some(0), params)?;
        Ok(Laying {
            due,
            cells: Items::new(alloc),
            blocks: no_blocks(alloc),
        })
    }

    /// Names a block of the class and the type at the next address, which it answers.
    fn name(
        &mut self,
        checked: &Checked,
        index: &Index,
        ty: TyId,
        class: u32,
    ) -> Result<u64, NoMemory>
        ensures address { IfOk result (λ n. n ≡ suc (length (self.old).due)) }
        ensures few { IfOk result (λ n. n ≤ 10 ^ 18) }
        ensures cells { OnOk result ((self.new).cells ≡ (self.old).cells) }
        ensures due { OnOk result (spots_of (self.new).due
            ≡ spots_of (self.old).due ++ spots (at_block (found_in (index.now).found)
            (block_of (owner_in (index.now).owners class))) 0 (cells_at checked.now ty.0)) }
        ensures blocks { OnOk result (Puts (self.old).blocks class (pos (suc (length (self.old).due)))
            (self.new).blocks) }
    {
        if self.due.len() >= MOST {
            return Err(NoMemory);
        }
        let address = self.due.len() as u64 + 1;
        push_cells(
            &mut self.due,
            index,
            index.block(class),
            layout(checked, ty),
        )?;
        put_block(&mut self.blocks, class, address)?;
        Ok(address)
    }

    /// The value of a pointer cell where this place stands, or none; a block of its class is named where there is none.
    fn pointer(
        &mut self,
        checked: &Checked,
        index: &Index,
        values: &Assignment,
        ty: TyId,
        place: Option<u32>,
    ) -> Result<i64, NoMemory>
        ensures { IfOk result (λ z. (b : Limits)
            → Changes (plan_by checked.now values.now b index.now)
            (record { cell = ptr_cell ty.0; place = place }) z self.old self.new) }
    {
        let Some(id) = place else {
            return Ok(0);
        };
        let class = class_at(values, id);
        if class == 0 {
            return Ok(0);
        }
        if let Some(known) = pointer_to(&self.blocks, class) {
            return Ok(known);
        }
        let next = self.name(checked, index, ty, class)?;
        Ok(next as i64)
    }

    /// The value of a cell.
    fn value(
        &mut self,
        checked: &Checked,
        index: &Index,
        values: &Assignment,
        bounds: &Bounds,
        due: Due,
    ) -> Result<i64, NoMemory>
        ensures { IfOk result (λ z. Changes (plan_by checked.now values.now bounds.now index.now)
            (spot_of due) z self.old self.new) }
    {
        match due.ty {
            CellTy::Int => Ok(i64::from(number_in(values, bounds, due.place))),
            CellTy::Ptr(ty) => self.pointer(checked, index, values, ty, due.place),
        }
    }

    /// Passes a cell.
    fn pass(
        &mut self,
        checked: &Checked,
        index: &Index,
        values: &Assignment,
        bounds: &Bounds,
        due: Due,
    ) -> Result<(), NoMemory>
        ensures { OnOk result (Passed (plan_by checked.now values.now bounds.now index.now)
            (spot_of due) self.old self.new) }
    {
        let value = self.value(checked, index, values, bounds, due)?;
        self.cells.push(value)?;
        Ok(())
    }

    /// The cell with a number.
    fn at(&self, number: usize) -> Option<Due>
        ensures { result ≡ slice_get (self.now).due number }
    {
        self.due.get(number).copied()
    }

    /// Passes all cells.
    fn fill(
        &mut self,
        checked: &Checked,
        index: &Index,
        values: &Assignment,
        bounds: &Bounds,
    ) -> Result<(), NoMemory>
        ensures { (first : List Spot) → Stands (plan_by checked.now values.now bounds.now index.now) first 0 self.old
            → OnOk result (Finished (plan_by checked.now values.now bounds.now index.now) first (self.new).cells) }
    {
        for number in 0..MOST {
            let Some(due) = self.at(number) else {
                return Ok(());
            };
            self.pass(checked, index, values, bounds, due)?;
        }
        Err(NoMemory)
    }
}

/// The cells, in order of address.
fn cells(
    alloc: Global,
    checked: &Checked,
    index: &Index,
    values: &Assignment,
    bounds: &Bounds,
) -> Result<Items<i64>, NoMemory>
    ensures { IfOk result (Finished (plan_by checked.now values.now bounds.now index.now)
        (spots (found_in (index.now).found 0) 0 (params_of (core_of checked.now)))) }
{
    let params = param_cells(alloc, checked)?;
    let mut laying = Laying::new(alloc, index, params.as_slice())?;
    laying.fill(checked, index, values, bounds)?;
    let Laying {
        due: _,
        cells,
        blocks: _,
    } = laying;
    Ok(cells)
}

/// How long the stream is for a place's number to be in it.
fn needed(place: Place) -> u64
    ensures { result ≡ needs (place_of place) }
{
    match place {
        Place::Arg(_) => 0,
        Place::Field(_, _) => 0,
        Place::Stream(number) => u64::from(number) + 1,
    }
}

/// The larger of two numbers.
fn larger(a: u64, b: u64) -> u64
    ensures { result ≡ max a b }
{
    if a < b { b } else { a }
}

/// How long the stream is for a place of the list.
fn needed_at(places: &Places, id: u32) -> u64
    ensures { result ≡ needs_of (slice_get places.now id) }
{
    match place_at(places, id) {
        None => 0,
        Some(place) => needed(place),
    }
}

/// How long the stream is for the first places of a list.
fn stream_end(places: &Places, count: u32) -> u64
    ensures { result ≡ stream_length (take count places.now) }
{
    let mut end = 0;
    for id in 0..count {
        end = larger(needed_at(places, id), end);
    }
    end
}

/// The numbers of the stream.
fn stream(
    alloc: Global,
    index: &Index,
    values: &Assignment,
    bounds: &Bounds,
    end: u64,
) -> Result<Items<i32>, NoMemory>
    ensures { IfOk result (IsStream (number_of values.now (base_of bounds.now)) (base_of bounds.now)
        (found_in (index.now).found 1) end) }
{
    let mut numbers = Items::new(alloc);
    for number in 0..end {
        numbers.push(number_in(values, bounds, find(&index.found, 1, number)))?;
    }
    Ok(numbers)
}

/// The number of places of an assignment, where the list has as many.
fn count_of(places: &Places, values: &Assignment) -> u32
    ensures value { length (values.now).classes ≤ length places.now → result ≡ length (values.now).classes }
    ensures parents { ParentsFirst places.now }
{
    let most = places.len();
    if values.classes.len() < most as usize {
        values.classes.len() as u32
    } else {
        most
    }
}

/// As `build`, with its condition in its promise.
pub fn built(
    alloc: Global,
    checked: &Checked,
    places: &Places,
    values: &Assignment,
    bounds: &Bounds,
) -> Result<Input, NoMemory>
    ensures { IsAssignment (core_of checked.now).layouts
        (params_of (core_of checked.now)) bounds.now places.now values.now
        → PointsToCells (core_of checked.now).layouts (params_of (core_of checked.now))
        → IfOk result (IsBuilt (core_of checked.now) bounds.now places.now values.now) }
{
    let _lo = bounds.lo();
    let count = count_of(places, values);
    let found = index_places(alloc, places, count)?;
    let owners = index_owners(alloc, values, values.touched.as_slice())?;
    let index = Index { found, owners };
    let cells = cells(alloc, checked, &index, values, bounds)?;
    let stream = stream(alloc, &index, values, bounds, stream_end(places, count))?;
    Ok(Input { cells, stream })
}

/// The input in which each of the first places of the list has the assigned number, and the places of one class name
/// one block. It is canonical, and its numbers are within the bounds.
///
/// An integer place without a number, and an int cell that is no place, have the base value; a pointer that is no place
/// is NULL. The stream ends with the number of the last of these places that is one of the stream. The input has fewer
/// than 10^18 cells.
pub fn build(
    alloc: Global,
    checked: &Checked,
    places: &Places,
    values: &Assignment,
    bounds: &Bounds,
) -> Result<Input, NoMemory>
    requires assignment { IsAssignment (core_of checked.now).layouts
        (params_of (core_of checked.now)) bounds.now places.now values.now }
    requires cells { PointsToCells (core_of checked.now).layouts (params_of (core_of checked.now)) }
    ensures { IfOk result (IsBuilt (core_of checked.now) bounds.now places.now values.now) }
{
    built(alloc, checked, places, values, bounds)
}
