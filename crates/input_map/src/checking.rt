//! The rule of inputs.

ghost use Rattle.cc_base.specs.Limits.{Limits};
ghost use Rattle.cc_base.specs.declared.cells.CellTy.TheVariants as cell;
ghost use Rattle.std.specs.Prelude.{ℕ, false, slice_get, ◌≡◌, ◌<◌, ◌≤◌, ◌+◌, ◌∷◌, ◌^◌, [], suc, List, ℤ, IfOk, OnOk};
ghost use Rattle.std.specs.Prelude.{◌⊎◌, Option, Some, None, length, map, drop};
ghost use Rattle.std.specs.Ordering.{nat_cmp};
ghost use Rattle.std.specs.BTreeSet.{contains};
ghost use Rattle.cc_model.specs.CheckedProgram.{cell_of, cells_at};
ghost use Rattle.input_map.specs.declared.faults.MapFault.{MapFault as Fault};
ghost use Rattle.input_map.specs.CellFaults.{is_within, is_next, cells_fault};
ghost use Rattle.input_map.specs.Standing.{key, has_old, Follows, GoesOn, Judges, Names};

use crate::faults::MapFault;
use crate::params::layout;
use cc_model::Checked;
use cc_model::base::{Bounds, CellTy, NoMemory, TyId};
use sqlite_items::Items;
use std::alloc::Global;
use std::collections::BTreeSet;

/// Where a checker of cells stands.
#[derive(Drop)]
pub struct Standing {
    /// The types of the cells: of all that are named, or at least of as many as there are numbers.
    types: Items<CellTy>,
    /// The blocks that have been named, by their keys.
    named: BTreeSet<u128>,
    /// The address behind all that is named, or the greatest number.
    next: u64,
}

/// The key of a block: its address and its type.
fn key(address: u64, ty: TyId) -> u128
    ensures { result ≡ key address ty.0 }
{
    u128::from(address) * 4_294_967_296 + u128::from(ty.0)
}

/// Whether a number is within the bounds.
pub fn is_within(bounds: &Bounds, number: i64) -> bool
    ensures { result ≡ is_within bounds.now number }
{
    let low = i64::from(bounds.lo());
    let high = i64::from(bounds.hi());
    low <= number && number <= high
}

impl Standing {
    /// Before the first cell.
    fn new(alloc: Global, params: Items<CellTy>) -> Standing
        ensures types { result.types ≡ params }
        ensures next { result.next ≡ length params + 1 }
        ensures named { (q : ℕ) → contains nat_cmp result.named q ≡ false }
    {
        let next = params.len() as u64 + 1;
        Standing {
            types: params,
            named: BTreeSet::new(alloc),
            next,
        }
    }

    /// Whether a number is 0 or the address of a block of the type that has been named.
    fn has_old(&self, target: TyId, number: i64) -> bool
        ensures { result ≡ has_old (self.now).named target.0 number }
    {
        if number < 0 {
            return false;
        }
        number == 0 || self.named.contains(&key(number as u64, target))
    }

    /// Whether a number is the next address.
    fn is_next(&self, number: i64) -> bool
        ensures { result ≡ is_next (self.now).next number }
    {
        number >= 0 && number as u64 == self.next
    }

    /// Names a block of the type at the address.
    fn name(
        &mut self,
        alloc: Global,
        target: TyId,
        cells: &[CellTy],
        address: u64,
        most: usize,
    ) -> Result<(), NoMemory>
        ensures { OnOk result (Names most address target.0 cells.now self.old self.new) }
    {
        self.named.insert(key(address, target))?;
        self.next = self.next.saturating_add(cells.len() as u64);
        if self.types.len() < most {
            self.types.append(Items::from_slice(alloc, cells)?)?;
        }
        Ok(())
    }

    /// Passes a pointer cell.
    fn pointer(
        &mut self,
        alloc: Global,
        checked: &Checked,
        target: TyId,
        at: usize,
        most: usize,
        number: i64,
    ) -> Result<(), MapFault>
        requires { at < 2 ^ 62 }
        ensures { (b : Limits) (zs : List ℤ) (o : Option Fault) → slice_get (self.old).types at ≡ Some (cell.Ptr target)
            → Follows (cells_at checked.now) b most at self.old (number ∷ zs) o
            → GoesOn (cells_at checked.now) b most at result self.new zs o }
    {
        if self.has_old(target, number) {
            return Ok(());
        }
        if !self.is_next(number) {
            return Err(MapFault::NotCanonical(at as i64 + 1));
        }
        self.name(alloc, target, layout(checked, target), number as u64, most)?;
        Ok(())
    }

    /// Passes a cell.
    fn cell(
        &mut self,
        alloc: Global,
        checked: &Checked,
        bounds: &Bounds,
        at: usize,
        most: usize,
        number: i64,
    ) -> Result<(), MapFault>
        requires { (at < 2 ^ 62) × (at < most) }
        ensures { (zs : List ℤ) (o : Option Fault)
            → Follows (cells_at checked.now) bounds.now most at self.old (number ∷ zs) o
            → GoesOn (cells_at checked.now) bounds.now most at result self.new zs o }
    {
        match self.types.get(at) {
            None => Err(MapFault::Long(at as i64 + 1)),
            Some(CellTy::Int) => {
                if is_within(bounds, number) {
                    Ok(())
                } else {
                    Err(MapFault::OutOfBounds(at as i64 + 1))
                }
            }
            Some(CellTy::Ptr(target)) => {
                let target = *target;
                self.pointer(alloc, checked, target, at, most, number)
            }
        }
    }
}

/// Checks cells by the rule of inputs, where the parameters' cells have these types.
pub fn check_cells(
    alloc: Global,
    checked: &Checked,
    bounds: &Bounds,
    params: Items<CellTy>,
    cells: &[i64],
) -> Result<(), MapFault>
    ensures { Judges result (cells_fault (cells_at checked.now) bounds.now (map cell_of params) []
        (suc (length (map cell_of params))) 1 cells.now) }
{
    let most = cells.len();
    let mut standing = Standing::new(alloc, params);
    for (at, number) in cells.iter().enumerate() {
        standing.cell(alloc, checked, bounds, at, most, *number)?;
    }
    if standing.next > most as u64 + 1 {
        return Err(MapFault::Short);
    }
    Ok(())
}
