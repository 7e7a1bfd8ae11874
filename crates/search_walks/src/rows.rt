//! Numbers that belong to places.

ghost use Rattle.std.specs.Prelude.{◌≡◌, ℕ, length, IfOk, OnOk};
ghost use Rattle.search_walks.specs.Rows.{row, Has, Grows, IsOne};

use cc_model::base::{Items, NoMemory};
use std::alloc::Global;

/// For each place some numbers.
#[derive(Drop)]
pub(crate) struct Rows {
    pub(crate) rows: Vec<Items<usize>>,
}

impl Rows {
    /// None for any place.
    pub(crate) fn new(alloc: Global, places: usize) -> Result<Rows, NoMemory>
        ensures none { IfOk result (λ r. (place number : ℕ) → Has r.rows.items place number → ⊥) }
        ensures places { IfOk result (λ r. length r.rows.items ≡ places) }
    {
        let mut rows = Vec::new(alloc);
        for _place in 0..places {
            rows.push(Items::new(alloc))?;
        }
        Ok(Rows { rows })
    }

    /// One more number of a place; nothing where there is no such place.
    pub(crate) fn add(&mut self, place: usize, number: usize) -> Result<(), NoMemory>
        ensures { OnOk result (Grows self.old.rows.items self.new.rows.items (IsOne self.old.rows.items place number)) }
    {
        if place < self.rows.len() {
            self.rows[place].push(number)?;
        }
        Ok(())
    }

    /// The numbers of a place.
    pub(crate) fn of(&self, place: usize) -> &[usize]
        ensures { result.now ≡ row self.now.rows.items place }
    {
        match self.rows.get(place) {
            Some(numbers) => numbers.as_slice(),
            None => &[],
        }
    }
}
