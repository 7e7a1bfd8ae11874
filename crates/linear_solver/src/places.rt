//! Lists of places.

ghost use Rattle.std.specs.Prelude.{◌≡◌, reverse, IfOk, OnOk};
ghost use Rattle.cc_base.specs.Groups.{contains, put, put_all, named, places_in};
ghost use Rattle.linear_solver.specs.Atoms.{seen_atoms};

use crate::atoms::LinearAtom;
use cc_base::Multiple;
use std::alloc::{AllocError, Global};

/// Whether a list has a place.
pub fn is_in(list: &[u32], place: u32) -> bool
    ensures { result ≡ contains list.now place }
{
    for y in list {
        if *y == place {
            return true;
        }
    }
    false
}

/// Adds a place, once. The list has its last place first.
pub fn add_place(list: &mut Vec<u32>, place: u32) -> Result<(), AllocError>
    ensures { OnOk result (reverse list.new.items ≡ put place (reverse list.old.items)) }
{
    if is_in(list, place) {
        return Ok(());
    }
    list.push(place)?;
    Ok(())
}

/// Adds the places of the terms, each once. The list has its last place first.
pub fn add_named(list: &mut Vec<u32>, terms: &[Multiple]) -> Result<(), AllocError>
    ensures { OnOk result (reverse list.new.items ≡ put_all (named terms.now) (reverse list.old.items)) }
{
    let mut left = terms.len();
    'terms: while left > 0 {
        left -= 1;
        add_place(list, terms[left].place)?;
    }
    Ok(())
}

/// The places that the atoms name, each once.
pub fn places_of(alloc: Global, atoms: &[LinearAtom]) -> Result<Vec<u32>, AllocError>
    ensures { IfOk result (λ r. r.items ≡ places_in (seen_atoms atoms.now)) }
{
    let mut out = Vec::new(alloc);
    let mut left = atoms.len();
    'atoms: while left > 0 {
        left -= 1;
        add_named(&mut out, &atoms[left].terms)?;
    }
    out.reverse();
    Ok(out)
}
