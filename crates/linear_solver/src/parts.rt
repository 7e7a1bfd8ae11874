//! The parts of the places: two places are in one part where atoms join them. A part has its last place first.

ghost use Rattle.std.specs.Prelude.{◌≡◌, IfOk, OnOk, List, [], ◌∷◌, ◌++◌, reverse, if◌then◌else◌};
ghost use Rattle.cc_base.specs.Groups.{put_all, shares, named, touching, apart, parts, atoms_on};
ghost use Rattle.linear_solver.specs.Atoms.{seen_atom, seen_atoms};
ghost use Rattle.linear_solver.specs.Parts.{backwards, all_backwards};

use crate::atoms::LinearAtom;
use crate::places::{add_named, add_place, is_in};
use cc_base::Multiple;
use std::alloc::{AllocError, Global};

/// Whether two lists share a place.
fn share(p: &[u32], q: &[u32]) -> bool
    ensures { result ≡ shares p.now q.now }
{
    for x in p {
        if is_in(q, *x) {
            return true;
        }
    }
    false
}

/// Adds each place of `more`, once.
fn add_all(list: &mut Vec<u32>, more: &[u32]) -> Result<(), AllocError>
    ensures { OnOk result (reverse list.new.items ≡ put_all (reverse more.now) (reverse list.old.items)) }
{
    for x in more {
        add_place(list, *x)?;
    }
    Ok(())
}

/// Adds the places of a part, where it shares one with `p`.
fn add_touching(list: &mut Vec<u32>, p: &[u32], part: &[u32]) -> Result<(), AllocError>
    ensures { OnOk result (reverse list.new.items
        ≡ (if shares p.now part.now then put_all (reverse part.now)
        (reverse list.old.items) else reverse list.old.items)) }
{
    if share(p, part) {
        add_all(list, part)?;
        return Ok(());
    }
    Ok(())
}

/// The places of `p`, with those of the parts that share one with it.
fn joined(alloc: Global, p: &[u32], parts: &[Vec<u32>]) -> Result<Vec<u32>, AllocError>
    ensures { IfOk result (λ r. reverse r.items ≡ touching (reverse p.now) (all_backwards parts.now)) }
{
    let mut out = p.to_vec(alloc)?;
    let mut left = parts.len();
    'parts: while left > 0 {
        left -= 1;
        add_touching(&mut out, p, &parts[left])?;
    }
    Ok(out)
}

/// The parts that share no place with `p`, behind `first`.
fn behind(
    alloc: Global,
    first: Vec<u32>,
    p: &[u32],
    parts: Vec<Vec<u32>>,
) -> Result<Vec<Vec<u32>>, AllocError>
    ensures { IfOk result (λ r. all_backwards r.items
        ≡ backwards first ∷ apart (reverse p.now) (all_backwards parts.items)) }
{
    let mut rest = parts;
    let mut out = Vec::new(alloc);
    'parts: while let Some(c) = rest.pop() {
        if share(p, &c) {
            drop(c);
        } else {
            out.push(c)?;
        }
    }
    out.push(first)?;
    out.reverse();
    Ok(out)
}

/// The parts with one more atom.
fn with_atom(
    alloc: Global,
    parts: Vec<Vec<u32>>,
    a: &LinearAtom,
) -> Result<Vec<Vec<u32>>, AllocError>
    ensures { IfOk result (λ r. all_backwards r.items
        ≡ touching (named a.now.terms.items) (all_backwards parts.items)
        ∷ apart (named a.now.terms.items) (all_backwards parts.items)) }
{
    let mut p = Vec::new(alloc);
    add_named(&mut p, &a.terms)?;
    let first = joined(alloc, &p, &parts)?;
    let more = behind(alloc, first, &p, parts)?;
    Ok(more)
}

/// The parts of the atoms.
pub fn parts_of(alloc: Global, atoms: &[LinearAtom]) -> Result<Vec<Vec<u32>>, AllocError>
    ensures { IfOk result (λ r. all_backwards r.items ≡ parts (seen_atoms atoms.now)) }
{
    let mut out = Vec::new(alloc);
    let mut left = atoms.len();
    'atoms: while left > 0 {
        left -= 1;
        out = with_atom(alloc, out, &atoms[left])?;
    }
    Ok(out)
}

/// Whether the terms name a place of the part.
fn touches(terms: &[Multiple], part: &[u32]) -> bool
    ensures { result ≡ shares (named terms.now) (reverse part.now) }
{
    for t in terms {
        if is_in(part, t.place) {
            return true;
        }
    }
    false
}

/// A copy of an atom.
pub fn copy_atom(alloc: Global, a: &LinearAtom) -> Result<LinearAtom, AllocError>
    ensures { IfOk result (λ r. seen_atom r ≡ seen_atom a.now) }
{
    let terms = a.terms.as_slice().to_vec(alloc)?;
    Ok(LinearAtom {
        sign: a.sign,
        terms,
        constant: a.constant,
    })
}

/// Adds a copy of an atom, where it names a place of the part.
fn add_atom(
    alloc: Global,
    out: &mut Vec<LinearAtom>,
    part: &[u32],
    a: &LinearAtom,
) -> Result<(), AllocError>
    ensures { OnOk result (seen_atoms out.new.items
        ≡ seen_atoms out.old.items ++ atoms_on (reverse part.now) (seen_atom a.now ∷ [])) }
{
    if touches(&a.terms, part) {
        out.push(copy_atom(alloc, a)?)?;
        return Ok(());
    }
    Ok(())
}

/// The atoms that name a place of the part.
pub fn group_of(
    alloc: Global,
    part: &[u32],
    atoms: &[LinearAtom],
) -> Result<Vec<LinearAtom>, AllocError>
    ensures { IfOk result (λ r. seen_atoms r.items ≡ atoms_on (reverse part.now) (seen_atoms atoms.now)) }
{
    let mut out = Vec::new(alloc);
    for a in atoms {
        add_atom(alloc, &mut out, part, a)?;
    }
    Ok(out)
}
