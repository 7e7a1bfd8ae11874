//! Groups of one place.

ghost use Rattle.std.specs.Prelude.{◌≡◌, ◌<◌, ◌≤◌, ◌^◌, ◌↔◌, ◌⊎◌, ℕ, true, false, get_or, length, unsigned_abs, neg_ℤ};
ghost use Rattle.std.specs.Prelude.{pos, negsuc, ◌+ℤ◌, ◌*ℤ◌, ◌≤ℤ◌, IfOk, IfSome, IsTrue};
ghost use Rattle.cc_base.specs.Groups.{Holds, HoldAll};
ghost use Rattle.cc_base.specs.Witness.{changed, origin};
ghost use Rattle.linear_solver.specs.Atoms.{seen_form, seen_atom, seen_atoms, FitForm, FitAll};
ghost use Rattle.linear_solver.specs.Spans.{Narrows, Encloses, EnclosesAll, Counted, TriedAt, FoundAt, Only, OnlyAll};
ghost use Rattle.linear_solver.specs.Spans.{Excludes, ExcludesOnly};

use crate::atoms::{LinearAtom, Sign};
use crate::holding::hold_all;
use crate::inequalities::coefficient_of;
use crate::merging::product;
use crate::numbers::floor_of;
use crate::restore::put_value;
use std::alloc::{AllocError, Global};

/// The numbers from `low` to `high`.
#[derive(Clone, Copy)]
pub struct Span {
    pub low: i128,
    pub high: i128,
}

/// The span up to `most`.
fn ended_at(span: Span, most: i128) -> Span
    ensures { Narrows span (pos 1) (neg_ℤ most) result }
{
    if most < span.high {
        return Span {
            low: span.low,
            high: most,
        };
    }
    span
}

/// The span from `least` on.
fn begun_at(span: Span, least: i128) -> Span
    ensures { Narrows span (negsuc 0) least result }
{
    if least > span.low {
        return Span {
            low: least,
            high: span.high,
        };
    }
    span
}

/// The numbers x of the span with c * x + k <= 0.
fn narrowed(span: Span, c: i128, k: i128) -> Span
    requires coefficient { unsigned_abs c ≤ 2 ^ 44 }
    requires constant { unsigned_abs k ≤ 2 ^ 80 }
    ensures { Narrows span c k result }
{
    if c > 0 {
        return ended_at(span, floor_of(-k, c));
    }
    if c < 0 {
        return begun_at(span, -floor_of(-k, -c));
    }
    if k > 0 {
        return ended_at(begun_at(span, 1), 0);
    }
    span
}

/// The numbers of the span at which an atom of the place may hold.
fn enclosed(span: Span, place: u32, a: &LinearAtom) -> Span
    requires fit { FitForm (seen_form a.now) }
    requires only { Only place a.now.terms.items }
    ensures { Encloses place (seen_atom a.now) span result }
{
    let c = coefficient_of(place, &a.terms);
    match a.sign {
        Sign::NotZero => span,
        Sign::AtMostZero => narrowed(span, c, a.constant),
        Sign::Zero => narrowed(narrowed(span, c, a.constant), -c, -a.constant),
    }
}

/// The numbers of the span at which the atoms may hold.
fn all_enclosed(span: Span, place: u32, atoms: &[LinearAtom]) -> Span
    requires fit { FitAll (seen_atoms atoms.now) }
    requires only { OnlyAll place (seen_atoms atoms.now) }
    ensures { EnclosesAll place (seen_atoms atoms.now) span result }
{
    let mut rest = span;
    for a in atoms {
        rest = enclosed(rest, place, a);
    }
    rest
}

/// How many numbers a span has.
fn size_of_span(span: Span) -> u64
    requires low { negsuc 2147483647 ≤ℤ span.low }
    requires high { span.high ≤ℤ pos 2147483647 }
    ensures { Counted span result }
{
    if span.low > span.high {
        return 0;
    }
    (span.high - span.low + 1) as u64
}

/// The number of the span after `k` others.
fn number_at(low: i128, k: u64) -> i32
    requires low { negsuc 2147483647 ≤ℤ low }
    requires high { (low +ℤ pos k) ≤ℤ pos 2147483647 }
    ensures { result ≡ low +ℤ pos k }
{
    let more = k as i128;
    let number = low + more;
    number as i32
}

/// How far from `low` the number lies at which c * x + k may be 0, where that is less than `len`.
fn distance(low: i128, c: i128, k: i128, len: usize) -> Option<usize>
    requires { len < 2 ^ 63 }
    ensures { IfSome result (λ n. n < len) }
{
    let root = k.checked_neg()?.checked_div(c)?;
    let far = root.checked_sub(low)?;
    if far < 0 {
        return None;
    }
    if far >= len as i128 {
        return None;
    }
    Some(far as usize)
}

fn is_zero(z: i128) -> bool
    ensures { IsTrue result ↔ (z ≡ pos 0) }
{
    z == 0
}

/// Whether c * z + k is 0.
fn is_root(c: i128, k: i128, z: i128) -> bool
    requires coefficient { unsigned_abs c ≤ 2 ^ 44 }
    requires constant { unsigned_abs k ≤ 2 ^ 80 }
    requires number { unsigned_abs z ≤ 2 ^ 80 }
    ensures { IsTrue result ↔ (((c *ℤ z) +ℤ k) ≡ pos 0) }
{
    is_zero(product(c, z) + k)
}

/// How far from `low` the number lies that a disequality of the place excludes, where that is less than `len`.
fn excluded(low: i128, place: u32, a: &LinearAtom, len: usize) -> Option<usize>
    requires fit { FitForm (seen_form a.now) }
    requires only { Only place a.now.terms.items }
    requires low_least { negsuc 2147483647 ≤ℤ low }
    requires low_most { low ≤ℤ pos 2147483647 }
    requires len { len < 2 ^ 63 }
    ensures { IfSome result (λ n. (n < len) × Excludes place low (seen_atom a.now) n) }
{
    match a.sign {
        Sign::AtMostZero => None,
        Sign::Zero => None,
        Sign::NotZero => {
            let c = coefficient_of(place, &a.terms);
            let far = distance(low, c, a.constant, len)?;
            if is_root(c, a.constant, low + far as i128) {
                return Some(far);
            }
            None
        }
    }
}

/// Marks the number that an atom excludes.
fn mark(marks: &mut [bool], low: i128, place: u32, a: &LinearAtom)
    requires fit { FitForm (seen_form a.now) }
    requires only { Only place a.now.terms.items }
    requires low_least { negsuc 2147483647 ≤ℤ low }
    requires low_most { low ≤ℤ pos 2147483647 }
    ensures len { length marks.new ≡ length marks.old }
    ensures marks { (k : ℕ) → get_or marks.new k false ≡ true
        → (get_or marks.old k false ≡ true) ⊎ Excludes place low (seen_atom a.now) k }
{
    if let Some(far) = excluded(low, place, a, marks.len()) {
        marks[far] = true;
    }
}

/// Whether a disequality excludes the number, for as many numbers from `low` on as there are atoms, and one more.
fn marks_of(
    alloc: Global,
    low: i128,
    place: u32,
    atoms: &[LinearAtom],
) -> Result<Vec<bool>, AllocError>
    requires fit { FitAll (seen_atoms atoms.now) }
    requires only { OnlyAll place (seen_atoms atoms.now) }
    requires low_least { negsuc 2147483647 ≤ℤ low }
    requires low_most { low ≤ℤ pos 2147483647 }
    ensures { IfOk result (λ r. ExcludesOnly place low (seen_atoms atoms.now) r.items) }
{
    let mut marks = vec![in alloc; false; atoms.len() + 1]?;
    for a in atoms {
        mark(&mut marks, low, place, a);
    }
    Ok(marks)
}

fn is_marked(marks: &[bool], far: u64) -> bool
    ensures { result ≡ get_or marks.now far false }
{
    let at = far as usize;
    if at < marks.len() { marks[at] } else { false }
}

/// The values with this number at the place, where the atoms hold at them.
fn try_number(
    alloc: Global,
    place: u32,
    number: i32,
    atoms: &[LinearAtom],
) -> Result<Option<Vec<i32>>, AllocError>
    requires { FitAll (seen_atoms atoms.now) }
    ensures { IfOk result (λ r. TriedAt place number (seen_atoms atoms.now) r) }
{
    let mut values = Vec::new(alloc);
    put_value(&mut values, place, number)?;
    if hold_all(atoms, &values) {
        return Ok(Some(values));
    }
    drop(values);
    Ok(None)
}

/// The values with this number at the place, where it has no mark and the atoms hold at them.
fn try_unmarked(
    alloc: Global,
    place: u32,
    number: i32,
    is_marked: bool,
    atoms: &[LinearAtom],
) -> Result<Option<Vec<i32>>, AllocError>
    requires fit { FitAll (seen_atoms atoms.now) }
    requires mark { is_marked ≡ true → HoldAll (changed origin place number) (seen_atoms atoms.now) → ⊥ }
    ensures { IfOk result (λ r. TriedAt place number (seen_atoms atoms.now) r) }
{
    if is_marked {
        return Ok(None);
    }
    let tried = try_number(alloc, place, number, atoms)?;
    Ok(tried)
}

/// All numbers in lo..hi.
fn whole(lo: i32, hi: i32) -> Span
    ensures low { result.low ≡ lo }
    ensures high { result.high ≡ hi }
{
    Span {
        low: lo as i128,
        high: hi as i128,
    }
}

/// The least number in lo..hi at which the atoms of a place hold, as the value of the place.
pub fn search_place(
    alloc: Global,
    lo: i32,
    hi: i32,
    place: u32,
    atoms: &[LinearAtom],
) -> Result<Option<Vec<i32>>, AllocError>
    requires fit { FitAll (seen_atoms atoms.now) }
    requires only { OnlyAll place (seen_atoms atoms.now) }
    ensures { IfOk result (λ r. FoundAt lo hi place (seen_atoms atoms.now) r) }
{
    let span = all_enclosed(whole(lo, hi), place, atoms);
    let size = size_of_span(span);
    if size == 0 {
        return Ok(None);
    }
    let marks = marks_of(alloc, span.low, place, atoms)?;
    for k in 0..size {
        let number = number_at(span.low, k);
        let is_marked = is_marked(&marks, k);
        if let Some(values) = try_unmarked(alloc, place, number, is_marked, atoms)? {
            return Ok(Some(values));
        }
    }
    Ok(None)
}
