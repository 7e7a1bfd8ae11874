//! Lists made normal: of the inequalities with equal terms the least bound is kept.

ghost use Rattle.std.specs.Prelude.{◌≡◌, ◌<◌, ◌≤◌, ◌^◌, ℕ, IfOk, OnOk, IfSome, IfNone, List, [], ◌∷◌, length, vec_len};
ghost use Rattle.cc_base.specs.Pass.{same_terms, kept, tidy, wide_term, too_wide, some_wide, is_false, some_false};
ghost use Rattle.cc_base.specs.Pass.{with_terms, lesser};
ghost use Rattle.linear_solver.specs.Chains.{mix, bucket, terms_at, Chained, IsChained};
ghost use Rattle.linear_solver.specs.Ordered.{SafeAll};
ghost use Rattle.linear_solver.specs.Seen.{seen, seen_all, with_most};

use crate::inequalities::Inequality;
use crate::normalise::normalise;
use cc_base::Multiple;
use std::alloc::{AllocError, Global};

/// The greatest absolute value of a coefficient that is not too wide.
const COEFFICIENT_LIMIT: u128 = 1 << 44;
/// The greatest absolute value of a bound that is not too wide.
const MOST_LIMIT: u128 = 1 << 80;
/// What the numbers of terms are below, by which buckets are chosen.
const NUMBER_LIMIT: u64 = 1 << 32;

fn same_numbers(t: Multiple, u: Multiple) -> bool
    ensures { result ≡ same_terms (t ∷ []) (u ∷ []) }
{
    if t.place != u.place {
        return false;
    }
    t.coefficient == u.coefficient
}

/// Whether two lists of terms are equal.
fn has_same_terms(p: &[Multiple], q: &[Multiple]) -> bool
    ensures { result ≡ same_terms p.now q.now }
{
    if p.len() != q.len() {
        return false;
    }
    for (k, t) in p.iter().enumerate() {
        if !same_numbers(*t, q[k]) {
            return false;
        }
    }
    true
}

/// Makes the bound `most`, where that is less.
fn lower(i: &mut Inequality, most: i128)
    ensures { seen i.new ≡ with_most (lesser most i.old.most) (seen i.old) }
{
    if most < i.most {
        i.most = most;
    }
}

/// Different inequalities, chained by the buckets of their terms.
#[derive(Drop)]
pub struct Kept {
    pub list: Vec<Inequality>,
    /// For each bucket, one more than the index of its last inequality; 0 where it has none.
    pub last: Vec<usize>,
    /// For each inequality, one more than the index of the one before it in its bucket; 0 where it is the first.
    pub before: Vec<usize>,
}

/// The number of some terms, by that of those before the last.
fn mix_term(number: u64, t: Multiple) -> u64
    requires { number < 2 ^ 32 }
    ensures value { result ≡ mix number t }
    ensures bound { result < 2 ^ 32 }
{
    let size = (t.coefficient.unsigned_abs() % NUMBER_LIMIT as u128) as u64;
    (number * 1_000_003 + t.place as u64 * 31 + size) % NUMBER_LIMIT
}

/// The bucket of terms, of `count` buckets.
fn bucket_of(terms: &[Multiple], count: usize) -> usize
    requires { 0 < count }
    ensures value { result ≡ bucket count terms.now }
    ensures bound { result < count }
{
    let mut number = 0;
    for t in terms {
        number = mix_term(number, *t);
    }
    (number % count as u64) as usize
}

/// The index of the inequality that has these terms.
fn find(kept: &Kept, terms: &[Multiple], at_bucket: usize) -> Option<usize>
    requires chained { IsChained kept.now }
    requires bucket { at_bucket ≡ bucket (length kept.now.last.items) terms.now }
    requires bound { at_bucket < length kept.now.last.items }
    ensures some { IfSome result (λ k. (k < length kept.now.list.items)
        × (terms_at (seen_all kept.now.list.items) k ≡ terms.now)) }
    ensures none { IfNone result ((j : ℕ) → j < length kept.now.list.items
        → terms_at (seen_all kept.now.list.items) j ≡ terms.now → ⊥) }
{
    let mut at = kept.last[at_bucket];
    'chain: while at > 0 {
        let index = at - 1;
        if has_same_terms(terms, &kept.list[index].terms) {
            return Some(index);
        }
        at = kept.before[index];
    }
    None
}

/// Adds an inequality to different ones.
fn keep(all: &mut Kept, i: Inequality) -> Result<(), AllocError>
    requires { IsChained all.old }
    ensures chained { OnOk result (IsChained all.new) }
    ensures list { OnOk result (seen_all all.new.list.items ≡ kept (seen i) (seen_all all.old.list.items)) }
{
    let at_bucket = bucket_of(&i.terms, all.last.len());
    if let Some(index) = find(all, &i.terms, at_bucket) {
        lower(&mut all.list[index], i.most);
        drop(i);
        return Ok(());
    }
    let last = all.last[at_bucket];
    all.before.push(last)?;
    all.list.push(i)?;
    all.last[at_bucket] = all.list.len();
    Ok(())
}

/// No inequalities, with `count` buckets.
fn no_kept(alloc: Global, count: usize) -> Result<Kept, AllocError>
    requires { 0 < count }
    ensures chained { IfOk result IsChained }
    ensures list { IfOk result (λ k. k.list.items ≡ []) }
{
    Ok(Kept {
        list: Vec::new(alloc),
        last: vec![in alloc; 0; count]?,
        before: Vec::new(alloc),
    })
}

/// A list made normal.
pub fn tidy_of(alloc: Global, list: Vec<Inequality>) -> Result<Vec<Inequality>, AllocError>
    requires { SafeAll (seen_all list.items) }
    ensures { IfOk result (λ r. seen_all r.items ≡ tidy (seen_all list.items)) }
{
    let mut rest = list;
    let mut out = no_kept(alloc, rest.len() + 1)?;
    'kept: while let Some(next) = rest.pop() {
        let mut i = next;
        normalise(&mut i);
        keep(&mut out, i)?;
    }
    Ok(out.list)
}

fn has_wide_term(terms: &[Multiple]) -> bool
    ensures { result ≡ wide_term terms.now }
{
    for t in terms {
        if t.coefficient.unsigned_abs() > COEFFICIENT_LIMIT {
            return true;
        }
    }
    false
}

fn is_too_wide(i: &Inequality) -> bool
    ensures { result ≡ too_wide (seen i.now) }
{
    if has_wide_term(&i.terms) {
        return true;
    }
    i.most.unsigned_abs() > MOST_LIMIT
}

/// Whether an inequality is too wide.
pub fn has_wide(list: &[Inequality]) -> bool
    ensures { result ≡ some_wide (seen_all list.now) }
{
    for i in list {
        if is_too_wide(i) {
            return true;
        }
    }
    false
}

fn cannot_hold(i: &Inequality) -> bool
    ensures { result ≡ is_false (seen i.now) }
{
    if i.terms.is_empty() {
        i.most < 0
    } else {
        false
    }
}

/// Whether an inequality without terms is false.
pub fn has_false(list: &[Inequality]) -> bool
    ensures { result ≡ some_false (seen_all list.now) }
{
    for i in list {
        if cannot_hold(i) {
            return true;
        }
    }
    false
}

/// The inequalities that have terms.
pub fn with_terms_of(alloc: Global, list: Vec<Inequality>) -> Result<Vec<Inequality>, AllocError>
    ensures { IfOk result (λ r. seen_all r.items ≡ with_terms (seen_all list.items)) }
{
    let mut rest = list;
    let mut out = Vec::new(alloc);
    'kept: while let Some(i) = rest.pop() {
        if i.terms.is_empty() {
            drop(i);
        } else {
            out.push(i)?;
        }
    }
    out.reverse();
    Ok(out)
}
