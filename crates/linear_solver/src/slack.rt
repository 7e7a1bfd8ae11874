//! How inequalities bound a place, and the place of least slack.

ghost use Rattle.std.specs.Prelude.{◌≡◌, ◌<◌, ◌^◌, IfOk, OnOk};
ghost use Rattle.cc_base.specs.Inequality.{coefficient};
ghost use Rattle.cc_base.specs.Pass.{best, best_in};
ghost use Rattle.linear_solver.specs.Ordered.{Ordered, NarrowAll};
ghost use Rattle.linear_solver.specs.Seen.{seen_all};
ghost use Rattle.linear_solver.specs.Sides.{side, side_step, sides};
ghost use Rattle.linear_solver.specs.Ranks.{rank, before, Known, just};

use crate::inequalities::{Inequality, coefficient_of};
use crate::places::is_in;
use cc_base::Multiple;
use std::alloc::{AllocError, Global};

/// How an inequality bounds a place, with the absolute value of the place's coefficient.
#[derive(Clone, Copy)]
pub enum Side {
    /// It doesn't name the place.
    Neither,
    /// The coefficient is negative: it bounds the place from below.
    Lower(u128),
    /// The coefficient is positive: it bounds the place from above.
    Upper(u128),
}

fn side_by(coefficient: i128) -> Side
    ensures { result ≡ side coefficient }
{
    if coefficient == 0 {
        Side::Neither
    } else if coefficient < 0 {
        Side::Lower(coefficient.unsigned_abs())
    } else {
        Side::Upper(coefficient.unsigned_abs())
    }
}

/// How the terms bound a place.
pub fn side_of(place: u32, terms: &[Multiple]) -> Side
    requires { Ordered 0 terms.now }
    ensures { result ≡ side (coefficient place terms.now) }
{
    side_by(coefficient_of(place, terms))
}

/// How many inequalities bound a place from below and from above, and their greatest coefficients.
#[derive(Clone, Copy)]
pub struct Sides {
    pub lowers: usize,
    pub uppers: usize,
    pub low: u128,
    pub high: u128,
}

/// The sides with one more inequality.
fn with_side(sides: Sides, more: Side) -> Sides
    requires lowers { sides.lowers < 2 ^ 63 }
    requires uppers { sides.uppers < 2 ^ 63 }
    ensures { result ≡ side_step more sides }
{
    match more {
        Side::Neither => sides,
        Side::Lower(size) => Sides {
            lowers: sides.lowers + 1,
            uppers: sides.uppers,
            low: sides.low.max(size),
            high: sides.high,
        },
        Side::Upper(size) => Sides {
            lowers: sides.lowers,
            uppers: sides.uppers + 1,
            low: sides.low,
            high: sides.high.max(size),
        },
    }
}

/// The sides of a place in a list.
pub fn sides_of(place: u32, list: &[Inequality]) -> Sides
    requires { NarrowAll (seen_all list.now) }
    ensures { result ≡ sides place (seen_all list.now) }
{
    let mut all = Sides {
        lowers: 0,
        uppers: 0,
        low: 0,
        high: 0,
    };
    for i in list {
        all = with_side(all, side_of(place, &i.terms));
    }
    all
}

/// What a place is chosen by: the least slack, then the fewest pairs, then the least number.
#[derive(Clone, Copy)]
pub struct Rank {
    pub slack: u128,
    pub pairs: u128,
    pub place: u32,
}

/// The rank of a place in a list.
pub fn rank_of(place: u32, list: &[Inequality]) -> Rank
    requires { NarrowAll (seen_all list.now) }
    ensures { result ≡ rank place (seen_all list.now) }
{
    let all = sides_of(place, list);
    Rank {
        slack: all.low.saturating_sub(1) * all.high.saturating_sub(1),
        pairs: all.lowers as u128 * all.uppers as u128,
        place,
    }
}

/// Whether `a` goes before `b`.
fn is_before(a: Rank, b: Rank) -> bool
    ensures { result ≡ before a b }
{
    if a.slack != b.slack {
        return a.slack < b.slack;
    }
    if a.pairs != b.pairs {
        return a.pairs < b.pairs;
    }
    a.place < b.place
}

/// The best place so far, and the places that it was compared with.
#[derive(Drop)]
pub struct Best {
    pub rank: Rank,
    pub seen: Vec<u32>,
}

/// Compares one more place.
fn consider(best: &mut Best, list: &[Inequality], place: u32) -> Result<(), AllocError>
    requires narrow { NarrowAll (seen_all list.now) }
    requires known { Known (seen_all list.now) best.old }
    ensures known { OnOk result (Known (seen_all list.now) best.new) }
    ensures place { OnOk result (best.new.rank.place ≡ best_in (seen_all list.now) best.old.rank.place (just place)) }
{
    if is_in(&best.seen, place) {
        return Ok(());
    }
    best.seen.push(place)?;
    let rank = rank_of(place, list);
    if is_before(rank, best.rank) {
        best.rank = rank;
    }
    Ok(())
}

/// Compares the places of the terms.
fn consider_terms(
    best: &mut Best,
    list: &[Inequality],
    terms: &[Multiple],
) -> Result<(), AllocError>
    requires narrow { NarrowAll (seen_all list.now) }
    requires known { Known (seen_all list.now) best.old }
    ensures known { OnOk result (Known (seen_all list.now) best.new) }
    ensures place { OnOk result (best.new.rank.place ≡ best_in (seen_all list.now) best.old.rank.place terms.now) }
{
    for t in terms {
        consider(best, list, t.place)?;
    }
    Ok(())
}

/// The best place of the list's terms and of `first`.
pub fn best_of(alloc: Global, first: u32, list: &[Inequality]) -> Result<u32, AllocError>
    requires { NarrowAll (seen_all list.now) }
    ensures { IfOk result (λ r. r ≡ best (seen_all list.now) first (seen_all list.now)) }
{
    let mut best = Best {
        rank: rank_of(first, list),
        seen: Vec::new(alloc),
    };
    for i in list {
        consider_terms(&mut best, list, &i.terms)?;
    }
    Ok(best.rank.place)
}
