//! The values of a dark pass, found backwards.

ghost use Rattle.std.specs.Prelude.{◌≡◌, ◌<◌, ◌≤◌, ◌^◌, ◌*ℤ◌, ◌≤ℤ◌, pos, negsuc, neg_ℤ, ◌<ℤ◌, unsigned_abs, IfOk, OnOk};
ghost use Rattle.std.specs.Prelude.{List, vec_len};
ghost use Rattle.cc_base.specs.Inequality.{coefficient, floor};
ghost use Rattle.cc_base.specs.Pass.{lowers, uppers};
ghost use Rattle.cc_base.specs.Witness.{value_for, unwound, origin, changed, left, larger, smaller};
ghost use Rattle.linear_solver.specs.Bounded.{Fitting};
ghost use Rattle.linear_solver.specs.Ordered.{Narrow, NarrowAll};
ghost use Rattle.linear_solver.specs.Seen.{seen, seen_all, seen_turns, at_places};
ghost use Rattle.linear_solver.specs.Sides.{side};
ghost use Rattle.linear_solver.specs.Trail.{Sound, with_low, with_high, room_step, first_of};

use crate::inequalities::Inequality;
use crate::numbers::floor_of;
use crate::pass::Step;
use crate::slack::{Side, side_of};
use cc_base::Multiple;
use std::alloc::{AllocError, Global};

/// The value of a place, 0 past the end.
pub fn value_at(values: &[i32], place: u32) -> i32
    ensures { result ≡ at_places values.now place }
{
    let at = place as usize;
    if at < values.len() { values[at] } else { 0 }
}

/// Makes at least `len` values, the new ones 0.
fn make_room(values: &mut Vec<i32>, len: usize) -> Result<(), AllocError>
    ensures same { OnOk result (at_places values.new.items ≡ at_places values.old.items) }
    ensures room { OnOk result (len ≤ vec_len values.new) }
{
    if values.len() < len {
        values.resize(len, 0)?;
        return Ok(());
    }
    Ok(())
}

/// Gives a place a value.
pub fn put_value(values: &mut Vec<i32>, place: u32, value: i32) -> Result<(), AllocError>
    ensures { OnOk result (at_places values.new.items ≡ changed (at_places values.old.items) place value) }
{
    make_room(values, place as usize + 1)?;
    values[place as usize] = value;
    Ok(())
}

/// A term's value, 0 where it is one of `place`.
fn term_value(place: u32, t: Multiple, values: &[i32]) -> i128
    requires { unsigned_abs t.coefficient ≤ 2 ^ 44 }
    ensures value { result ≡ t.coefficient *ℤ changed (at_places values.now) place (pos 0) t.place }
    ensures bound { unsigned_abs result ≤ 2 ^ 75 }
{
    if t.place == place {
        0
    } else {
        t.coefficient * value_at(values, t.place) as i128
    }
}

/// What the terms of the other places leave for that of `place`.
fn left_of(place: u32, i: &Inequality, values: &[i32]) -> i128
    requires { Narrow (seen i.now) }
    ensures value { result ≡ left (at_places values.now) place (seen i.now) }
    ensures bound { unsigned_abs result ≤ 2 ^ 110 }
{
    let mut sum = 0;
    for t in &i.terms {
        sum += term_value(place, *t, values);
    }
    i.most - sum
}

fn larger_of(a: i128, b: i128) -> i128
    ensures { result ≡ larger a b }
{
    if a <= b { b } else { a }
}

fn smaller_of(a: i128, b: i128) -> i128
    ensures { result ≡ smaller a b }
{
    if a <= b { a } else { b }
}

/// The least and the greatest value that inequalities leave a place, where they bound it.
#[derive(Clone, Copy)]
pub struct Room {
    pub low: Option<i128>,
    pub high: Option<i128>,
}

fn raised(low: Option<i128>, z: i128) -> Option<i128>
    ensures { result ≡ with_low low z }
{
    match low {
        Some(y) => Some(larger_of(y, z)),
        None => Some(z),
    }
}

fn lowered(high: Option<i128>, z: i128) -> Option<i128>
    ensures { result ≡ with_high high z }
{
    match high {
        Some(y) => Some(smaller_of(y, z)),
        None => Some(z),
    }
}

/// The least value of a place whose coefficient is `-a`.
fn least_by(z: i128, a: u128) -> i128
    requires factor { a ≤ 2 ^ 44 }
    requires positive { 0 < a }
    requires bound { unsigned_abs z ≤ 2 ^ 110 }
    ensures { result ≡ neg_ℤ (floor z a) }
{
    -floor_of(z, a as i128)
}

/// The greatest value of a place whose coefficient is `c`.
fn most_by(z: i128, c: u128) -> i128
    requires factor { c ≤ 2 ^ 44 }
    requires positive { 0 < c }
    ensures { result ≡ floor z c }
{
    floor_of(z, c as i128)
}

/// The room with one more inequality.
fn with_room(room: Room, place: u32, i: &Inequality, values: &[i32]) -> Room
    requires { Narrow (seen i.now) }
    ensures { result ≡ room_step (side (coefficient place i.now.terms.items))
        (left (at_places values.now) place (seen i.now)) room }
{
    match side_of(place, &i.terms) {
        Side::Neither => room,
        Side::Lower(a) => Room {
            low: raised(room.low, least_by(left_of(place, i, values), a)),
            high: room.high,
        },
        Side::Upper(c) => Room {
            low: room.low,
            high: lowered(room.high, most_by(left_of(place, i, values), c)),
        },
    }
}

fn first(room: Room) -> i128
    ensures { result ≡ first_of room.low room.high }
{
    match room.low {
        Some(z) => z,
        None => match room.high {
            Some(z) => z,
            None => 0,
        },
    }
}

/// The value that a list leaves a place.
pub fn value_of(place: u32, list: &[Inequality], values: &[i32]) -> i128
    requires { NarrowAll (seen_all list.now) }
    ensures { result ≡ value_for (at_places values.now) place (lowers place (seen_all list.now))
        (uppers place (seen_all list.now)) }
{
    let mut room = Room {
        low: None,
        high: None,
    };
    for i in list {
        room = with_room(room, place, i, values);
    }
    first(room)
}

/// A number as one of 32 bits.
fn narrow(z: i128) -> i32
    requires low { negsuc 2147483647 ≤ℤ z }
    requires high { z ≤ℤ pos 2147483647 }
    ensures { result ≡ z }
{
    z as i32
}

/// The values by the turns, backwards from 0.
pub fn restore(alloc: Global, trail: &[Step]) -> Result<Vec<i32>, AllocError>
    requires sound { Sound (seen_turns trail.now) }
    requires fitting { Fitting (seen_turns trail.now) }
    ensures { IfOk result (λ r. at_places r.items ≡ unwound (seen_turns trail.now) origin) }
{
    let mut values = Vec::new(alloc);
    let mut left = trail.len();
    'turns: while left > 0 {
        left -= 1;
        let step = &trail[left];
        let value = value_of(step.place, &step.list, &values);
        put_value(&mut values, step.place, narrow(value))?;
    }
    Ok(values)
}
