//! Where instructions lead.

ghost use Rattle.std.specs.Prelude.{◌≡◌, ◌<◌, ◌≤◌, ◌↔◌, ℕ, suc, max, nat_le, if◌then◌else◌, IsTrue, IfOk, OnOk, Some};
ghost use Rattle.std.specs.Prelude.{None, length, slice_get};
ghost use Rattle.tac_lower.specs.Finished.{first_in};
ghost use Rattle.tac_lower.specs.Flow.{way, decided, last_first, AreThose, Calls, AreSuccessors, side, OutcomeLeadsTo};
ghost use Rattle.tac_lower.specs.Edges.{place_at, pair_of, two_of, Behind, BehindUpTo, Reached};

use crate::instr::Instr;
use crate::tac::{Tac, TacFunc};
use cc_model::base::{Items, NoMemory};
use std::alloc::Global;

/// Where an instruction leads, as it says itself.
#[derive(Clone, Copy)]
pub enum Way {
    /// To the next instruction.
    Next,
    /// To the place.
    To(u32),
    /// To the next instruction and to the place.
    Beside(u32),
    /// To the first instruction of the function.
    Into(u32),
    /// To behind the calls of its own function.
    Back,
    Nowhere,
}

/// The way on that an instruction names.
fn way_of(instruction: Instr) -> Way
    ensures { result ≡ way instruction }
{
    match instruction {
        Instr::Jump(to) => Way::To(to),
        Instr::JumpZero(_, to) => Way::Beside(to),
        Instr::Call(_, function, _, _) => Way::Into(function),
        Instr::Return(_) => Way::Back,
        Instr::Stop(_, _) => Way::Nowhere,
        _ => Way::Next,
    }
}

/// The temporary of a decision's result.
fn decided(instruction: Instr) -> Option<u32>
    ensures { result ≡ decided instruction }
{
    match instruction {
        Instr::Compare(_, _, n, _, _) => Some(n),
        Instr::Truth(_, n, _) => Some(n),
        _ => None,
    }
}

/// Where an outcome goes on, where a jump on zero tests its decision's result or not.
fn side_of(is: bool, outcome: bool, next: usize, there: u32) -> usize
    requires { next ≤ 4294967296 }
    ensures { result ≡ (if is then (if outcome then suc next else there) else next) }
{
    if is {
        if outcome { next + 1 } else { there as usize }
    } else {
        next
    }
}

/// The later of two beginnings, where the first is not above a place.
fn later_first(first: u32, at: u32, rest: u32) -> u32
    ensures { result ≡ (if nat_le first at then max first rest else rest) }
{
    if first <= at { first.max(rest) } else { rest }
}

/// Where the last of the functions begins that begin not above a place; 0 where none does.
fn last_first(functions: &[TacFunc], at: u32) -> u32
    ensures { result ≡ last_first at functions.now }
{
    let mut last = 0;
    let mut left = functions.len();
    while left > 0 {
        left -= 1;
        last = later_first(functions[left].first, at, last);
    }
    last
}

/// The list of up to two places.
fn pair(alloc: Global, low: Option<u32>, high: Option<u32>) -> Result<Items<u32>, NoMemory>
    ensures { IfOk result (λ l. l ≡ pair_of low high) }
{
    let mut places = Items::new(alloc);
    if let Some(low) = low {
        places.push(low)?;
    }
    if let Some(high) = high {
        places.push(high)?;
    }
    Ok(places)
}

impl Tac {
    /// The place, where there is an instruction at it.
    fn place_at(&self, to: usize) -> Option<u32>
        ensures { result ≡ place_at self.now to }
    {
        if to < self.code.len() && to <= u32::MAX as usize {
            Some(to as u32)
        } else {
            None
        }
    }

    /// Where a function begins; the length of the code where there is no such function.
    fn first_in(&self, function: u32) -> usize
        ensures { result ≡ first_in self.now function }
    {
        match self.funcs.get(function as usize) {
            Some(found) => found.first as usize,
            None => self.code.len(),
        }
    }

    /// Whether an instruction calls a function that begins at `first`.
    fn calls(&self, first: u32, at: usize) -> bool
        ensures { IsTrue result ↔ Calls self.now first (slice_get self.now.code at) }
    {
        match self.code.get(at) {
            Some(Instr::Call(_, function, _, _)) => self.first_in(*function) == first as usize,
            _ => false,
        }
    }

    /// Adds the place behind the instruction, where that calls a function that begins at `first`.
    fn add_behind(&self, first: u32, at: usize, places: &mut Items<u32>) -> Result<(), NoMemory>
        requires { at < 18446744073709551615 }
        ensures { OnOk result (AreThose (BehindUpTo self.now first at) places.old
            → AreThose (BehindUpTo self.now first (suc at)) places.new) }
    {
        if self.calls(first, at) {
            if let Some(next) = self.place_at(at + 1) {
                places.push(next)?;
            }
        }
        Ok(())
    }

    /// The places behind all calls of a function that begins at `first`.
    fn behind(&self, alloc: Global, first: u32) -> Result<Items<u32>, NoMemory>
        ensures { IfOk result (λ l. AreThose (Behind self.now first) l) }
    {
        let mut places = Items::new(alloc);
        let mut at = 0;
        while at < self.code.len() {
            self.add_behind(first, at, &mut places)?;
            at += 1;
        }
        Ok(places)
    }

    /// The one place, where there is an instruction at it.
    fn one(&self, alloc: Global, to: usize) -> Result<Items<u32>, NoMemory>
        ensures { IfOk result (λ l. l ≡ pair_of (place_at self.now to) None) }
    {
        pair(alloc, self.place_at(to), None)
    }

    /// The two places in order, each once, where there are instructions at them.
    fn two(&self, alloc: Global, a: usize, b: usize) -> Result<Items<u32>, NoMemory>
        ensures { IfOk result (λ l. l ≡ two_of self.now a b) }
    {
        if a < b {
            pair(alloc, self.place_at(a), self.place_at(b))
        } else if b < a {
            pair(alloc, self.place_at(b), self.place_at(a))
        } else {
            self.one(alloc, a)
        }
    }

    /// The places that instruction `at` leads to by its way.
    fn follow(&self, alloc: Global, at: u32, way: Way) -> Result<Items<u32>, NoMemory>
        ensures { IfOk result (λ l. AreThose (Reached self.now at way) l) }
    {
        let next = at as usize + 1;
        match way {
            Way::Next => self.one(alloc, next),
            Way::To(to) => self.one(alloc, to as usize),
            Way::Beside(to) => self.two(alloc, next, to as usize),
            Way::Into(function) => self.one(alloc, self.first_in(function)),
            Way::Back => self.behind(alloc, last_first(self.funcs.as_slice(), at)),
            Way::Nowhere => Ok(Items::new(alloc)),
        }
    }

    /// The places to which the flow edges of the instruction at a place lead, ascending, each once. None past the end
    /// of the code.
    ///
    /// An instruction leads to the next one, a jump to its target alone, a jump on zero to both, a call to its
    /// function's first instruction alone, a return to behind each call of its function, a stop nowhere. The function
    /// of an instruction is the one with the greatest `first` that isn't above it. Only instructions of the code are
    /// led to.
    pub fn successors(&self, alloc: Global, at: u32) -> Result<Items<u32>, NoMemory>
        ensures { IfOk result (λ l. AreSuccessors self.now at l) }
    {
        match self.code.get(at as usize) {
            Some(instruction) => self.follow(alloc, at, way_of(*instruction)),
            None => Ok(Items::new(alloc)),
        }
    }

    /// Where an outcome goes on, where `n` has its decision's result and `behind` the instruction behind the decision.
    fn side(&self, at: u32, n: u32, outcome: bool) -> usize
        ensures { result ≡ side at n outcome (slice_get self.now.code (suc at)) }
    {
        let next = at as usize + 1;
        match self.code.get(next) {
            Some(Instr::JumpZero(tested, there)) => side_of(*tested == n, outcome, next, *there),
            _ => next,
        }
    }

    /// The place to which an outcome of the decision at a place leads. None where no decision stands there, and where
    /// no instruction is led to.
    ///
    /// Where a jump on zero on the result stands behind the decision, an outcome leads to the matching target of that
    /// jump, else to the next instruction.
    pub fn outcome_successor(&self, at: u32, outcome: bool) -> Option<u32>
        ensures { (to : ℕ) → (result ≡ Some to) ↔ OutcomeLeadsTo self.now at outcome to }
    {
        match self.code.get(at as usize) {
            Some(instruction) => match decided(*instruction) {
                Some(n) => self.place_at(self.side(at, n, outcome)),
                None => None,
            },
            None => None,
        }
    }
}
