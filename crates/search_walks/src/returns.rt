//! Where returns lead: to the places behind the calls of their function.

ghost use Rattle.std.specs.Prelude.{◌≡◌, ◌<◌, ◌↔◌, ℕ, if◌then◌else◌, length, slice_get, Some, IfOk, OnOk};
ghost use Rattle.cc_base.specs.Paths.{In};
ghost use Rattle.tac_lower.specs.Finished.{first_in};
ghost use Rattle.tac_lower.specs.Flow.{last_first, IsBehind};
ghost use Rattle.search_walks.specs.Rows.{Grows};
ghost use Rattle.search_walks.specs.Returns.{called, IsMarked, IsBehindAt, BeginsUpTo, FirstsUpTo, BehindUpTo};
ghost use Rattle.search_walks.specs.Returns.{AreReturns};

use crate::rows::Rows;
use cc_model::base::NoMemory;
use std::alloc::Global;
use tac_lower::{Instr, Tac};

/// Where the returns of a code lead.
#[derive(Drop)]
pub(crate) struct Returns {
    /// Where the function of each place begins.
    pub(crate) firsts: Vec<usize>,
    /// The places behind the calls of the function that begins at a place.
    pub(crate) behind: Rows,
}

/// Marks a place, where there is one.
fn mark(marks: &mut Vec<bool>, place: usize)
    ensures { IsMarked marks.old.items marks.new.items place }
{
    if place < marks.len() {
        marks[place] = true;
    }
}

/// The places at which functions begin.
fn beginnings(alloc: Global, tac: &Tac) -> Result<Vec<bool>, NoMemory>
    ensures { IfOk result (λ v. BeginsUpTo tac.now (length tac.now.funcs) v.items) }
{
    let mut begins = vec![in alloc; false; tac.code.len()]?;
    for function in tac.funcs.as_slice() {
        mark(&mut begins, function.first as usize);
    }
    Ok(begins)
}

/// The place, where a function begins at it, else where the last one began.
fn later_first(begins: bool, at: usize, last: usize) -> usize
    ensures { result ≡ (if begins then at else last) }
{
    if begins { at } else { last }
}

/// Where the function of each place begins; 0 before any function.
fn firsts(alloc: Global, tac: &Tac) -> Result<Vec<usize>, NoMemory>
    ensures { IfOk result (λ v. FirstsUpTo tac.now (length tac.now.code) v.items) }
{
    let begins = beginnings(alloc, tac)?;
    let mut firsts = Vec::new(alloc);
    let mut last = 0;
    for (at, is_first) in begins.iter().enumerate() {
        last = later_first(*is_first, at, last);
        firsts.push(last)?;
    }
    Ok(firsts)
}

/// The function that an instruction calls.
fn called(instruction: Instr) -> Option<u32>
    ensures { result ≡ called instruction }
{
    match instruction {
        Instr::Call(_, function, _, _) => Some(function),
        _ => None,
    }
}

/// Where a function begins; the length of the code where there is no such function.
fn first_in(tac: &Tac, function: u32) -> usize
    ensures { result ≡ first_in tac.now function }
{
    match tac.funcs.get(function as usize) {
        Some(found) => found.first as usize,
        None => tac.code.len(),
    }
}

/// Adds the place behind an instruction to its function's, where it is a call.
fn add_behind(behind: &mut Rows, tac: &Tac, at: usize, instruction: Instr) -> Result<(), NoMemory>
    requires places { length behind.old.rows.items ≡ length tac.now.code }
    requires is { slice_get tac.now.code at ≡ Some instruction }
    requires within { at < length tac.now.code }
    ensures { OnOk result (Grows behind.old.rows.items behind.new.rows.items (IsBehindAt tac.now at)) }
{
    let _length = tac.code.len();
    if let Some(function) = called(instruction) {
        behind.add(first_in(tac, function), at + 1)?;
    }
    Ok(())
}

/// The places behind the calls of each function.
fn behind_calls(alloc: Global, tac: &Tac) -> Result<Rows, NoMemory>
    ensures { IfOk result (λ r. BehindUpTo tac.now (length tac.now.code) r.rows.items) }
{
    let mut behind = Rows::new(alloc, tac.code.len())?;
    for (at, instruction) in tac.code.as_slice().iter().enumerate() {
        add_behind(&mut behind, tac, at, *instruction)?;
    }
    Ok(behind)
}

impl Returns {
    /// Where the returns of a code lead.
    pub(crate) fn new(alloc: Global, tac: &Tac) -> Result<Returns, NoMemory>
        requires short { length tac.now.code < 4294967296 }
        ensures { IfOk result (λ r. AreReturns tac.now r.firsts.items r.behind.rows.items) }
    {
        Ok(Returns {
            firsts: firsts(alloc, tac)?,
            behind: behind_calls(alloc, tac)?,
        })
    }

    /// The places to which a return at a place leads: those behind the calls of its function.
    pub(crate) fn of(&self, tac: &Tac, at: u32) -> &[usize]
        requires tables { AreReturns tac.now self.now.firsts.items self.now.behind.rows.items }
        requires within { at < length tac.now.code }
        ensures { (to : ℕ) → In to result.now ↔ IsBehind tac.now (last_first at (tac.now).funcs) to }
    {
        let _tac = tac;
        self.behind.of(self.firsts[at as usize])
    }
}
