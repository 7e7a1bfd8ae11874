//! The line of a test, and the last line of a report.

ghost use Rattle.std.specs.Prelude.{◌≡◌, ◌++◌, nat_eq, IfOk, All};
ghost use Rattle.cc_base.specs.Outcomes.{HasByte};
ghost use Rattle.cc_model.specs.Listing.{test_item, Listing, counts_of};
ghost use Rattle.cc_model.specs.Report.{item_line, total, incomplete_line, last_line, verdict_of};
ghost use Rattle.search_dfs.specs.Explored.{Sums};

use crate::report::complete_line;
use cc_model::base::{NoMemory, Test};
use input_map::write_test;
use itoa::Buffer;
use search_dfs::Summary;
use std::alloc::Global;

/// The line of a test. Each object of its path has to have a letter.
pub fn test_line(alloc: Global, test: &Test) -> Result<Vec<u8>, NoMemory>
    requires { All HasByte (test.now).path }
    ensures { IfOk result (λ line. line.items ≡ item_line (test_item test.now)) }
{
    let text = write_test(alloc, test)?;
    let mut line = Vec::from_slice(alloc, b"test ")?;
    line.extend_from_slice(text.as_slice())?;
    line.push(b'\n')?;
    Ok(line)
}

/// The last line of a listing that is not complete: how many terms there are, how many solves passed the budget, how
/// many tests the bound on steps ended, how many runs left their prediction, and how many inputs were not run.
pub fn incomplete_line(
    alloc: Global,
    terms: u64,
    spent: u64,
    steps: u64,
    strays: u64,
    unrun: u64,
) -> Result<Vec<u8>, NoMemory>
    ensures { IfOk result (λ line. line.items
        ≡ incomplete_line (record { terms = terms; spent = spent; steps = steps; strays = strays; unrun = unrun })) }
{
    let mut number = Buffer::new();
    let mut line = Vec::from_slice(alloc, b"incomplete terms=")?;
    line.extend_from_slice(number.format(terms).as_bytes())?;
    line.extend_from_slice(b" spent=")?;
    line.extend_from_slice(number.format(spent).as_bytes())?;
    line.extend_from_slice(b" steps=")?;
    line.extend_from_slice(number.format(steps).as_bytes())?;
    line.extend_from_slice(b" strays=")?;
    line.extend_from_slice(number.format(strays).as_bytes())?;
    line.extend_from_slice(b" unrun=")?;
    line.extend_from_slice(number.format(unrun).as_bytes())?;
    line.push(b'\n')?;
    Ok(line)
}

/// Whether the five counts of a search are zero.
fn is_complete(summary: &Summary) -> bool
    ensures { (l : Listing) → Sums l summary.now → result ≡ nat_eq (total (counts_of l)) 0 }
{
    summary.terms == 0
        && summary.spent == 0
        && summary.steps == 0
        && summary.strays == 0
        && summary.unrun == 0
}

/// The last line of the report on a search.
pub fn last_line(alloc: Global, summary: &Summary) -> Result<Vec<u8>, NoMemory>
    ensures { IfOk result (λ line. (l : Listing) → Sums l summary.now → line.items ≡ last_line l) }
{
    if is_complete(summary) {
        return complete_line(alloc, summary.paths, summary.runs);
    }
    incomplete_line(
        alloc,
        summary.terms,
        summary.spent,
        summary.steps,
        summary.strays,
        summary.unrun,
    )
}

/// The status of the report on a search.
pub fn verdict(summary: &Summary) -> u8
    ensures { (l : Listing) → Sums l summary.now → result ≡ verdict_of l }
{
    match (is_complete(summary), summary.fault) {
        (true, false) => 0,
        (true, true) => 1,
        (false, false) => 10,
        (false, true) => 11,
    }
}
