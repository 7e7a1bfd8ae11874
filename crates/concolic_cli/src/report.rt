//! The lines of a report.

ghost use Rattle.std.specs.Prelude.{◌≡◌, ◌++◌, ◌^◌, ◌<◌, ◌≤◌, IfOk, codes};
ghost use Rattle.std.specs.Fmt.{decimal};
ghost use Rattle.cc_model.specs.Report.{bounds_line, newline, is_fault};

use cc_model::base::{Bounds, End, NoMemory};
use itoa::Buffer;
use std::alloc::Global;

/// The first line of a report.
pub fn bounds_line(alloc: Global, bounds: &Bounds) -> Result<Vec<u8>, NoMemory>
    ensures { IfOk result (λ line. line.items ≡ bounds_line bounds.now) }
{
    let mut number = Buffer::new();
    let mut line = Vec::from_slice(alloc, b"bounds min=")?;
    line.extend_from_slice(number.format(bounds.lo()).as_bytes())?;
    line.extend_from_slice(b" max=")?;
    line.extend_from_slice(number.format(bounds.hi()).as_bytes())?;
    line.extend_from_slice(b" depth=")?;
    line.extend_from_slice(number.format(bounds.depth()).as_bytes())?;
    line.extend_from_slice(b" objects=")?;
    line.extend_from_slice(number.format(bounds.objects()).as_bytes())?;
    line.extend_from_slice(b" steps=")?;
    line.extend_from_slice(number.format(bounds.steps()).as_bytes())?;
    line.push(b'\n')?;
    Ok(line)
}

/// The last line of a listing that is complete: how many tests are listed, and how many runs were made.
pub fn complete_line(alloc: Global, paths: u64, runs: u64) -> Result<Vec<u8>, NoMemory>
    ensures { IfOk result (λ line. line.items
        ≡ codes "complete paths=" ++ decimal paths ++ codes " runs=" ++ decimal runs ++ newline) }
{
    let mut number = Buffer::new();
    let mut line = Vec::from_slice(alloc, b"complete paths=")?;
    line.extend_from_slice(number.format(paths).as_bytes())?;
    line.extend_from_slice(b" runs=")?;
    line.extend_from_slice(number.format(runs).as_bytes())?;
    line.push(b'\n')?;
    Ok(line)
}

/// Whether a run ends as a fault.
pub fn is_fault(end: End) -> bool
    ensures { result ≡ is_fault end }
{
    match end {
        End::Fault(_, _) => true,
        End::Return | End::Assume | End::Cut | End::Objects | End::Steps => false,
    }
}
