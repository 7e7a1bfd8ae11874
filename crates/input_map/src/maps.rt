//! Inputs from their map texts.

ghost use Rattle.std.specs.Prelude.{◌≡◌, ◌<◌, ◌^◌, Some, None, Ok, Err, IfOk, if◌then◌else◌, length};
ghost use Rattle.cc_base.specs.Inputs.{map_text};
ghost use Rattle.cc_base.specs.declared.inputs.Input.{Input as Seen};
ghost use Rattle.cc_model.specs.Core.{Program};
ghost use Rattle.cc_model.specs.CheckedProgram.{core_of};
ghost use Rattle.cc_model.specs.Graphs.{PointsToCells};
ghost use Rattle.cc_model.specs.Runs.{IsInput, params_of};
ghost use Rattle.input_map.specs.declared.faults.MapFault.{MapFault as Fault};
ghost use Rattle.input_map.specs.Maps.{IsMap};
ghost use Rattle.input_map.specs.CellFaults.{is_within, stream_fault, Refused, Answers, IsOrNoMemory};
ghost use Rattle.input_map.specs.Standing.{Judges};

use crate::checking::check_cells;
use crate::faults::MapFault;
use crate::params::param_cells;
use crate::reading::{Numbers, read_form};
use cc_model::Checked;
use cc_model::base::{Bounds, Input};
use sqlite_items::Items;
use std::alloc::Global;

/// The number, where it is within the bounds.
fn within(bounds: &Bounds, number: i64) -> Option<i32>
    ensures { result ≡ (if is_within bounds.now number then Some number else None) }
{
    let low = i64::from(bounds.lo());
    let high = i64::from(bounds.hi());
    if low <= number && number <= high {
        Some(number as i32)
    } else {
        None
    }
}

/// The numbers of a stream, where each is within the bounds.
fn take_stream(alloc: Global, bounds: &Bounds, stream: &[i64]) -> Result<Items<i32>, MapFault>
    ensures read { IfOk result (λ l. l ≡ stream.now) }
    ensures judged { Judges result (stream_fault bounds.now 1 stream.now) }
{
    let mut numbers = Items::new(alloc);
    for (at, number) in stream.iter().enumerate() {
        match within(bounds, *number) {
            None => return Err(MapFault::StreamOutOfBounds(at as u64 + 1)),
            Some(number) => numbers.push(number)?,
        }
    }
    Ok(numbers)
}

/// The input of a map text, with its one clause.
fn read(alloc: Global, text: &[u8], checked: &Checked, bounds: &Bounds) -> Result<Input, MapFault>
    ensures { Answers (core_of checked.now) bounds.now text.now result }
{
    let numbers = read_form(alloc, text)?;
    let params = param_cells(alloc, checked)?;
    check_cells(alloc, checked, bounds, params, numbers.cells.as_slice())?;
    let numbers_read = take_stream(alloc, bounds, numbers.stream.as_slice())?;
    let Numbers { cells, stream: _ } = numbers;
    Ok(Input {
        cells,
        stream: numbers_read,
    })
}

/// The input of a map text. A refusal gives the first of its reasons: that the text is no map text, then the first cell
/// that breaks the rule of inputs, then the first number of the stream that is out of bounds.
pub fn read_map(
    alloc: Global,
    text: &[u8],
    checked: &Checked,
    bounds: &Bounds,
) -> Result<Input, MapFault>
    ensures answer { Answers (core_of checked.now) bounds.now text.now result }
    ensures read { (h : Seen) → IsMap text.now h → IsInput (core_of checked.now) bounds.now h
        → IsOrNoMemory result (Ok h) }
    ensures refused { (f : Fault) → Refused (core_of checked.now) bounds.now text.now f → IsOrNoMemory result (Err f) }
{
    read(alloc, text, checked, bounds)
}

/// An input within bounds, of fewer than 10^18 cells, has a map text, where each type that a pointer cell points to has
/// a cell.
pub fn an_input_has_a_map_text(bounds: &Bounds)
    ensures { (p : Program) (h : Seen) → PointsToCells p.layouts (params_of p) → IsInput p bounds.now h
        → length h.cells < 10 ^ 18 → IsMap (map_text h) h }
{
    let _low = bounds.lo();
    let _high = bounds.hi();
}
