//! The input that a word of the command line is.

ghost use Rattle.std.specs.Prelude.{◌≡◌, ◌⊎◌, IfOk, IfErr, Ok, Err};
ghost use Rattle.cc_base.specs.declared.inputs.Input.{Input as Seen};
ghost use Rattle.cc_model.specs.CheckedProgram.{core_of};
ghost use Rattle.cc_model.specs.Runs.{IsInput};
ghost use Rattle.input_map.specs.declared.faults.MapFault.{MapFault as Fault};
ghost use Rattle.input_map.specs.CellFaults.{Refused};
ghost use Rattle.input_map.specs.Maps.{IsMap};
ghost use Rattle.concolic_cli.specs.declared.refusal.Refusal.TheVariants as refusal;
ghost use Rattle.concolic_cli.specs.Refusals.{map_refusal};
ghost use Rattle.concolic_cli.specs.Session.{MapCause};

use crate::refusal::Refusal;
use cc_model::Checked;
use cc_model::base::{Bounds, Input};
use input_map::{MapFault, read_map};
use std::alloc::Global;

/// The refusal of a map with this fault.
fn refusal_of(fault: MapFault) -> Refusal
    ensures { result ≡ map_refusal fault }
{
    match fault {
        MapFault::Malformed(byte) => Refusal::Map(MapFault::Malformed(byte)),
        MapFault::NotCanonical(address) => Refusal::Map(MapFault::NotCanonical(address)),
        MapFault::Short => Refusal::Map(MapFault::Short),
        MapFault::Long(address) => Refusal::Map(MapFault::Long(address)),
        MapFault::OutOfBounds(address) => Refusal::Map(MapFault::OutOfBounds(address)),
        MapFault::StreamOutOfBounds(place) => Refusal::Map(MapFault::StreamOutOfBounds(place)),
        MapFault::NoMemory => Refusal::NoMemory,
    }
}

/// The input whose map text this is. A refusal gives the first reason why it is none of an input within bounds.
pub fn read_input(
    alloc: Global,
    text: &[u8],
    checked: &Checked,
    bounds: &Bounds,
) -> Result<Input, Refusal>
    ensures read { IfOk result (λ h. IsMap text.now h × IsInput (core_of checked.now) bounds.now h) }
    ensures map_refused { IfErr result (λ e. MapCause (core_of checked.now) bounds.now text.now e) }
    ensures whole { (h : Seen) → IsMap text.now h → IsInput (core_of checked.now) bounds.now h
        → (result ≡ Ok h) ⊎ (result ≡ Err refusal.NoMemory) }
    ensures refused { (f : Fault) → Refused (core_of checked.now) bounds.now text.now f
        → (result ≡ Err (refusal.Map f)) ⊎ (result ≡ Err refusal.NoMemory) }
{
    match read_map(alloc, text, checked, bounds) {
        Ok(input) => Ok(input),
        Err(fault) => Err(refusal_of(fault)),
    }
}
