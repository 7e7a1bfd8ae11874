//! From the bytes of a source to what is written of its tested function.

ghost use Rattle.std.specs.Prelude.{◌≡◌, ℕ, ◌^◌, ◌<◌, ◌≤◌, IfOk, IfErr, length, unwrap_or, slice_get};
ghost use Rattle.cc_model.specs.CheckedProgram.{core_of};
ghost use Rattle.cc_model.specs.Runs.{IsInput};
ghost use Rattle.report_words.specs.Words.{HasLine};
ghost use Rattle.concolic_cli.specs.Compiling.{IsCompiled};
ghost use Rattle.concolic_cli.specs.Prepared.{IsRead, IsRun, IsTraced};
ghost use Rattle.concolic_cli.specs.Programs.{IsNoProgram};
ghost use Rattle.concolic_cli.specs.Session.{SourceCause};
ghost use Rattle.concolic_cli.specs.Tasks.{trace};

use crate::map_words::read_input;
use crate::program::{Source, read_program};
use crate::refusal::Refusal;
use cc_laws::a_checked_program_points_to_cells;
use cc_model::Checked;
use cc_model::base::{Bounds, End, Input, NoMemory};
use std::alloc::Global;
use sym_run::{Trace, run};
use tac_lower::{Tac, lower};

/// Lines have 64 bits.
fn narrow_lines(lines: &[u32])
    ensures { (k : ℕ) → unwrap_or (slice_get lines.now k) 0 < 2 ^ 64 }
{}

/// The line of an end has 32 bits.
fn line_fits(end: End)
    ensures { HasLine end }
{}

/// The run of a checked program on an input within the bounds.
fn run_on(
    alloc: Global,
    checked: &Checked,
    input: &Input,
    bounds: &Bounds,
) -> Result<Trace, NoMemory>
    requires read { IsRead checked.now }
    requires input { IsInput (core_of checked.now) bounds.now input.now }
    ensures run { IfOk result (λ t. IsRun checked.now bounds.now t) }
    ensures same { IfOk result (λ t. t.input ≡ input.now) }
{
    a_checked_program_points_to_cells();
    let tac = lower(alloc, checked)?;
    let trace = run(alloc, checked, &tac, input, bounds)?;
    narrow_lines(checked.lines.as_slice());
    line_fits(trace.end);
    Ok(trace)
}

/// A checked program, and its code.
#[derive(Drop)]
pub struct Compiled {
    pub checked: Checked,
    pub tac: Tac,
}

/// The program of a source, checked, and its code.
pub fn compile(alloc: Global, source: &[u8], entry: &str) -> Result<Compiled, Refusal>
    requires { length source.now ≤ 1048576 }
    ensures compiled { IfOk result (λ c. IsCompiled source.now entry.now c) }
    ensures refused { IfErr result (λ e. IsNoProgram source.now entry.now e) }
{
    a_checked_program_points_to_cells();
    let read = read_program(alloc, source, entry)?;
    let Source { checked, .. } = read;
    match lower(alloc, &checked) {
        Ok(tac) => Ok(Compiled { checked, tac }),
        Err(NoMemory) => Err(Refusal::NoMemory),
    }
}

/// A checked program, and a run of it.
#[derive(Drop)]
pub struct Traced {
    pub checked: Checked,
    pub trace: Trace,
}

/// A checked program, and its run on the input of a map text.
pub fn prepare_trace(
    alloc: Global,
    source: &[u8],
    entry: &str,
    map: &str,
    bounds: &Bounds,
) -> Result<Traced, Refusal>
    requires { length source.now ≤ 1048576 }
    ensures traced { IfOk result (λ t. IsTraced source.now entry.now map.now bounds.now t) }
    ensures refused { IfErr result (λ e. SourceCause source.now entry.now (trace bounds.now map.now) e) }
{
    let read = read_program(alloc, source, entry)?;
    let Source { checked, .. } = read;
    let input = read_input(alloc, map.as_bytes(), &checked, bounds)?;
    match run_on(alloc, &checked, &input, bounds) {
        Ok(trace) => Ok(Traced { checked, trace }),
        Err(NoMemory) => Err(Refusal::NoMemory),
    }
}
