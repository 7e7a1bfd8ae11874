//! The report on the search of a program.

ghost use Rattle.std.specs.Prelude.{◌≡◌, ◌^◌, ◌<◌, ◌≤◌, IfOk, IfErr, OnErr, option_map};
ghost use Rattle.cc_model.specs.CheckedProgram.{core_of};
ghost use Rattle.cc_model.specs.Graphs.{PointsToCells};
ghost use Rattle.cc_model.specs.Runs.{params_of};
ghost use Rattle.search_dfs.specs.Explored.{Explored, ExploredSome};
ghost use Rattle.search_base.specs.Setting.{setting};
ghost use Rattle.concolic_cli.specs.Compiling.{Compiles, WroteListing, WroteSome};
ghost use Rattle.concolic_cli.specs.Session.{WriteCause};

use crate::answers::Status;
use crate::lines::write_line;
use crate::listing::{last_line, verdict};
use crate::prepared::Compiled;
use crate::refusal::Refusal;
use crate::report::bounds_line;
use cc_model::base::{Bounds, PathText};
use cc_outside::Sink;
use search_dfs::{SearchFault, Summary, Task, explore};
use std::alloc::Global;

/// Searches the paths of a program, and writes the lines of the listing.
pub fn search<K: Sink>(
    alloc: Global,
    compiled: &Compiled,
    bounds: &Bounds,
    runs: u32,
    budget: u64,
    after: Option<&PathText>,
    out: &mut K,
) -> Result<Summary, Refusal>
    requires compiles { Compiles compiled.now.checked compiled.now.tac }
    requires points { PointsToCells (core_of compiled.now.checked).layouts (params_of (core_of compiled.now.checked)) }
    requires runs { 1 ≤ runs }
    ensures explored { IfOk result (λ s. Explored (setting compiled.now.checked bounds.now budget)
        (option_map (λ r. r.now) after.entry) runs (K.written out.old) (K.written out.new) s) }
    ensures some { OnErr result (ExploredSome (setting compiled.now.checked bounds.now budget)
        (option_map (λ r. r.now) after.entry) (K.written out.old) (K.written out.new)) }
    ensures cause { IfErr result (λ e. WriteCause (K.faults out.old) (K.faults out.new) e) }
    ensures never_falls { K.faults out.old ≤ K.faults out.new }
{
    let task = Task {
        alloc,
        checked: &compiled.checked,
        tac: &compiled.tac,
        bounds,
        limit: runs,
        budget,
        after,
    };
    match explore(&task, out) {
        Ok(summary) => Ok(summary),
        Err(SearchFault::Sink) => Err(Refusal::OutputFailed),
        Err(SearchFault::NoMemory) => Err(Refusal::NoMemory),
    }
}

/// Searches the paths of a program, and writes the report, each line by a write of its own. The status is the verdict.
pub fn write_listing<K: Sink>(
    alloc: Global,
    compiled: &Compiled,
    bounds: &Bounds,
    runs: u32,
    budget: u64,
    after: Option<&PathText>,
    out: &mut K,
) -> Result<Status, Refusal>
    requires compiles { Compiles compiled.now.checked compiled.now.tac }
    requires points { PointsToCells (core_of compiled.now.checked).layouts (params_of (core_of compiled.now.checked)) }
    requires runs { 1 ≤ runs }
    ensures ok { IfOk result (λ s. WroteListing compiled.now.checked bounds.now (option_map (λ r. r.now) after.entry)
        (K.written out.old) (K.written out.new) runs budget s.0) }
    ensures part { OnErr result (WroteSome compiled.now.checked bounds.now (option_map (λ r. r.now) after.entry)
        (K.written out.old) (K.written out.new)) }
    ensures cause { IfErr result (λ e. WriteCause (K.faults out.old) (K.faults out.new) e) }
{
    let Ok(first) = bounds_line(alloc, bounds) else {
        return Err(Refusal::NoMemory);
    };
    write_line(out, &first)?;
    let summary = search(alloc, compiled, bounds, runs, budget, after, out)?;
    let Ok(last) = last_line(alloc, &summary) else {
        return Err(Refusal::NoMemory);
    };
    write_line(out, &last)?;
    Ok(Status(verdict(&summary)))
}
