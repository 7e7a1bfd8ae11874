//! The report on a walk over the runs of a program.

ghost use Rattle.std.specs.Prelude.{◌≡◌, ◌^◌, ◌<◌, ◌≤◌, IfOk, IfErr, OnErr, true, false, if◌then◌else◌};
ghost use Rattle.cc_model.specs.declared.commands.Strategy.TheVariants.{Dfs};
ghost use Rattle.cc_model.specs.CheckedProgram.{core_of};
ghost use Rattle.cc_model.specs.Graphs.{PointsToCells};
ghost use Rattle.cc_model.specs.Runs.{params_of};
ghost use Rattle.search_walks.specs.Output.{WalkedWhole, WalkedPart, ended_line};
ghost use Rattle.search_walks.specs.Walks.{WalkOf};
ghost use Rattle.search_base.specs.Setting.{setting};
ghost use Rattle.concolic_cli.specs.Compiling.{Compiles};
ghost use Rattle.concolic_cli.specs.Session.{WriteCause};
ghost use Rattle.concolic_cli.specs.WalkReports.{WroteWalk, WroteWalkSome};

use crate::answers::Status;
use crate::lines::write_line;
use crate::prepared::Compiled;
use crate::refusal::Refusal;
use crate::report::bounds_line;
use cc_model::RunWords;
use cc_model::base::NoMemory;
use cc_outside::Sink;
use itoa::Buffer;
use search_walks::{SearchFault, Task, WalkSummary, walk};
use std::alloc::Global;

/// Walks over the runs of a program by the strategy of the words, and writes the lines of the walk.
fn walk_lines<K: Sink>(
    alloc: Global,
    compiled: &Compiled,
    words: &RunWords,
    out: &mut K,
) -> Result<WalkSummary, Refusal>
    requires compiles { Compiles compiled.now.checked compiled.now.tac }
    requires points { PointsToCells (core_of compiled.now.checked).layouts (params_of (core_of compiled.now.checked)) }
    requires runs { 1 ≤ (words.now).runs }
    requires walk { (words.now).strategy ≡ Dfs → ⊥ }
    ensures walked { IfOk result (λ w. WalkedWhole (setting compiled.now.checked (words.now).bounds (words.now).budget)
        (λ l. WalkOf (words.now).strategy (setting compiled.now.checked (words.now).bounds (words.now).budget)
        compiled.now.tac (words.now).runs (words.now).seed false l) (K.written out.old) (K.written out.new) w) }
    ensures part { OnErr result (WalkedPart (setting compiled.now.checked (words.now).bounds (words.now).budget)
        (λ l. WalkOf (words.now).strategy (setting compiled.now.checked (words.now).bounds (words.now).budget)
        compiled.now.tac (words.now).runs (words.now).seed true l) (K.written out.old) (K.written out.new)) }
    ensures cause { IfErr result (λ e. WriteCause (K.faults out.old) (K.faults out.new) e) }
    ensures never_falls { K.faults out.old ≤ K.faults out.new }
{
    let task = Task {
        alloc,
        checked: &compiled.checked,
        tac: &compiled.tac,
        bounds: &words.bounds,
        limit: words.runs,
        budget: words.budget,
    };
    match walk(&task, words.strategy, words.seed, out) {
        Ok(summary) => Ok(summary),
        Err(SearchFault::Sink) => Err(Refusal::OutputFailed),
        Err(SearchFault::NoMemory) => Err(Refusal::NoMemory),
    }
}

/// The last line of the report on a walk: how many runs were made, and how many outcomes of decisions they took, of how
/// many.
fn ended_line(alloc: Global, summary: &WalkSummary) -> Result<Vec<u8>, NoMemory>
    ensures { IfOk result (λ line. line.items ≡ ended_line summary.now) }
{
    let mut number = Buffer::new();
    let mut line = Vec::from_slice(alloc, b"ended runs=")?;
    line.extend_from_slice(number.format(summary.runs).as_bytes())?;
    line.extend_from_slice(b" covered=")?;
    line.extend_from_slice(number.format(summary.covered).as_bytes())?;
    line.extend_from_slice(b" of ")?;
    line.extend_from_slice(number.format(summary.outcomes).as_bytes())?;
    line.push(b'\n')?;
    Ok(line)
}

/// The status of a walk: 1 where a run ends as a fault, else 0.
fn status_of(fault: bool) -> u8
    ensures { result ≡ (if fault then 1 else 0) }
{
    if fault { 1 } else { 0 }
}

/// Walks over the runs of a program, and writes the report, each line by a write of its own. The status is 1 where a
/// run ends as a fault, else 0.
pub fn write_walk<K: Sink>(
    alloc: Global,
    compiled: &Compiled,
    words: &RunWords,
    out: &mut K,
) -> Result<Status, Refusal>
    requires compiles { Compiles compiled.now.checked compiled.now.tac }
    requires points { PointsToCells (core_of compiled.now.checked).layouts (params_of (core_of compiled.now.checked)) }
    requires runs { 1 ≤ (words.now).runs }
    requires walk { (words.now).strategy ≡ Dfs → ⊥ }
    ensures ok { IfOk result (λ s. WroteWalk compiled.now.checked compiled.now.tac (words.now).strategy
        (words.now).bounds (words.now).runs (words.now).budget (words.now).seed (K.written out.old)
        (K.written out.new) s.0) }
    ensures part { OnErr result (WroteWalkSome compiled.now.checked compiled.now.tac (words.now).strategy
        (words.now).bounds (words.now).runs (words.now).budget (words.now).seed (K.written out.old)
        (K.written out.new)) }
    ensures cause { IfErr result (λ e. WriteCause (K.faults out.old) (K.faults out.new) e) }
{
    let _lowest = words.bounds.lo();
    let Ok(first) = bounds_line(alloc, &words.bounds) else {
        return Err(Refusal::NoMemory);
    };
    write_line(out, &first)?;
    let summary = walk_lines(alloc, compiled, words, out)?;
    let Ok(last) = ended_line(alloc, &summary) else {
        return Err(Refusal::NoMemory);
    };
    write_line(out, &last)?;
    Ok(Status(status_of(summary.fault)))
}
