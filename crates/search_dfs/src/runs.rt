//! The runs that a search keeps.

ghost use Rattle.std.specs.Prelude.{◌≡◌, ◌<◌, ◌≤◌, ◌^◌, ◌∷◌, [], List, length, IfOk};
ghost use Rattle.search_dfs.specs.declared.open.Pending.{Pending as Kept};
ghost use Rattle.flip_solve.specs.Needed.{bare_first};
ghost use Rattle.search_base.specs.Setting.{within_of};
ghost use Rattle.search_dfs.specs.Setting.{TraceOf, ChoicesOf, own_at};
ghost use Rattle.search_dfs.specs.Stack.{last_first, left_at};
ghost use Rattle.search_dfs.specs.Task.{setting_of, Known};

use crate::open::Pending;
use crate::task::Task;
use cc_model::base::{Input, Items, NoMemory, Outcome};
use search_base::all_outcomes;
use std::alloc::Global;
use sym_run::{Event, Trace, run};

/// The last run.
pub(crate) fn last_run(runs: &Items<Pending>) -> &Pending
    requires { 0 < length runs.now }
    ensures { (r : Kept) (rs : List Kept) → last_first runs.now ≡ r ∷ rs → result.now ≡ r }
{
    let last = runs.len() - 1;
    &runs.as_slice()[last]
}

/// The run's outcome at event k.
pub(crate) fn own_outcome(run: &Pending, k: u32) -> Outcome
    requires { k < length (run.now).path }
    ensures { result ≡ own_at k (run.now).path }
{
    run.path.as_slice()[k as usize]
}

/// Drops the last run where it was entered at this depth.
pub(crate) fn leave(runs: &mut Items<Pending>, depth: u32)
    requires { 0 < length runs.old }
    ensures { (r : Kept) (rs : List Kept) → last_first runs.old ≡ r ∷ rs
        → last_first runs.new ≡ left_at depth (r ∷ rs) }
{
    let last = runs.len() - 1;
    if runs.as_slice()[last].from == depth {
        let _run = runs.pop();
    }
}

/// The outcomes of event k of a run: its own and the alternatives, ascending.
pub(crate) fn choices_of(task: &Task<'_>, run: &Pending, k: u32) -> Result<Items<Outcome>, NoMemory>
    requires trace { TraceOf (setting_of task.now) (run.now).from (run.now).trace (run.now).path }
    requires entered { (run.now).from ≤ k }
    requires event { k < length (run.now).path }
    ensures { IfOk result (λ v. ChoicesOf (setting_of task.now) ((run.now).trace).input k v) }
{
    let all = all_outcomes(task.alloc, &run.trace.events.as_slice()[k as usize])?;
    Ok(all)
}

/// An event without its alternatives.
fn bare(alloc: Global, event: Event) -> Event
    ensures { result ≡ record event { others = [] } }
{
    let Event {
        site,
        taken,
        places,
        ..
    } = event;
    Event {
        site,
        taken,
        others: Items::new(alloc),
        places,
    }
}

/// Events, the first `number` of them without their alternatives.
fn bare_first(
    alloc: Global,
    mut events: Items<Event>,
    number: u32,
) -> Result<Items<Event>, NoMemory>
    ensures { IfOk result (λ l. l ≡ bare_first number events) }
{
    let mut kept = Vec::new(alloc);
    'events: while let Some(event) = events.pop() {
        if events.len() < number as usize {
            kept.push(bare(alloc, event))?;
        } else {
            kept.push(event)?;
        }
    }
    kept.reverse();
    Ok(Items::from_vec(kept))
}

/// A trace, its first `number` events without their alternatives.
fn bare_trace(alloc: Global, trace: Trace, number: u32) -> Result<Trace, NoMemory>
    ensures { IfOk result (λ t. t ≡ record trace { events = bare_first number trace.events }) }
{
    let Trace {
        input,
        events,
        places,
        end,
        clean_to,
        terms,
    } = trace;
    let events = bare_first(alloc, events, number)?;
    Ok(Trace {
        input,
        events,
        places,
        end,
        clean_to,
        terms,
    })
}

/// A new run on an input, entered at this depth. It keeps no alternatives of earlier events.
pub(crate) fn made_run(task: &Task<'_>, input: &Input, from: u32) -> Result<Pending, NoMemory>
    requires known { Known task.now }
    requires within { within_of (setting_of task.now) input.now }
    requires few { length (input.now).cells < 10 ^ 18 }
    ensures trace { IfOk result (λ r. TraceOf (setting_of task.now) r.from r.trace r.path) }
    ensures input { IfOk result (λ r. (r.trace).input ≡ input.now) }
    ensures from { IfOk result (λ r. r.from ≡ from) }
{
    let _depth = task.bounds.depth();
    let trace = run(task.alloc, task.checked, task.tac, input, task.bounds)?;
    let path = trace.path(task.alloc)?;
    let trace = bare_trace(task.alloc, trace, from)?;
    Ok(Pending { trace, path, from })
}
