//! Turning an event.

ghost use Rattle.std.specs.Prelude.{◌≡◌, ◌<◌, Some, slice_get, IfOk};
ghost use Rattle.cc_base.specs.Paths.{In};
ghost use Rattle.cc_model.specs.CheckedProgram.{core_of};
ghost use Rattle.cc_model.specs.Conditions.{AnswersAt};
ghost use Rattle.cc_model.specs.Graphs.{PointsToCells};
ghost use Rattle.cc_model.specs.Runs.{params_of, IsInput};
ghost use Rattle.cc_laws.specs.LinearForms.{linear};
ghost use Rattle.sym_run.specs.declared.trace.Event.{Event as PlainEvent};
ghost use Rattle.sym_run.specs.Traces.{others_at};
ghost use Rattle.run_laws.specs.Lawful.{Lawful};
ghost use Rattle.flip_solve.specs.Needed.{IsTraceFrom};
ghost use Rattle.flip_solve.specs.Settling.{answer_of};
ghost use Rattle.flip_solve.specs.Turning.{turned_at, IsTurnedIf, HasNoneIf, KeepsIf};

use crate::gathering::{atoms_for, taken_at};
use crate::solving::settle;
use cc_laws::{conditions_are_exact, outcomes_are_exhausted, tracing_adds_nothing};
use cc_model::Checked;
use cc_model::base::{Bounds, Input, NoMemory, Outcome};
use std::alloc::Global;
use sym_run::Trace;

/// So many atoms are never asked: a run has at most 1,024 events.
const MOST_ATOMS: usize = 1 << 28;

/// What comes of turning an event.
#[derive(Drop)]
pub enum Turned {
    /// This input takes the other outcome.
    Turned(Input),
    /// No input takes it.
    Never,
    /// Within the budget there is no answer.
    Spent,
}

/// An input that takes another outcome at an event of a run, where there is one, and where the budget of each group of
/// atoms suffices to tell. The trace needs no alternatives of earlier events.
///
/// It has the run's own numbers where none of the atoms that had to be solved names them. Two pointers are the same, or
/// NULL, only where the atoms force it, or, for NULL, where no atom names the pointer. The rest of it is that of the
/// base input.
///
/// No memory, too, where 2^28 atoms or more are asked.
pub fn turn(
    alloc: Global,
    checked: &Checked,
    trace: &Trace,
    k: u32,
    outcome: Outcome,
    bounds: &Bounds,
    budget: u64,
) -> Result<Turned, NoMemory>
    requires points { PointsToCells (core_of checked.now).layouts (params_of (core_of checked.now)) }
    requires input { IsInput (core_of checked.now) bounds.now (trace.now).input }
    requires trace { IsTraceFrom k checked.now bounds.now (trace.now).input trace.now }
    requires lawful { Lawful (core_of checked.now) bounds.now (trace.now).input }
    requires offered { (e : PlainEvent) × (slice_get (trace.now).events k ≡ Some e) × In outcome (others_at e) }
    ensures answer { IfOk result (λ a. AnswersAt linear (core_of checked.now) bounds.now budget (trace.now).input
        (turned_at (core_of checked.now) bounds.now (trace.now).input k outcome) (answer_of a)) }
    ensures turned { IfOk result (λ a. IsTurnedIf (core_of checked.now) bounds.now (trace.now).input k outcome a) }
    ensures never { IfOk result (λ a. HasNoneIf (core_of checked.now) bounds.now (trace.now).input k outcome a) }
    ensures keeps { IfOk result (λ a. (e : PlainEvent) → slice_get (trace.now).events k ≡ Some e
        → KeepsIf (core_of checked.now) bounds.now (trace.now).input k outcome e.places a) }
{
    conditions_are_exact();
    outcomes_are_exhausted();
    tracing_adds_nothing();
    let _lowest = bounds.lo();
    let events = trace.events.as_slice();
    let event = &events[k as usize];
    let condition = taken_at(alloc, &events[..k as usize])?;
    let alternative = atoms_for(event.others.as_slice(), outcome);
    if condition.len() >= MOST_ATOMS || alternative.len() >= MOST_ATOMS - condition.len() {
        return Err(NoMemory);
    }
    settle(
        alloc,
        checked,
        &trace.places,
        event.places,
        condition.as_slice(),
        alternative,
        &trace.input,
        bounds,
        budget,
    )
}
