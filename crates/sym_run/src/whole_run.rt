//! The whole run of a checked program's code on an input.

ghost use Rattle.std.specs.Prelude.{◌≡◌, ℕ, map, slice_get, Some, [], IfOk, ◌≤◌, ◌<◌, ◌^◌, length, unwrap_or, All};
ghost use Rattle.cc_base.specs.declared.inputs.Input.{Input as PlainInput};
ghost use Rattle.cc_base.specs.Limits.{Limits};
ghost use Rattle.cc_base.specs.Outcomes.{HasByte};
ghost use Rattle.cc_model.specs.declared.checked.Checked.{Checked as PlainChecked};
ghost use Rattle.cc_model.specs.CheckedProgram.{core_of};
ghost use Rattle.cc_model.specs.Compiles.{Compiles};
ghost use Rattle.cc_model.specs.Graphs.{PointsToCells};
ghost use Rattle.cc_model.specs.Runs.{params_of, IsInput, path_at, end_at, run_of};
ghost use Rattle.tac_lower.specs.Finished.{first_in};
ghost use Rattle.tac_lower.specs.Seen.{seen};
ghost use Rattle.sym_run.specs.declared.trace.Event.{Event as PlainEvent};
ghost use Rattle.sym_run.specs.Stands.{setting};
ghost use Rattle.sym_run.specs.Running.{Came, Ended};
ghost use Rattle.sym_run.specs.Placing.{ArePlaces};
ghost use Rattle.sym_run.specs.Traces.{IsTrace, ArePlain, OffersFew, NamesPlaces, outcome_at};

use crate::journal::Journal;
use crate::machine::{Fixed, Machine};
use crate::objects::Objects;
use crate::start::begin;
use crate::trace::{Event, Trace};
use cc_model::Checked;
use cc_model::base::{Bounds, End, Input, Items, NoMemory, PathText};
use std::alloc::Global;
use tac_lower::Tac;

impl Machine {
    /// Goes on to the end of the run. No memory, too, where 2^64 - 1 instructions were not enough.
    fn finish(&mut self, fixed: &Fixed<'_>) -> Result<End, NoMemory>
        requires came { Came (setting fixed.now.checked.now fixed.now.tac.now fixed.now.bounds.now fixed.now.input.now)
            self.old }
        requires compiles { Compiles (core_of fixed.now.checked.now)
            (map (seen fixed.now.checked.now) fixed.now.tac.now.code) (λ f. first_in fixed.now.tac.now f) }
        ensures { IfOk result (λ end. Ended
            (setting fixed.now.checked.now fixed.now.tac.now fixed.now.bounds.now fixed.now.input.now) self.new end) }
    {
        'instructions: for _number in 0..u64::MAX {
            if let Some(end) = self.step(fixed)? {
                return Ok(end);
            }
        }
        Err(NoMemory)
    }
}

/// A copy of an input.
fn copied(alloc: Global, input: &Input) -> Result<Input, NoMemory>
    ensures { IfOk result (λ h. h ≡ input.now) }
{
    let cells = Items::from_slice(alloc, input.cells.as_slice())?;
    let stream = Items::from_slice(alloc, input.stream.as_slice())?;
    Ok(Input { cells, stream })
}

/// How many events came before the first one of a term.
fn clean_to(journal: &Journal) -> u32
    requires { length journal.now.events < 2 ^ 32 }
    ensures { result ≡ unwrap_or journal.now.clean (length journal.now.events) }
{
    match journal.clean {
        Some(count) => count,
        None => journal.events.len() as u32,
    }
}

/// The trace of a run that a machine did.
fn trace_of(machine: Machine, input: Input, end: End) -> Trace
    requires { length machine.journal.events < 2 ^ 32 }
    ensures { result ≡ record {
      input = input;
      events = machine.journal.events;
      places = machine.objects.places;
      end = end;
      clean_to = unwrap_or machine.journal.clean
          (length machine.journal.events);
      terms = machine.journal.terms;
    } }
{
    let Machine {
        journal,
        objects,
        ..
    } = machine;
    let clean_to = clean_to(&journal);
    let Journal { events, terms, .. } = journal;
    let Objects { places, .. } = objects;
    Trace {
        input,
        events,
        places,
        end,
        clean_to,
        terms,
    }
}

/// The traced run of a checked program's code on an input within the bounds. No memory, too, where a number that a
/// global starts with has more than 32 bits, the code lacks what the code of a program has, or 2^64 - 1 instructions
/// were not enough.
pub fn run(
    alloc: Global,
    checked: &Checked,
    tac: &Tac,
    input: &Input,
    bounds: &Bounds,
) -> Result<Trace, NoMemory>
    requires compiles { Compiles (core_of checked.now) (map (seen checked.now) tac.now.code) (λ f. first_in tac.now f) }
    requires points { PointsToCells (core_of checked.now).layouts (params_of (core_of checked.now)) }
    requires input { IsInput (core_of checked.now) bounds.now input.now }
    ensures trace { IfOk result (λ t. IsTrace checked.now bounds.now input.now t) }
    ensures short { IfOk result (λ t. length t.events ≤ bounds.now.depth) }
    ensures no_offer { IfOk result (λ t. (e : PlainEvent) → slice_get t.events t.clean_to ≡ Some e → e.others ≡ []) }
    ensures few { IfOk result (λ t. (k : ℕ) (e : PlainEvent) → slice_get t.events k ≡ Some e → OffersFew e) }
    ensures plain { IfOk result (λ t. ArePlain checked.now
        (run_of (core_of checked.now) bounds.now input.now).log t.events) }
    ensures end_of_run { IfOk result (λ t. t.end ≡ end_at (core_of checked.now) bounds.now input.now) }
    ensures bytes { IfOk result (λ t. All HasByte (map outcome_at t.events)) }
    ensures places { IfOk result (λ t. ArePlaces (params_of (core_of checked.now))
        (core_of checked.now).layouts t.places) }
    ensures names { IfOk result (λ t. (k : ℕ) (e : PlainEvent) → slice_get t.events k ≡ Some e
        → NamesPlaces t.places e) }
{
    let fixed = Fixed {
        alloc,
        checked,
        tac,
        input,
        bounds,
    };
    let _depth = bounds.depth();
    let mut machine = begin(&fixed)?;
    let end = machine.finish(&fixed)?;
    let input = copied(alloc, input)?;
    Ok(trace_of(machine, input, end))
}

/// The outcomes of events, in order.
fn outcomes(alloc: Global, events: &[Event]) -> Result<PathText, NoMemory>
    ensures { IfOk result (λ p. p ≡ map outcome_at events.now) }
{
    let mut path = Items::new(alloc);
    for event in events {
        path.push(event.taken.outcome)?;
    }
    Ok(path)
}

impl Trace {
    /// The outcomes of the run, in order.
    pub fn path(&self, alloc: Global) -> Result<PathText, NoMemory>
        ensures outcomes { IfOk result (λ p. p ≡ map outcome_at self.now.events) }
        ensures path { IfOk result (λ p. (c : PlainChecked) (b : Limits) (h : PlainInput) → IsTrace c b h self.now
            → p ≡ path_at (core_of c) b h) }
    {
        let path = outcomes(alloc, self.events.as_slice())?;
        Ok(path)
    }
}
