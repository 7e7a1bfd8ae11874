//! The outcomes of an event.

ghost use Rattle.std.specs.Prelude.{◌≡◌, ◌<◌, ◌≤◌, ◌⊎◌, ◌↔◌, length, map, IfOk};
ghost use Rattle.cc_base.specs.declared.outcomes.Outcome.{Outcome as PlainOutcome};
ghost use Rattle.cc_base.specs.Outcomes.{byte_of};
ghost use Rattle.cc_base.specs.Paths.{In, Ascend};
ghost use Rattle.sym_run.specs.Traces.{OffersFew, outcome_at, others_at};
ghost use Rattle.search_base.specs.Inserting.{IsPlace};

use crate::paths::byte;
use cc_model::base::{Items, NoMemory, Outcome};
use std::alloc::Global;
use sym_run::{Choice, Event};

/// The outcomes of choices.
fn outcomes(alloc: Global, choices: &[Choice]) -> Result<Vec<Outcome>, NoMemory>
    ensures { IfOk result (λ v. v.items ≡ map (λ c. c.outcome) choices.now) }
{
    let mut outcomes = Vec::new(alloc);
    for choice in choices {
        outcomes.push(choice.outcome)?;
    }
    Ok(outcomes)
}

/// The place of an outcome among outcomes that ascend.
fn place_of(outcomes: &[Outcome], own: Outcome) -> usize
    ensures { IsPlace (λ x. byte_of x < byte_of own) outcomes.now result }
{
    for i in 0..outcomes.len() {
        if byte(outcomes[i]) >= byte(own) {
            return i;
        }
    }
    outcomes.len()
}

/// An event's own outcome and the alternatives, ascending.
pub fn all_outcomes(alloc: Global, event: &Event) -> Result<Items<Outcome>, NoMemory>
    requires { OffersFew event.now }
    ensures ascend { IfOk result Ascend }
    ensures all { IfOk result (λ v. (o : PlainOutcome)
        → In o v ↔ ((o ≡ outcome_at event.now) ⊎ In o (others_at event.now))) }
    ensures few { IfOk result (λ v. length v ≤ 29) }
{
    let mut all = outcomes(alloc, event.others.as_slice())?;
    let at = place_of(all.as_slice(), event.taken.outcome);
    all.insert(at, event.taken.outcome)?;
    Ok(Items::from_vec(all))
}
