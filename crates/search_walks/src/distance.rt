//! The flow distance of outcomes.

ghost use Rattle.std.specs.Prelude.{◌≡◌, ◌<◌, ◌*◌, ◌+◌, ℕ, suc, [], false, IfOk, OnOk, length};
ghost use Rattle.cc_base.specs.Paths.{In};
ghost use Rattle.search_walks.specs.Distance.{AreDistances};
ghost use Rattle.search_walks.specs.Backwards.{FlowUpTo};
ghost use Rattle.search_walks.specs.Layers.{IsPassed, Opens, DecisionsOf, Gives, Passing, Starts};

use crate::candidates::is_decision_site;
use crate::flow::Flow;
use cc_model::Checked;
use cc_model::base::NoMemory;
use std::alloc::Global;
use tac_lower::Tac;

/// The instructions that are passed, going backwards, and those of them from which it goes on.
#[derive(Drop)]
struct Front {
    passed: Vec<bool>,
    open: Vec<usize>,
}

/// Outcomes with their distances, and those from which the next layer begins.
#[derive(Drop)]
struct Start {
    distances: Vec<Option<u32>>,
    next: Vec<usize>,
}

impl Front {
    /// None is passed.
    fn new(alloc: Global, places: usize) -> Result<Front, NoMemory>
        ensures none { IfOk result (λ f. (a : ℕ) → IsPassed f.passed.items a → ⊥) }
        ensures size { IfOk result (λ f. length f.passed.items ≡ places) }
        ensures open { IfOk result (λ f. f.open.items ≡ []) }
    {
        let mut passed = Vec::new(alloc);
        for _at in 0..places {
            passed.push(false)?;
        }
        Ok(Front {
            passed,
            open: Vec::new(alloc),
        })
    }

    /// Passes an instruction, where it isn't passed.
    fn open(&mut self, at: usize) -> Result<(), NoMemory>
        ensures { OnOk result (Opens self.old.passed.items self.old.open.items self.new.passed.items
            self.new.open.items (λ a. a ≡ at)) }
    {
        if at < self.passed.len() && !self.passed[at] {
            self.passed[at] = true;
            self.open.push(at)?;
        }
        Ok(())
    }

    /// Passes these instructions.
    fn open_all(&mut self, places: &[usize]) -> Result<(), NoMemory>
        ensures { OnOk result (Opens self.old.passed.items self.old.open.items self.new.passed.items
            self.new.open.items (λ a. In a places.now)) }
    {
        for place in places {
            self.open(*place)?;
        }
        Ok(())
    }

    /// Passes the decisions of these outcomes.
    fn open_decisions(&mut self, flow: &Flow, outcomes: &[usize]) -> Result<(), NoMemory>
        ensures { OnOk result (Opens self.old.passed.items self.old.open.items self.new.passed.items
            self.new.open.items (DecisionsOf flow.now.decisions.rows.items outcomes.now)) }
    {
        for outcome in outcomes {
            self.open_all(flow.decisions.of(*outcome / 2))?;
        }
        Ok(())
    }

    /// Passes all that leads to the open ones without a decision between.
    fn pass(
        &mut self,
        flow: &Flow,
        distances: &mut Vec<Option<u32>>,
        next: &mut Vec<usize>,
        distance: u32,
    ) -> Result<(), NoMemory>
        ensures passing { OnOk result (Passing flow.now.before.rows.items flow.now.outcomes.rows.items
            flow.now.decisions.rows.items distance distances.old.items self.old.passed.items self.old.open.items
            next.old.items distances.new.items self.new.passed.items self.new.open.items next.new.items) }
        ensures done { OnOk result (self.new.open.items ≡ []) }
    {
        while let Some(at) = self.open.pop() {
            give_all(distances, next, flow.outcomes.of(at), distance)?;
            self.open_all(flow.before.of(at))?;
        }
        Ok(())
    }
}

/// Gives a distance to an outcome that has none.
fn give(
    distances: &mut Vec<Option<u32>>,
    next: &mut Vec<usize>,
    outcome: usize,
    distance: u32,
) -> Result<(), NoMemory>
    ensures { OnOk result (Gives distance distances.old.items next.old.items distances.new.items next.new.items
        (λ o. o ≡ outcome)) }
{
    if outcome < distances.len() && distances[outcome].is_none() {
        distances[outcome] = Some(distance);
        next.push(outcome)?;
    }
    Ok(())
}

/// Gives a distance to those of these outcomes that have none.
fn give_all(
    distances: &mut Vec<Option<u32>>,
    next: &mut Vec<usize>,
    outcomes: &[usize],
    distance: u32,
) -> Result<(), NoMemory>
    ensures { OnOk result (Gives distance distances.old.items next.old.items distances.new.items next.new.items
        (λ o. In o outcomes.now)) }
{
    for outcome in outcomes {
        give(distances, next, *outcome, distance)?;
    }
    Ok(())
}

impl Start {
    /// Adds an outcome: at distance 0 where it is that of a decision and not covered.
    fn add(&mut self, checked: &Checked, covered: &[bool], outcome: usize) -> Result<(), NoMemory>
        requires within { outcome < length covered.now }
        requires before { Starts checked.now covered.now outcome self.old.distances.items self.old.next.items }
        ensures { OnOk result (Starts checked.now covered.now
            (suc outcome) self.new.distances.items self.new.next.items) }
    {
        if !covered[outcome] && is_decision_site(checked, outcome / 2) {
            self.distances.push(Some(0))?;
            self.next.push(outcome)?;
        } else {
            self.distances.push(None)?;
        }
        Ok(())
    }

    /// The outcomes that aren't covered have the distance 0.
    fn new(alloc: Global, checked: &Checked, covered: &[bool]) -> Result<Start, NoMemory>
        ensures { IfOk result (λ s. Starts checked.now covered.now
            (length covered.now) s.distances.items s.next.items) }
    {
        let mut start = Start {
            distances: Vec::new(alloc),
            next: Vec::new(alloc),
        };
        for outcome in 0..covered.len() {
            start.add(checked, covered, outcome)?;
        }
        Ok(start)
    }
}

/// The flow distance of each outcome of each site, over a flow.
pub(crate) fn distances_over(
    alloc: Global,
    checked: &Checked,
    tac: &Tac,
    covered: &[bool],
    flow: &Flow,
) -> Result<Vec<Option<u32>>, NoMemory>
    requires covered { length covered.now ≡ 2 * length (checked.now).sites }
    requires flow { FlowUpTo checked.now tac.now
        (length tac.now.code) flow.now.before.rows.items flow.now.outcomes.rows.items flow.now.decisions.rows.items }
    ensures { IfOk result (λ v. AreDistances checked.now tac.now covered.now v.items) }
{
    let start = Start::new(alloc, checked, covered)?;
    let Start {
        mut distances,
        mut next,
    } = start;
    let mut front = Front::new(alloc, tac.code.len())?;
    let mut distance = 0;
    'layers: while !next.is_empty() {
        // Distances are numbers of 32 bits.
        if distance == u32::MAX {
            return Err(NoMemory);
        }
        let outcomes = next;
        next = Vec::new(alloc);
        distance += 1;
        front.open_decisions(flow, &outcomes)?;
        front.pass(flow, &mut distances, &mut next, distance)?;
    }
    Ok(distances)
}

/// The flow distance of each outcome of each site, F and then T: the least number of further decisions on a walk of
/// flow edges from the outcome to one that isn't covered. None where there is no such walk, and where the site is no
/// decision.
pub fn distances(
    alloc: Global,
    checked: &Checked,
    tac: &Tac,
    covered: &[bool],
) -> Result<Vec<Option<u32>>, NoMemory>
    requires { length covered.now ≡ 2 * length (checked.now).sites }
    ensures { IfOk result (λ v. AreDistances checked.now tac.now covered.now v.items) }
{
    let flow = Flow::new(alloc, checked, tac)?;
    distances_over(alloc, checked, tac, covered, &flow)
}
