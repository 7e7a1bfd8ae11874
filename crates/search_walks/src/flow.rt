//! The flow of a code, backwards: which instructions lead to which, and which outcomes of decisions.

ghost use Rattle.std.specs.Prelude.{◌≡◌, ◌<◌, suc, length, slice_get, Some, None, IfOk, OnOk};
ghost use Rattle.search_walks.specs.Distance.{entry, IsPlain};
ghost use Rattle.search_walks.specs.Rows.{Grows, IsAny};
ghost use Rattle.search_walks.specs.Backwards.{decision_in, Comes, DecisionAt, FlowUpTo};
ghost use Rattle.search_walks.specs.Returns.{AreReturns};

use crate::candidates::is_decision;
use crate::returns::Returns;
use crate::rows::Rows;
use cc_model::base::NoMemory;
use cc_model::{Checked, SiteId};
use std::alloc::Global;
use tac_lower::{Instr, Tac};

/// The flow of a code, backwards.
#[derive(Drop)]
pub(crate) struct Flow {
    /// The instructions without a decision that lead to an instruction.
    pub(crate) before: Rows,
    /// The outcomes that lead to an instruction.
    pub(crate) outcomes: Rows,
    /// The decisions of a decision site.
    pub(crate) decisions: Rows,
}

/// The number of an outcome of a site.
pub(crate) fn number_of(site: SiteId, outcome: bool) -> usize
    ensures { result ≡ entry site.0 outcome }
{
    let first = 2 * site.0 as usize;
    if outcome { first + 1 } else { first }
}

/// The site of a decision.
fn decision_of(instruction: Instr) -> Option<SiteId>
    ensures { result ≡ decision_in instruction }
{
    match instruction {
        Instr::Compare(site, _, _, _, _) => Some(site),
        Instr::Truth(site, _, _) => Some(site),
        _ => None,
    }
}

/// Adds a number to each of these places.
fn add_all(rows: &mut Rows, number: usize, places: &[u32]) -> Result<(), NoMemory>
    ensures { OnOk result (Grows rows.old.rows.items rows.new.rows.items
        (IsAny rows.old.rows.items number places.now)) }
{
    for place in places {
        rows.add(*place as usize, number)?;
    }
    Ok(())
}

/// Adds a return to each of the places to which it leads.
fn add_return(rows: &mut Rows, at: usize, places: &[usize]) -> Result<(), NoMemory>
    ensures { OnOk result (Grows rows.old.rows.items rows.new.rows.items (IsAny rows.old.rows.items at places.now)) }
{
    for place in places {
        rows.add(*place, at)?;
    }
    Ok(())
}

/// Adds an outcome to the instruction to which it leads.
fn add_outcome(
    outcomes: &mut Rows,
    tac: &Tac,
    at: u32,
    site: SiteId,
    outcome: bool,
) -> Result<(), NoMemory>
    requires { length outcomes.old.rows.items ≡ length tac.now.code }
    ensures { OnOk result (Grows outcomes.old.rows.items outcomes.new.rows.items (Comes tac.now at site.0 outcome)) }
{
    if let Some(to) = tac.outcome_successor(at, outcome) {
        outcomes.add(to as usize, number_of(site, outcome))?;
    }
    Ok(())
}

impl Flow {
    /// Adds a decision and its outcomes, where its site is that of a decision.
    fn add_decision(
        &mut self,
        checked: &Checked,
        tac: &Tac,
        at: u32,
        site: SiteId,
    ) -> Result<(), NoMemory>
        requires before { FlowUpTo checked.now tac.now at self.old.before.rows.items self.old.outcomes.rows.items
            self.old.decisions.rows.items }
        requires decides { DecisionAt checked.now tac.now at site }
        ensures { OnOk result (FlowUpTo checked.now tac.now
            (suc at) self.new.before.rows.items self.new.outcomes.rows.items self.new.decisions.rows.items) }
    {
        if is_decision(checked, site) {
            self.decisions.add(site.0 as usize, at as usize)?;
            add_outcome(&mut self.outcomes, tac, at, site, false)?;
            add_outcome(&mut self.outcomes, tac, at, site, true)?;
        }
        Ok(())
    }

    /// Adds the edges of an instruction without a decision.
    fn add_edges(
        &mut self,
        alloc: Global,
        checked: &Checked,
        tac: &Tac,
        returns: &Returns,
        at: u32,
        instruction: Instr,
    ) -> Result<(), NoMemory>
        requires before { FlowUpTo checked.now tac.now at self.old.before.rows.items self.old.outcomes.rows.items
            self.old.decisions.rows.items }
        requires tables { AreReturns tac.now returns.now.firsts.items returns.now.behind.rows.items }
        requires is { slice_get tac.now.code at ≡ Some instruction }
        requires plain { IsPlain checked.now tac.now at }
        ensures { OnOk result (FlowUpTo checked.now tac.now
            (suc at) self.new.before.rows.items self.new.outcomes.rows.items self.new.decisions.rows.items) }
    {
        let _checked = checked;
        if let Instr::Return(_) = instruction {
            return add_return(&mut self.before, at as usize, returns.of(tac, at));
        }
        let places = tac.successors(alloc, at)?;
        add_all(&mut self.before, at as usize, places.as_slice())
    }

    /// Adds an instruction.
    fn add(
        &mut self,
        alloc: Global,
        checked: &Checked,
        tac: &Tac,
        returns: &Returns,
        at: u32,
        instruction: Instr,
    ) -> Result<(), NoMemory>
        requires before { FlowUpTo checked.now tac.now at self.old.before.rows.items self.old.outcomes.rows.items
            self.old.decisions.rows.items }
        requires tables { AreReturns tac.now returns.now.firsts.items returns.now.behind.rows.items }
        requires is { slice_get tac.now.code at ≡ Some instruction }
        ensures { OnOk result (FlowUpTo checked.now tac.now
            (suc at) self.new.before.rows.items self.new.outcomes.rows.items self.new.decisions.rows.items) }
    {
        match decision_of(instruction) {
            Some(site) => self.add_decision(checked, tac, at, site),
            None => self.add_edges(alloc, checked, tac, returns, at, instruction),
        }
    }

    /// The flow of a program's code.
    pub(crate) fn new(alloc: Global, checked: &Checked, tac: &Tac) -> Result<Flow, NoMemory>
        ensures { IfOk result (λ f. FlowUpTo checked.now tac.now
            (length tac.now.code) f.before.rows.items f.outcomes.rows.items f.decisions.rows.items) }
    {
        let length = tac.code.len();
        // Instructions are numbers of 32 bits.
        if length > u32::MAX as usize {
            return Err(NoMemory);
        }
        let returns = Returns::new(alloc, tac)?;
        let mut flow = Flow {
            before: Rows::new(alloc, length)?,
            outcomes: Rows::new(alloc, length)?,
            decisions: Rows::new(alloc, checked.sites.len())?,
        };
        for (at, instruction) in tac.code.as_slice().iter().enumerate() {
            flow.add(alloc, checked, tac, &returns, at as u32, *instruction)?;
        }
        Ok(flow)
    }
}
