//! What a search counts.

ghost use Rattle.std.specs.Prelude.{◌≡◌, ◌+◌, ◌∷◌, [], false, IfOk, OnOk};
ghost use Rattle.cc_base.specs.declared.inputs.Input.{Input as PlainInput};
ghost use Rattle.cc_base.specs.Paths.{Path};
ghost use Rattle.cc_model.specs.Listing.{at_steps, test_item, past_item, stray_item, spent_item, unrun_item};
ghost use Rattle.search_base.specs.Setting.{Setting};
ghost use Rattle.search_dfs.specs.Output.{Tallied};
ghost use Rattle.search_dfs.specs.Setting.{TraceOf};
ghost use Rattle.search_dfs.specs.Task.{setting_of};
ghost use Rattle.search_dfs.specs.Turns.{test_at};

use crate::open::Pending;
use crate::task::Task;
use cc_model::base::{End, NoMemory};
use search_base::{FoundTerm, add_terms, either, is_fault};
use std::alloc::Global;

/// The counts of the items listed so far, whether a test or stray run ended as a fault, and the terms of their runs, in
/// order.
#[derive(Drop)]
pub struct Tally {
    pub paths: u64,
    pub runs: u64,
    pub spent: u64,
    pub steps: u64,
    pub strays: u64,
    pub unrun: u64,
    pub fault: bool,
    pub terms: Vec<FoundTerm>,
}

/// The number behind a count.
fn one_more(count: u64) -> Result<u64, NoMemory>
    ensures { IfOk result (λ n. n ≡ count + 1) }
{
    // No search counts so far.
    match count.checked_add(1) {
        Some(next) => Ok(next),
        None => Err(NoMemory),
    }
}

/// A count with one more where the bound on steps ended a run.
fn with_steps(count: u64, end: End) -> Result<u64, NoMemory>
    ensures { IfOk result (λ n. n ≡ count + at_steps end) }
{
    match end {
        End::Steps => one_more(count),
        End::Return => Ok(count),
        End::Assume => Ok(count),
        End::Cut => Ok(count),
        End::Objects => Ok(count),
        End::Fault(_, _) => Ok(count),
    }
}

impl Tally {
    /// Nothing counted.
    pub(crate) fn new(alloc: Global) -> Tally
        ensures zero { result ≡ record {
          paths = 0;
          runs = 0;
          spent = 0;
          steps = 0;
          strays = 0;
          unrun = 0;
          fault = false;
          terms = result.terms;
        } }
        ensures none { result.terms.items ≡ [] }
    {
        Tally {
            paths: 0,
            runs: 0,
            spent: 0,
            steps: 0,
            strays: 0,
            unrun: 0,
            fault: false,
            terms: Vec::new(alloc),
        }
    }

    /// Counts a run that is listed as a test.
    pub(crate) fn count_test(&mut self, task: &Task<'_>, run: &Pending) -> Result<(), NoMemory>
        requires { TraceOf (setting_of task.now) (run.now).from (run.now).trace (run.now).path }
        ensures { OnOk result (Tallied (setting_of task.now) (test_item (test_at run.now) ∷ []) self.old self.new) }
    {
        add_terms(task.checked, run.trace.terms.as_slice(), &mut self.terms)?;
        let paths = one_more(self.paths)?;
        let runs = one_more(self.runs)?;
        let steps = with_steps(self.steps, run.trace.end)?;
        let fault = either(self.fault, is_fault(run.trace.end));
        self.paths = paths;
        self.runs = runs;
        self.steps = steps;
        self.fault = fault;
        Ok(())
    }

    /// Counts a run that is listed as a past one.
    pub(crate) fn count_past(&mut self, task: &Task<'_>, run: &Pending) -> Result<(), NoMemory>
        requires { TraceOf (setting_of task.now) (run.now).from (run.now).trace (run.now).path }
        ensures { OnOk result (Tallied (setting_of task.now) (past_item (test_at run.now) ∷ []) self.old self.new) }
    {
        add_terms(task.checked, run.trace.terms.as_slice(), &mut self.terms)?;
        let runs = one_more(self.runs)?;
        self.runs = runs;
        Ok(())
    }

    /// Counts a run that left its prediction.
    pub(crate) fn count_stray(&mut self, task: &Task<'_>, run: &Pending) -> Result<(), NoMemory>
        requires { TraceOf (setting_of task.now) (run.now).from (run.now).trace (run.now).path }
        ensures { OnOk result ((q : Path) → Tallied (setting_of task.now)
            (stray_item (test_at run.now) q ∷ []) self.old self.new) }
    {
        add_terms(task.checked, run.trace.terms.as_slice(), &mut self.terms)?;
        let runs = one_more(self.runs)?;
        let strays = one_more(self.strays)?;
        let fault = either(self.fault, is_fault(run.trace.end));
        self.runs = runs;
        self.strays = strays;
        self.fault = fault;
        Ok(())
    }

    /// Counts a prefix whose solve passed the budget.
    pub(crate) fn count_spent(&mut self) -> Result<(), NoMemory>
        ensures { OnOk result ((p : Setting) (q : Path) → Tallied p (spent_item q ∷ []) self.old self.new) }
    {
        self.spent = one_more(self.spent)?;
        Ok(())
    }

    /// Counts an input that is not run.
    pub(crate) fn count_unrun(&mut self) -> Result<(), NoMemory>
        ensures { OnOk result ((p : Setting) (i : PlainInput) (q : Path)
            → Tallied p (unrun_item i q ∷ []) self.old self.new) }
    {
        self.unrun = one_more(self.unrun)?;
        Ok(())
    }
}
