//! What a walk does at each step: it runs an input, or solves one, and lists what comes of it.

ghost use Rattle.std.specs.Prelude.{◌≡◌, ◌<◌, ◌≤◌, ◌+◌, ◌*◌, ◌^◌, true, false, List, length, All, IfOk, IfErr, OnErr};
ghost use Rattle.std.specs.Prelude.{count_by};
ghost use Rattle.cc_base.specs.Outcomes.{HasByte};
ghost use Rattle.cc_base.specs.Paths.{BeginsWith, In};
ghost use Rattle.cc_model.specs.Listing.{Item};
ghost use Rattle.cc_model.specs.Report.{item_line};
ghost use Rattle.cc_outside.specs.Told.{WritesPart};
ghost use Rattle.search_walks.specs.Counted.{Counted, Nothing};
ghost use Rattle.search_base.specs.Setting.{within_of, layer_of};
ghost use Rattle.search_walks.specs.Made.{RunOf};
ghost use Rattle.search_base.specs.Lines.{SinkCause};
ghost use Rattle.search_walks.specs.Output.{HasNumbers, one_for, decision_count};
ghost use Rattle.search_walks.specs.Steps.{IsLine, Followed, FollowedSome, Started, TriedOne, TriedSome, base_item};
ghost use Rattle.search_walks.specs.Logged.{Logged, Finished, FinishedSome};
ghost use Rattle.search_walks.specs.Task.{setting_of, Known};

use crate::covering::mark_events;
use crate::runs::{Made, made_on};
use crate::task::Task;
use cc_model::base::{Input, NoMemory, Outcome, PathText};
use cc_model::{Checked, Site, SiteKind};
use cc_outside::Sink;
use flip_solve::{Turned, turn};
use input_map::base_input;
use run_laws::a_run_is_lawful;
use search_base::{
    FoundTerm, SearchFault, add_terms, begins, either, is_fault, narrow, prefix_of, spent_line,
    stray_line, test_line, write_line, write_terms,
};
use std::alloc::Global;

/// A run on an input that was solved.
#[derive(Drop)]
pub struct Tried {
    pub run: Made,
    /// It begins with its prediction.
    pub kept: bool,
    /// It took an outcome of a decision that no earlier run took.
    pub is_new: bool,
}

/// What has been listed so far.
#[derive(Drop)]
pub struct Log {
    /// How many runs were made.
    pub made: u32,
    /// For each site, whether a run took F, and T.
    pub covered: Vec<bool>,
    pub fault: bool,
    pub terms: Vec<FoundTerm>,
}

/// How a walk ended: its runs, how many outcomes of decisions they took, how many there are, and whether a run ended as
/// a fault.
#[derive(Clone, Copy)]
pub struct WalkSummary {
    pub runs: u64,
    pub covered: u64,
    pub outcomes: u64,
    pub fault: bool,
}

/// How many outcomes of decisions are covered.
fn count_covered(covered: &[bool]) -> u64
    ensures { result ≡ count_by (λ b. b) covered.now }
{
    covered.iter().filter(|b| **b).count() as u64
}

/// A number with 2 more for the site of a decision.
fn with_site(count: u64, site: Site) -> Result<u64, NoMemory>
    ensures { IfOk result (λ n. n ≡ count + 2 * one_for site.kind) }
{
    if !matches!(site.kind, SiteKind::Decision) {
        return Ok(count);
    }
    match count.checked_add(2) {
        Some(more) => Ok(more),
        None => Err(NoMemory),
    }
}

/// How many outcomes the decisions have.
fn count_outcomes(sites: &[Site]) -> Result<u64, NoMemory>
    ensures { IfOk result (λ n. n ≡ 2 * decision_count sites.now) }
{
    let mut count = 0;
    for site in sites {
        count = with_site(count, *site)?;
    }
    Ok(count)
}

/// The numbers of a summary have 64 bits.
fn with_numbers(summary: WalkSummary) -> WalkSummary
    ensures same { result ≡ summary }
    ensures numbers { HasNumbers result }
{
    summary
}

/// The line of a run: that of a test where it kept its prediction, else that of a stray.
fn line_of(task: &Task<'_>, run: &Made, prefix: &PathText, kept: bool) -> Result<Vec<u8>, NoMemory>
    requires run { RunOf (setting_of task.now) (run.now).trace (run.now).path }
    requires prefix { All HasByte prefix.now }
    requires yes { kept ≡ true → BeginsWith (run.now).path prefix.now }
    requires no { kept ≡ false → BeginsWith (run.now).path prefix.now → ⊥ }
    ensures { IfOk result (λ line. IsLine (setting_of task.now) ((run.now).trace).input prefix.now line.items) }
{
    if kept {
        let line = test_line(task.alloc, &run.trace, &run.path)?;
        return Ok(line);
    }
    let line = stray_line(task.alloc, &run.trace, &run.path, prefix)?;
    Ok(line)
}

impl Log {
    /// Nothing listed.
    pub(crate) fn new(alloc: Global, checked: &Checked) -> Result<Log, NoMemory>
        ensures { IfOk result (Nothing (length (checked.now).sites)) }
    {
        let mut covered = Vec::new(alloc);
        for _site in checked.sites.as_slice() {
            covered.push(false)?;
            covered.push(false)?;
        }
        Ok(Log {
            made: 0,
            covered,
            fault: false,
            terms: Vec::new(alloc),
        })
    }

    /// Counts a run that was listed; whether it took a new outcome.
    fn count(&mut self, task: &Task<'_>, run: &Made) -> Result<bool, NoMemory>
        requires run { RunOf (setting_of task.now) (run.now).trace (run.now).path }
        requires room { self.old.made < 4294967295 }
        requires size { length self.old.covered.items ≡ 2 * length ((task.now.checked).now).sites }
        ensures { IfOk result (λ b. Counted (setting_of task.now) ((run.now).trace).input
            ((run.now).trace).end self.old self.new b) }
    {
        add_terms(task.checked, run.trace.terms.as_slice(), &mut self.terms)?;
        self.made += 1;
        self.fault = either(self.fault, is_fault(run.trace.end));
        Ok(mark_events(&mut self.covered, task.checked, run.trace.events.as_slice()))
    }

    /// Runs the base input.
    pub(crate) fn begin<K: Sink>(
        &mut self,
        task: &Task<'_>,
        out: &mut K,
    ) -> Result<Made, SearchFault>
        requires known { Known task.now }
        requires room { self.old.made < 4294967295 }
        requires size { length self.old.covered.items ≡ 2 * length ((task.now.checked).now).sites }
        ensures ok { IfOk result (λ r. Started (setting_of task.now) (K.written out.old)
            (K.written out.new) self.old self.new r) }
        ensures err { OnErr result (WritesPart (K.written out.old) (K.written out.new)
            (item_line (base_item (setting_of task.now)))) }
        ensures sink { IfErr result (λ e. SinkCause (K.faults out.old) (K.faults out.new) e) }
        ensures never_falls { K.faults out.old ≤ K.faults out.new }
    {
        let base = base_input(task.alloc, task.checked, task.bounds)?;
        let made = made_on(task, &base)?;
        let line = test_line(task.alloc, &made.trace, &made.path)?;
        write_line(out, &line)?;
        let _is_new = self.count(task, &made)?;
        Ok(made)
    }

    /// Runs an input that was solved for the prefix.
    fn follow<K: Sink>(
        &mut self,
        task: &Task<'_>,
        input: &Input,
        prefix: &PathText,
        out: &mut K,
    ) -> Result<Tried, SearchFault>
        requires known { Known task.now }
        requires within { within_of (setting_of task.now) input.now }
        requires few { length (input.now).cells < 10 ^ 18 }
        requires prefix { All HasByte prefix.now }
        requires room { self.old.made < 4294967295 }
        requires size { length self.old.covered.items ≡ 2 * length ((task.now.checked).now).sites }
        ensures ok { IfOk result (λ t. Followed (setting_of task.now) input.now prefix.now (K.written out.old)
            (K.written out.new) self.old self.new t) }
        ensures err { OnErr result (FollowedSome (setting_of task.now) input.now prefix.now (K.written out.old)
            (K.written out.new)) }
        ensures sink { IfErr result (λ e. SinkCause (K.faults out.old) (K.faults out.new) e) }
        ensures never_falls { K.faults out.old ≤ K.faults out.new }
    {
        let run = made_on(task, input)?;
        let kept = begins(run.path.as_slice(), prefix.as_slice());
        let line = line_of(task, &run, prefix, kept)?;
        write_line(out, &line)?;
        let is_new = self.count(task, &run)?;
        Ok(Tried { run, kept, is_new })
    }

    /// Solves an alternative of a run, and runs what it gives. None where there is no input, or the budget passed.
    pub(crate) fn try_one<K: Sink>(
        &mut self,
        task: &Task<'_>,
        run: &Made,
        event: u32,
        outcome: Outcome,
        out: &mut K,
    ) -> Result<Option<Tried>, SearchFault>
        requires known { Known task.now }
        requires run { RunOf (setting_of task.now) (run.now).trace (run.now).path }
        requires there { event < length (run.now).path }
        requires offered { In outcome ((layer_of (setting_of task.now)).others ((run.now).trace).input event) }
        requires room { self.old.made < 4294967295 }
        requires size { length self.old.covered.items ≡ 2 * length ((task.now.checked).now).sites }
        ensures ok { IfOk result (TriedOne (setting_of task.now) ((run.now).trace).input (event, outcome)
            (K.written out.old) (K.written out.new) self.old self.new) }
        ensures err { OnErr result (TriedSome (setting_of task.now) ((run.now).trace).input (event, outcome)
            (K.written out.old) (K.written out.new)) }
        ensures sink { IfErr result (λ e. SinkCause (K.faults out.old) (K.faults out.new) e) }
        ensures never_falls { K.faults out.old ≤ K.faults out.new }
    {
        let prefix = prefix_of(task.alloc, run.path.as_slice(), event, outcome)?;
        a_run_is_lawful();
        let turned = turn(
            task.alloc,
            task.checked,
            &run.trace,
            event,
            outcome,
            task.bounds,
            task.budget,
        )?;
        match turned {
            Turned::Never => Ok(None),
            Turned::Spent => {
                let line = spent_line(task.alloc, &prefix)?;
                write_line(out, &line)?;
                Ok(None)
            }
            Turned::Turned(input) => Ok(Some(self.follow(task, &input, &prefix, out)?)),
        }
    }

    /// Writes the lines of the terms, and sums up.
    pub(crate) fn finish<K: Sink>(
        &self,
        task: &Task<'_>,
        out: &mut K,
    ) -> Result<WalkSummary, SearchFault>
        ensures ok { IfOk result (λ w. (items : List Item) → Logged (setting_of task.now) items self.now
            → Finished (setting_of task.now) items (K.written out.old) (K.written out.new) w) }
        ensures err { OnErr result (FinishedSome (K.written out.old) (K.written out.new)) }
        ensures sink { IfErr result (λ e. SinkCause (K.faults out.old) (K.faults out.new) e) }
        ensures never_falls { K.faults out.old ≤ K.faults out.new }
    {
        write_terms(task.alloc, self.terms.as_slice(), out)?;
        narrow(self.terms.as_slice());
        Ok(with_numbers(WalkSummary {
            runs: u64::from(self.made),
            covered: count_covered(&self.covered),
            outcomes: count_outcomes(task.checked.sites.as_slice())?,
            fault: self.fault,
        }))
    }
}
