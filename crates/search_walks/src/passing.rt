//! The walk by passes over runs.

ghost use Rattle.std.specs.Prelude.{◌≡◌, ◌⊎◌, ◌↔◌, IsTrue, ◌<◌, ◌≤◌, ◌+◌, ◌-◌, ◌*◌, ℕ, Bool, true, false, List, Option};
ghost use Rattle.std.specs.Prelude.{length, slice_get, Some, IfOk, OnOk, OnErr, IfErr};
ghost use Rattle.rand_pcg.specs.Lcg.{Lcg};
ghost use Rattle.search_walks.specs.Counted.{Nothing};
ghost use Rattle.search_walks.specs.Logged.{Walked, WalkedSome};
ghost use Rattle.search_walks.specs.Made.{RunOf};
ghost use Rattle.search_base.specs.Lines.{SinkCause};
ghost use Rattle.search_walks.specs.Passing.{current_of, StandsAt, DrawnAt, FromStart, PassesTo, Passed, left_to_pass};
ghost use Rattle.search_walks.specs.Task.{setting_of, Known};
ghost use Rattle.search_base.specs.Setting.{base_of};
ghost use Rattle.search_walks.specs.Walks.{Passes};

use crate::branching::may_run;
use crate::draws::draw;
use crate::log::Log;
use crate::runs::Made;
use crate::task::Task;
use cc_model::base::{NoMemory, Outcome};
use cc_outside::Sink;
use rand_pcg::Pcg32;
use search_base::{SearchFault, all_outcomes, same};
use sym_run::Event;

/// An event of a run.
fn event_of(run: &Made, at: u32) -> &Event
    requires { at < length ((run.now).trace).events }
    ensures { slice_get ((run.now).trace).events at ≡ Some result.now }
{
    let events = run.trace.events.as_slice();
    &events[at as usize]
}

/// One of some outcomes.
fn outcome_of(outcomes: &[Outcome], at: usize) -> Outcome
    requires { at < length outcomes.now }
    ensures { slice_get outcomes.now at ≡ Some result }
{
    outcomes[at]
}

/// Draws one of all outcomes of an event, where it has alternatives. None where it is the event's own.
fn draw_at(
    task: &Task<'_>,
    run: &Made,
    at: u32,
    words: &mut Pcg32,
) -> Result<Option<Outcome>, NoMemory>
    requires run { RunOf (setting_of task.now) (run.now).trace (run.now).path }
    requires there { at < length (run.now).path }
    ensures { IfOk result (DrawnAt (setting_of task.now) ((run.now).trace).input at words.old words.new) }
{
    let event = event_of(run, at);
    if event.others.is_empty() {
        return Ok(None);
    }
    let all = all_outcomes(task.alloc, event)?;
    let drawn = draw(words, all.len() as u32);
    let outcome = outcome_of(all.as_slice(), drawn as usize);
    if same(outcome, event.taken.outcome) {
        return Ok(None);
    }
    Ok(Some(outcome))
}

/// The event behind one whose alternative was run: the next one, or from the front where the run left its prediction.
fn event_behind(event: u32, kept: bool) -> u32
    requires { event < 4294967295 }
    ensures kept { kept ≡ true → result ≡ event + 1 }
    ensures left { kept ≡ false → result ≡ 0 }
{
    if kept { event + 1 } else { 0 }
}

/// Where a pass stands: the run that it goes through, unless it is the base run, and the number of the next event.
#[derive(Drop)]
pub struct Standing {
    pub run: Option<Made>,
    pub event: u32,
}

impl Standing {
    /// The run that the pass goes through.
    fn current<'a>(&'a self, base: &'a Made) -> &'a Made
        ensures { result.now ≡ current_of self.now base.now }
    {
        match &self.run {
            Some(run) => run,
            None => base,
        }
    }

    /// Whether the run is over.
    fn is_over(&self, base: &Made) -> bool
        ensures { IsTrue result ↔ (self.now.event ≡ length (current_of self.now base.now).path) }
    {
        let run = self.current(base);
        self.event as usize == run.path.len()
    }

    /// Goes on from an event: one of all its outcomes is drawn, where it has alternatives.
    fn step<K: Sink>(
        &mut self,
        task: &Task<'_>,
        base: &Made,
        words: &mut Pcg32,
        log: &mut Log,
        out: &mut K,
    ) -> Result<(), SearchFault>
        requires known { Known task.now }
        requires room { log.old.made < task.now.limit }
        requires fits { log.old.made < 4294967295 }
        requires stands { StandsAt (setting_of task.now) (current_of self.old base.now) self.old.event }
        requires there { self.old.event < length (current_of self.old base.now).path }
        requires short { length (current_of self.old base.now).path ≤ 1024 }
        requires size { length log.old.covered.items ≡ 2 * length ((task.now.checked).now).sites }
        ensures came { OnOk result ((start : Lcg) (before : Option (List ℕ)) (passes : ℕ)
            → PassesTo (setting_of task.now) task.now.limit start before passes
            ((current_of self.old base.now).trace).input self.old.event words.old log.old (K.written out.old)
            → PassesTo (setting_of task.now) task.now.limit start before passes
            ((current_of self.new base.now).trace).input self.new.event words.new log.new (K.written out.new)) }
        ensures stands { OnOk result (StandsAt (setting_of task.now) (current_of self.new base.now) self.new.event) }
        ensures within { OnOk result (log.new.made ≤ task.now.limit) }
        ensures size { OnOk result (length log.new.covered.items ≡ length log.old.covered.items) }
        ensures falls { OnOk result (left_to_pass task.now.limit log.new.made
            (length (current_of self.new base.now).path) self.new.event
            < left_to_pass task.now.limit log.old.made (length (current_of self.old base.now).path) self.old.event) }
        ensures err { OnErr result ((start : Lcg) (before : Option (List ℕ)) (passes : ℕ)
            → PassesTo (setting_of task.now) task.now.limit start before passes
            ((current_of self.old base.now).trace).input self.old.event words.old log.old (K.written out.old)
            → WalkedSome (setting_of task.now) (FromStart (setting_of task.now) task.now.limit start true) before
            (K.written out.new)) }
        ensures sink { IfErr result (λ e. SinkCause (K.faults out.old) (K.faults out.new) e) }
        ensures never_falls { K.faults out.old ≤ K.faults out.new }
    {
        let run = self.current(base);
        let drawn = draw_at(task, run, self.event, words)?;
        let Some(outcome) = drawn else {
            self.event += 1;
            return Ok(());
        };
        let tried = log.try_one(task, run, self.event, outcome, out)?;
        let Some(tried) = tried else {
            self.event += 1;
            return Ok(());
        };
        self.event = event_behind(self.event, tried.kept);
        self.run = Some(tried.run);
        Ok(())
    }
}

/// A pass, from event 0 of the base run.
fn pass<K: Sink>(
    task: &Task<'_>,
    base: &Made,
    words: &mut Pcg32,
    log: &mut Log,
    out: &mut K,
) -> Result<(), SearchFault>
    requires known { Known task.now }
    requires within { log.old.made ≤ task.now.limit }
    requires base { RunOf (setting_of task.now) (base.now).trace (base.now).path }
    requires size { length log.old.covered.items ≡ 2 * length ((task.now.checked).now).sites }
    ensures passed { OnOk result ((start : Lcg) (before : Option (List ℕ)) (passes : ℕ)
        → PassesTo (setting_of task.now) task.now.limit start before passes
        ((base.now).trace).input 0 words.old log.old (K.written out.old)
        → Passed (setting_of task.now) task.now.limit start before passes words.new log.new (K.written out.new)) }
    ensures within { OnOk result (log.new.made ≤ task.now.limit) }
    ensures err { OnErr result ((start : Lcg) (before : Option (List ℕ)) (passes : ℕ)
        → PassesTo (setting_of task.now) task.now.limit start before passes
        ((base.now).trace).input 0 words.old log.old (K.written out.old)
        → WalkedSome (setting_of task.now) (FromStart (setting_of task.now) task.now.limit start true) before
        (K.written out.new)) }
    ensures sink { IfErr result (λ e. SinkCause (K.faults out.old) (K.faults out.new) e) }
    ensures never_falls { K.faults out.old ≤ K.faults out.new }
{
    let mut standing = Standing {
        run: None,
        event: 0,
    };
    'events: while may_run(log.made, task.limit) {
        if standing.is_over(base) {
            return Ok(());
        }
        standing.step(task, base, words, log, out)?;
    }
    Ok(())
}

/// Whether no pass comes behind this one.
fn is_last(left: u32, made: u32, limit: u32) -> bool
    ensures last { IsTrue result → (left ≡ 0) ⊎ (made ≡ limit) }
    ensures more { result ≡ false → (left ≡ 0 → ⊥) × (made ≡ limit → ⊥) }
{
    if left == 0 {
        return true;
    }
    made == limit
}

/// Walks through passes from the base run.
pub(crate) fn uniform_walk<K: Sink>(
    task: &Task<'_>,
    words: &mut Pcg32,
    log: &mut Log,
    out: &mut K,
) -> Result<(), SearchFault>
    requires known { Known task.now }
    requires runs { 1 ≤ task.now.limit }
    requires nothing { Nothing (length ((task.now.checked).now).sites) log.old }
    ensures ok { OnOk result ((cuts : Bool)
        → Walked (setting_of task.now) (λ l. Passes (setting_of task.now) task.now.limit cuts
        (base_of (setting_of task.now)) 0 (task.now.limit - 1) words.old 1 l) (K.written out.old)
        (K.written out.new) log.new) }
    ensures err { OnErr result (WalkedSome (setting_of task.now)
        (λ l. Passes (setting_of task.now) task.now.limit true (base_of (setting_of task.now)) 0
        (task.now.limit - 1) words.old 1 l) (K.written out.old) (K.written out.new)) }
    ensures sink { IfErr result (λ e. SinkCause (K.faults out.old) (K.faults out.new) e) }
    ensures never_falls { K.faults out.old ≤ K.faults out.new }
{
    let _lowest = task.bounds.lo();
    let base = log.begin(task, out)?;
    let mut left = task.limit - 1;
    'passes: loop {
        pass(task, &base, words, log, out)?;
        if is_last(left, log.made, task.limit) {
            return Ok(());
        }
        left -= 1;
    }
}
