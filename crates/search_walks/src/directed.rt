//! The control-flow directed walk, step by step.

ghost use Rattle.std.specs.Prelude.{◌≡◌, ◌<◌, ◌≤◌, ◌+◌, ◌*◌, ◌∷◌, [], Bool, true, ℕ, List, Option as PlainOption};
ghost use Rattle.std.specs.Prelude.{length, IfOk, IfErr, OnOk, OnErr};
ghost use Rattle.search_walks.specs.Backwards.{FlowUpTo};
ghost use Rattle.search_walks.specs.Counted.{Nothing};
ghost use Rattle.search_walks.specs.Course.{Fresh, Ready, Led, Went, left, FromBase};
ghost use Rattle.search_walks.specs.Distance.{entry};
ghost use Rattle.search_walks.specs.Logged.{Walked, WalkedSome};
ghost use Rattle.search_walks.specs.Made.{RunOf};
ghost use Rattle.search_walks.specs.Nearest.{IsLeast, lesser, nearer, IsAtSite, IsAtToken, IsAtOffer, IsAtPlace};
ghost use Rattle.search_walks.specs.Nearest.{IsFirst};
ghost use Rattle.search_base.specs.Lines.{SinkCause};
ghost use Rattle.search_base.specs.Setting.{base_of};
ghost use Rattle.search_walks.specs.Task.{setting_of, Known};
ghost use Rattle.search_walks.specs.Walks.{candidates as candidates_at, Directed};

use crate::candidates::{Candidate, candidates, is_decision, is_decision_site};
use crate::distance::distances_over;
use crate::flow::Flow;
use crate::log::Log;
use crate::runs::Made;
use crate::task::Task;
use cc_model::Checked;
use cc_model::base::{NoMemory, Outcome};
use cc_outside::Sink;
use search_base::{SearchFault, token_at, token_of};

/// The lesser of two distances.
fn lesser(a: Option<u32>, b: Option<u32>) -> Option<u32>
    ensures { result ≡ lesser a b }
{
    match a {
        None => b,
        Some(x) => match b {
            None => a,
            Some(y) => { if y < x { b } else { a } }
        },
    }
}

/// The number of an outcome of the site with this number.
fn number_at(site: usize, side: bool) -> usize
    requires { 2 * site + 1 < 18446744073709551616 }
    ensures { result ≡ entry site side }
{
    let first = 2 * site;
    if side { first + 1 } else { first }
}

/// The distance of the outcome of a site, where it is a decision site of the token.
fn distance_at_site(
    distances: &[Option<u32>],
    checked: &Checked,
    token: u32,
    site: usize,
    side: bool,
) -> Option<u32>
    requires site { site < length (checked.now).sites }
    requires size { length distances.now ≡ 2 * length (checked.now).sites }
    ensures { IsLeast (IsAtSite checked.now distances.now token side site) result }
{
    if !is_decision_site(checked, site) {
        return None;
    }
    let own = token_of(checked, site);
    if own != token {
        return None;
    }
    let _places = distances.len();
    let at = number_at(site, side);
    distances[at]
}

/// The least distance of the outcomes of the decision sites of a token.
fn distance_at_token(
    distances: &[Option<u32>],
    checked: &Checked,
    token: u32,
    side: bool,
) -> Option<u32>
    requires { length distances.now ≡ 2 * length (checked.now).sites }
    ensures { IsLeast (IsAtToken checked.now distances.now token side (length (checked.now).sites)) result }
{
    let mut least = None;
    for site in 0..checked.sites.len() {
        least = lesser(
            least,
            distance_at_site(distances, checked, token, site, side),
        );
    }
    least
}

/// The distance of a candidate.
fn distance_of(distances: &[Option<u32>], checked: &Checked, candidate: Candidate) -> Option<u32>
    requires { length distances.now ≡ 2 * length (checked.now).sites }
    ensures { IsLeast (IsAtOffer checked.now distances.now candidate) result }
{
    if !is_decision(checked, candidate.site) {
        return None;
    }
    let token = token_at(checked, candidate.site);
    match candidate.outcome {
        Outcome::False => distance_at_token(distances, checked, token, false),
        Outcome::True => distance_at_token(distances, checked, token, true),
        _ => None,
    }
}

/// The place and the distance of the nearest candidate so far, with one more.
fn nearer(found: Option<(usize, u32)>, at: usize, distance: Option<u32>) -> Option<(usize, u32)>
    ensures { result ≡ nearer found at distance }
{
    match distance {
        None => found,
        Some(distance) => match found {
            None => Some((at, distance)),
            Some((place, least)) => {
                if distance < least {
                    Some((at, distance))
                } else {
                    Some((place, least))
                }
            }
        },
    }
}

/// The place of the first candidate of least finite distance.
fn nearest(open: &[Candidate], distances: &[Option<u32>], checked: &Checked) -> Option<usize>
    requires { length distances.now ≡ 2 * length (checked.now).sites }
    ensures { IsFirst (IsAtPlace checked.now distances.now open.now) result }
{
    let mut least = None;
    for (at, candidate) in open.iter().enumerate() {
        least = nearer(least, at, distance_of(distances, checked, *candidate));
    }
    match least {
        Some((at, _)) => Some(at),
        None => None,
    }
}

/// Where a walk stands: its current run, the alternatives that are left, and the distances of all outcomes.
#[derive(Drop)]
pub(crate) struct Course {
    run: Made,
    open: Vec<Candidate>,
    far: Vec<Option<u32>>,
}

impl Course {
    /// At a run, with all its alternatives.
    fn new(task: &Task<'_>, flow: &Flow, log: &Log, run: Made) -> Result<Course, NoMemory>
        requires flow { FlowUpTo (task.now.checked).now (task.now.tac).now
            (length (task.now.tac).now.code) flow.now.before.rows.items flow.now.outcomes.rows.items
            flow.now.decisions.rows.items }
        requires run { RunOf (setting_of task.now) run.trace run.path }
        requires size { length log.now.covered.items ≡ 2 * length ((task.now.checked).now).sites }
        ensures { IfOk result (Fresh (setting_of task.now) (task.now.tac).now log.now run) }
    {
        let open = candidates(task.alloc, run.trace.events.as_slice())?;
        let far = distances_over(task.alloc, task.checked, task.tac, &log.covered, flow)?;
        Ok(Course { run, open, far })
    }

    /// Tries the nearest alternative; false where none has a distance, or all runs were made.
    fn step<K: Sink>(
        &mut self,
        task: &Task<'_>,
        flow: &Flow,
        log: &mut Log,
        out: &mut K,
    ) -> Result<bool, SearchFault>
        requires known { Known task.now }
        requires flow { FlowUpTo (task.now.checked).now (task.now.tac).now
            (length (task.now.tac).now.code) flow.now.before.rows.items flow.now.outcomes.rows.items
            flow.now.decisions.rows.items }
        requires ready { Ready (setting_of task.now) log.old self.old }
        ensures ready { OnOk result (Ready (setting_of task.now) log.new self.new) }
        ensures fewer { IfOk result (λ b. b ≡ true
            → left task.now.limit log.new self.new < left task.now.limit log.old self.old) }
        ensures ok { IfOk result (λ b. (start : PlainOption (List ℕ))
            → Led (setting_of task.now) task.now.limit (task.now.tac).now start (K.written out.old) log.old self.old
            → Went (setting_of task.now) task.now.limit (task.now.tac).now start
            (K.written out.new) log.new self.new b) }
        ensures err { OnErr result ((start : PlainOption (List ℕ))
            → Led (setting_of task.now) task.now.limit (task.now.tac).now start (K.written out.old) log.old self.old
            → WalkedSome (setting_of task.now) (FromBase (setting_of task.now) task.now.limit
            (task.now.tac).now true) start (K.written out.new)) }
        ensures sink { IfErr result (λ e. SinkCause (K.faults out.old) (K.faults out.new) e) }
        ensures never_falls { K.faults out.old ≤ K.faults out.new }
    {
        if log.made >= task.limit {
            return Ok(false);
        }
        let Some(at) = nearest(&self.open, &self.far, task.checked) else {
            return Ok(false);
        };
        let candidate = self.open.remove(at);
        let tried = log.try_one(task, &self.run, candidate.event, candidate.outcome, out)?;
        if let Some(tried) = tried {
            if tried.is_new {
                *self = Course::new(task, flow, log, tried.run)?;
            }
        }
        Ok(true)
    }
}

/// Walks from the base input to the alternatives from which the fewest decisions lead to an outcome that isn't covered.
pub(crate) fn directed_walk<K: Sink>(
    task: &Task<'_>,
    log: &mut Log,
    out: &mut K,
) -> Result<(), SearchFault>
    requires known { Known task.now }
    requires runs { 1 ≤ task.now.limit }
    requires nothing { Nothing (length ((task.now.checked).now).sites) log.old }
    ensures ok { OnOk result ((cuts : Bool)
        → Walked (setting_of task.now) (λ l. Directed (setting_of task.now) task.now.limit cuts (task.now.tac).now
        (base_of (setting_of task.now)) (candidates_at (setting_of task.now) (base_of (setting_of task.now)))
        (base_of (setting_of task.now) ∷ []) 1 l) (K.written out.old) (K.written out.new) log.new) }
    ensures err { OnErr result (WalkedSome (setting_of task.now)
        (λ l. Directed (setting_of task.now) task.now.limit true (task.now.tac).now (base_of (setting_of task.now))
        (candidates_at (setting_of task.now) (base_of (setting_of task.now))) (base_of (setting_of task.now) ∷ []) 1 l)
        (K.written out.old) (K.written out.new)) }
    ensures sink { IfErr result (λ e. SinkCause (K.faults out.old) (K.faults out.new) e) }
    ensures never_falls { K.faults out.old ≤ K.faults out.new }
{
    let _lowest = task.bounds.lo();
    let base = log.begin(task, out)?;
    let flow = Flow::new(task.alloc, task.checked, task.tac)?;
    let mut course = Course::new(task, &flow, log, base)?;
    'steps: loop {
        let goes_on = course.step(task, &flow, log, out)?;
        if !goes_on {
            return Ok(());
        }
    }
}
