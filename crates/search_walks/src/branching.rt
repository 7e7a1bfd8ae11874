//! The walk by random branches.

ghost use Rattle.std.specs.Prelude.{◌≡◌, IsTrue, false, ◌<◌, ◌≤◌, ◌*◌, ℕ, Bool, true, List, Option, length, OnOk};
ghost use Rattle.std.specs.Prelude.{OnErr, IfErr};
ghost use Rattle.rand_pcg.specs.Lcg.{Lcg};
ghost use Rattle.search_walks.specs.Branching.{Offering, FromBase, CameTo, left_to_draw};
ghost use Rattle.search_walks.specs.Counted.{Nothing};
ghost use Rattle.search_walks.specs.Logged.{Walked, WalkedSome};
ghost use Rattle.search_base.specs.Lines.{SinkCause};
ghost use Rattle.search_walks.specs.Task.{setting_of, Known};
ghost use Rattle.search_base.specs.Setting.{base_of};
ghost use Rattle.search_walks.specs.Walks.{candidates as candidates_at, Branches};

use crate::candidates::{Candidate, candidates};
use crate::draws::draw;
use crate::log::Log;
use crate::runs::Made;
use crate::task::Task;
use cc_outside::Sink;
use rand_pcg::Pcg32;
use search_base::SearchFault;

/// Whether one more run may be made.
pub(crate) fn may_run(made: u32, limit: u32) -> bool
    ensures below { IsTrue result → made < limit }
    ensures fits { IsTrue result → made < 4294967295 }
    ensures full { result ≡ false → limit ≤ made }
{
    made < limit
}

/// Where a walk by random branches stands: the current run, and its alternatives that are left.
#[derive(Drop)]
struct Branching {
    current: Made,
    open: Vec<Candidate>,
}

impl Branching {
    /// Draws one of the alternatives that are left; what its input gives becomes the current run.
    fn step<K: Sink>(
        &mut self,
        task: &Task<'_>,
        words: &mut Pcg32,
        log: &mut Log,
        out: &mut K,
    ) -> Result<(), SearchFault>
        requires known { Known task.now }
        requires room { log.old.made < task.now.limit }
        requires fits { log.old.made < 4294967295 }
        requires some { 1 ≤ length self.old.open.items }
        requires offering { Offering (setting_of task.now) self.old.current self.old.open.items }
        requires size { length log.old.covered.items ≡ 2 * length ((task.now.checked).now).sites }
        ensures came { OnOk result ((start : Lcg) (before : Option (List ℕ))
            → CameTo (setting_of task.now) task.now.limit start before self.old.current self.old.open.items words.old
            log.old (K.written out.old) → CameTo
            (setting_of task.now) task.now.limit start before self.new.current self.new.open.items words.new log.new
            (K.written out.new)) }
        ensures offering { OnOk result (Offering (setting_of task.now) self.new.current self.new.open.items) }
        ensures within { OnOk result (log.new.made ≤ task.now.limit) }
        ensures falls { OnOk result (left_to_draw task.now.limit log.new.made (length self.new.open.items)
            < left_to_draw task.now.limit log.old.made (length self.old.open.items)) }
        ensures err { OnErr result ((start : Lcg) (before : Option (List ℕ))
            → CameTo (setting_of task.now) task.now.limit start before self.old.current self.old.open.items words.old
            log.old (K.written out.old) → WalkedSome (setting_of task.now)
            (FromBase (setting_of task.now) task.now.limit start true) before (K.written out.new)) }
        ensures sink { IfErr result (λ e. SinkCause (K.faults out.old) (K.faults out.new) e) }
        ensures never_falls { K.faults out.old ≤ K.faults out.new }
    {
        let at = draw(words, self.open.len() as u32);
        let candidate = self.open.remove(at as usize);
        let tried = log.try_one(task, &self.current, candidate.event, candidate.outcome, out)?;
        let Some(tried) = tried else {
            return Ok(());
        };
        self.open = candidates(task.alloc, tried.run.trace.events.as_slice())?;
        self.current = tried.run;
        Ok(())
    }
}

/// Walks from the base input: it draws one of the current run's alternatives that are left, and what its input gives
/// becomes the current run.
pub(crate) fn branch_walk<K: Sink>(
    task: &Task<'_>,
    words: &mut Pcg32,
    log: &mut Log,
    out: &mut K,
) -> Result<(), SearchFault>
    requires known { Known task.now }
    requires runs { 1 ≤ task.now.limit }
    requires nothing { Nothing (length ((task.now.checked).now).sites) log.old }
    ensures ok { OnOk result ((cuts : Bool)
        → Walked (setting_of task.now) (λ l. Branches (setting_of task.now) task.now.limit cuts
        (base_of (setting_of task.now)) (candidates_at (setting_of task.now)
        (base_of (setting_of task.now))) words.old 1 l) (K.written out.old) (K.written out.new) log.new) }
    ensures err { OnErr result (WalkedSome (setting_of task.now)
        (λ l. Branches (setting_of task.now) task.now.limit true (base_of (setting_of task.now))
        (candidates_at (setting_of task.now) (base_of (setting_of task.now))) words.old 1 l) (K.written out.old)
        (K.written out.new)) }
    ensures sink { IfErr result (λ e. SinkCause (K.faults out.old) (K.faults out.new) e) }
    ensures never_falls { K.faults out.old ≤ K.faults out.new }
{
    let _lowest = task.bounds.lo();
    let current = log.begin(task, out)?;
    let open = candidates(task.alloc, current.trace.events.as_slice())?;
    let mut walk = Branching { current, open };
    'draws: while may_run(log.made, task.limit) {
        if walk.open.is_empty() {
            return Ok(());
        }
        walk.step(task, words, log, out)?;
    }
    Ok(())
}
