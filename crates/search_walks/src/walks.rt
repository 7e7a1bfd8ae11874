//! The walks.

ghost use Rattle.std.specs.Prelude.{◌≡◌, ◌≤◌, IfOk, IfErr, OnErr};
ghost use Rattle.cc_model.specs.declared.commands.Strategy.TheVariants.{Dfs, Random, UniformRandom, Cfg};
ghost use Rattle.search_base.specs.Lines.{SinkCause};
ghost use Rattle.search_walks.specs.Task.{Known, WalkedBy, WalkedSome};

use crate::branching::branch_walk;
use crate::directed::directed_walk;
use crate::log::{Log, WalkSummary};
use crate::passing::uniform_walk;
use crate::task::Task;
use cc_model::Strategy;
use cc_outside::Sink;
use rand_core::SeedableRng;
use rand_pcg::Pcg32;
use search_base::SearchFault;

/// Walks by random branches: an alternative of the current run is drawn among those that are left, and solved. The walk
/// ends where nothing is left.
fn random_branch<K: Sink>(
    task: &Task<'_>,
    seed: u64,
    out: &mut K,
) -> Result<WalkSummary, SearchFault>
    requires known { Known task.now }
    requires runs { 1 ≤ task.now.limit }
    ensures walked { IfOk result (λ w. WalkedBy Random task.now seed (K.written out.old) (K.written out.new) w) }
    ensures part { OnErr result (WalkedSome Random task.now seed (K.written out.old) (K.written out.new)) }
    ensures sink { IfErr result (λ e. SinkCause (K.faults out.old) (K.faults out.new) e) }
    ensures never_falls { K.faults out.old ≤ K.faults out.new }
{
    let _lowest = task.bounds.lo();
    let mut words = Pcg32::seed_from_u64(seed);
    let mut log = Log::new(task.alloc, task.checked)?;
    branch_walk(task, &mut words, &mut log, out)?;
    log.finish(task, out)
}

/// Walks by passes over runs, from the base run on: at each event with alternatives one of all its outcomes is drawn.
/// The walk ends after as many passes as runs may be made.
fn uniform_random<K: Sink>(
    task: &Task<'_>,
    seed: u64,
    out: &mut K,
) -> Result<WalkSummary, SearchFault>
    requires known { Known task.now }
    requires runs { 1 ≤ task.now.limit }
    ensures walked { IfOk result (λ w. WalkedBy UniformRandom task.now seed (K.written out.old) (K.written out.new) w) }
    ensures part { OnErr result (WalkedSome UniformRandom task.now seed (K.written out.old) (K.written out.new)) }
    ensures sink { IfErr result (λ e. SinkCause (K.faults out.old) (K.faults out.new) e) }
    ensures never_falls { K.faults out.old ≤ K.faults out.new }
{
    let _lowest = task.bounds.lo();
    let mut words = Pcg32::seed_from_u64(seed);
    let mut log = Log::new(task.alloc, task.checked)?;
    uniform_walk(task, &mut words, &mut log, out)?;
    log.finish(task, out)
}

/// Walks by the flow of the code: of the current run's alternatives at decisions the one is taken from which the fewest
/// further decisions lead to an outcome that no run took; on a tie the one at the earliest event. The walk ends where no
/// alternative leads there. Nothing is drawn.
fn cfg_directed<K: Sink>(
    task: &Task<'_>,
    seed: u64,
    out: &mut K,
) -> Result<WalkSummary, SearchFault>
    requires known { Known task.now }
    requires runs { 1 ≤ task.now.limit }
    ensures walked { IfOk result (λ w. WalkedBy Cfg task.now seed (K.written out.old) (K.written out.new) w) }
    ensures part { OnErr result (WalkedSome Cfg task.now seed (K.written out.old) (K.written out.new)) }
    ensures sink { IfErr result (λ e. SinkCause (K.faults out.old) (K.faults out.new) e) }
    ensures never_falls { K.faults out.old ≤ K.faults out.new }
{
    let _nothing_is_drawn = seed;
    let _lowest = task.bounds.lo();
    let mut log = Log::new(task.alloc, task.checked)?;
    directed_walk(task, &mut log, out)?;
    log.finish(task, out)
}

/// Walks over the runs of a checked program's tested function by a strategy that is no depth-first search. The seed is
/// that of the draws.
///
/// Each run is listed as it is made, and the lines of the terms come behind. The walk ends as its strategy says, or at
/// once when `limit` runs were made, of which there is one at least. Sink only where the sink's faults rose; what was
/// written by then is a first part of such lines.
pub fn walk<K: Sink>(
    task: &Task<'_>,
    strategy: Strategy,
    seed: u64,
    out: &mut K,
) -> Result<WalkSummary, SearchFault>
    requires known { Known task.now }
    requires runs { 1 ≤ task.now.limit }
    requires walk { strategy ≡ Dfs → ⊥ }
    ensures walked { IfOk result (λ w. WalkedBy strategy task.now seed (K.written out.old) (K.written out.new) w) }
    ensures part { OnErr result (WalkedSome strategy task.now seed (K.written out.old) (K.written out.new)) }
    ensures sink { IfErr result (λ e. SinkCause (K.faults out.old) (K.faults out.new) e) }
    ensures never_falls { K.faults out.old ≤ K.faults out.new }
{
    match strategy {
        Strategy::Dfs => unreachable!(),
        Strategy::Random => random_branch(task, seed, out),
        Strategy::UniformRandom => uniform_random(task, seed, out),
        Strategy::Cfg => cfg_directed(task, seed, out),
    }
}
