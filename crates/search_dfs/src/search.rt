//! The depth-first search as a whole.

ghost use Rattle.std.specs.Prelude.{◌≡◌, ◌^◌, ◌<◌, ◌≤◌, length, IfOk, OnOk, OnErr, IfErr};
ghost use Rattle.search_dfs.specs.declared.open.Pending.{Pending as Kept};
ghost use Rattle.search_dfs.specs.Explored.{Explored, ExploredSome, Counted, HasNumbers};
ghost use Rattle.search_dfs.specs.Laws.{Laws};
ghost use Rattle.search_dfs.specs.Output.{out as told};
ghost use Rattle.search_base.specs.Setting.{layer_of, within_of, base_of};
ghost use Rattle.search_dfs.specs.Task.{setting_of, after_of, Known};
ghost use Rattle.search_base.specs.Lines.{SinkCause};
ghost use Rattle.search_dfs.specs.Turns.{Begins};
ghost use Rattle.search_dfs.specs.Whole.{Listed_whole, Listed_part};

use crate::laws::laws_hold;
use crate::open::Open;
use crate::runs::made_run;
use crate::tally::Tally;
use crate::task::Task;
use cc_model::base::{Input, Items, NoMemory};
use cc_outside::Sink;
use input_map::base_input;
use path_tree::Tree;
use search_base::{SearchFault, narrow, write_terms};
use std::alloc::Global;

/// The counts of a finished search: its tests, its runs, its terms, the prefixes whose solve passed the budget, the
/// tests that the bound on steps ended, the runs that left their prediction, the inputs that were not run, and whether
/// a test or stray run ended as a fault.
#[derive(Clone, Copy)]
pub struct Summary {
    pub paths: u64,
    pub runs: u64,
    pub terms: u64,
    pub spent: u64,
    pub steps: u64,
    pub strays: u64,
    pub unrun: u64,
    pub fault: bool,
}

/// The start of a search: the base run is to be gone into.
fn begin(task: &Task<'_>, base: &Input) -> Result<Open, NoMemory>
    requires known { Known task.now }
    requires within { within_of (setting_of task.now) base.now }
    requires base { base.now ≡ base_of (setting_of task.now) }
    requires few { length (base.now).cells < 10 ^ 18 }
    ensures { IfOk result (λ b. (v : Kept) × Begins (setting_of task.now) b v) }
{
    let first = made_run(task, base, 0)?;
    let tree = Tree::new(task.alloc, task.bounds.depth())?;
    let mut runs = Items::new(task.alloc);
    runs.push(first)?;
    Ok(Open {
        tree,
        depth: 0,
        runs,
        made: 1,
        stopped: false,
    })
}

/// Searches from the base input on, and writes the keyed lines.
fn search_all<K: Sink>(task: &Task<'_>, sink: &mut K, tally: &mut Tally) -> Result<(), SearchFault>
    requires known { Known task.now }
    requires laws { Laws (layer_of (setting_of task.now)) }
    requires runs { 1 ≤ task.now.limit }
    ensures ok { OnOk result (Listed_whole (setting_of task.now) (after_of task.now) task.now.limit
        (told (K.written sink.old) (K.faults sink.old) tally.old)
        (told (K.written sink.new) (K.faults sink.new) tally.new)) }
    ensures err { OnErr result (Listed_part (setting_of task.now) (after_of task.now) task.now.limit
        (told (K.written sink.old) (K.faults sink.old) tally.old)
        (told (K.written sink.new) (K.faults sink.new) tally.new)) }
    ensures sink { IfErr result (λ e. SinkCause (K.faults sink.old) (K.faults sink.new) e) }
    ensures never_falls { K.faults sink.old ≤ K.faults sink.new }
{
    let base = base_input(task.alloc, task.checked, task.bounds)?;
    let mut open = begin(task, &base)?;
    open.go_down(task, sink, tally)?;
    'turns: while open.depth > 0 {
        open.step(task, sink, tally)?;
    }
    Ok(())
}

/// The numbers of a summary have 64 bits.
fn with_numbers(summary: Summary) -> Summary
    ensures same { result ≡ summary }
    ensures numbers { HasNumbers result }
{
    summary
}

/// What was counted.
fn summed(tally: &Tally) -> Summary
    ensures counted { Counted tally.now result }
    ensures numbers { HasNumbers result }
{
    with_numbers(Summary {
        paths: tally.paths,
        runs: tally.runs,
        terms: tally.terms.len() as u64,
        spent: tally.spent,
        steps: tally.steps,
        strays: tally.strays,
        unrun: tally.unrun,
        fault: tally.fault,
    })
}

/// Searches the paths of a checked program's tested function depth first, with at most `limit` runs, of which there is
/// one at least, and a budget for each group of a solve, above the path `after` where one is given. It writes the keyed
/// lines, each as soon as no smaller key can come, and then the lines of the terms. Sink only where the sink's faults
/// rose; what was written by then is a first part of such lines.
pub fn explore<K: Sink>(task: &Task<'_>, out: &mut K) -> Result<Summary, SearchFault>
    requires known { Known task.now }
    requires runs { 1 ≤ task.now.limit }
    ensures explored { IfOk result (λ s. Explored (setting_of task.now) (after_of task.now) task.now.limit
        (K.written out.old) (K.written out.new) s) }
    ensures some { OnErr result (ExploredSome (setting_of task.now) (after_of task.now)
        (K.written out.old) (K.written out.new)) }
    ensures sink { IfErr result (λ e. SinkCause (K.faults out.old) (K.faults out.new) e) }
    ensures never_falls { K.faults out.old ≤ K.faults out.new }
{
    laws_hold(task);
    let mut tally = Tally::new(task.alloc);
    search_all(task, out, &mut tally)?;
    write_terms(task.alloc, tally.terms.as_slice(), out)?;
    narrow(tally.terms.as_slice());
    Ok(summed(&tally))
}
