//! The lines of a search.

ghost use Rattle.std.specs.Prelude.{◌<◌, ◌≤◌, ◌^◌, [], ◌∷◌, length, OnOk, OnErr, IfErr, All};
ghost use Rattle.cc_base.specs.Outcomes.{HasByte};
ghost use Rattle.cc_model.specs.Listing.{test_item, past_item, stray_item, spent_item, unrun_item};
ghost use Rattle.search_dfs.specs.Output.{out as told, Wrote, WroteSome};
ghost use Rattle.search_dfs.specs.Setting.{TraceOf};
ghost use Rattle.search_dfs.specs.Task.{setting_of, after_of};
ghost use Rattle.search_base.specs.Lines.{SinkCause};
ghost use Rattle.search_dfs.specs.Turns.{Ended, EndedSome, test_at};

use crate::open::Pending;
use crate::order::is_above;
use crate::tally::Tally;
use crate::task::Task;
use cc_model::base::{Input, PathText};
use cc_outside::Sink;
use search_base::{
    SearchFault, line_fits, past_line, spent_line, stray_line, test_line, unrun_line, write_line,
};

/// Lists a run as a test.
fn list_test<K: Sink>(
    task: &Task<'_>,
    run: &Pending,
    sink: &mut K,
    tally: &mut Tally,
) -> Result<(), SearchFault>
    requires { TraceOf (setting_of task.now) (run.now).from (run.now).trace (run.now).path }
    ensures ok { OnOk result (Wrote (setting_of task.now) (test_item (test_at run.now) ∷ [])
        (told (K.written sink.old) (K.faults sink.old) tally.old)
        (told (K.written sink.new) (K.faults sink.new) tally.new)) }
    ensures err { OnErr result (WroteSome (setting_of task.now) (test_item (test_at run.now) ∷ [])
        (told (K.written sink.old) (K.faults sink.old) tally.old)
        (told (K.written sink.new) (K.faults sink.new) tally.new)) }
    ensures sink { IfErr result (λ e. SinkCause (K.faults sink.old) (K.faults sink.new) e) }
    ensures never_falls { K.faults sink.old ≤ K.faults sink.new }
{
    let line = test_line(task.alloc, &run.trace, &run.path)?;
    tally.count_test(task, run)?;
    line_fits(run.trace.end);
    write_line(sink, &line)
}

/// Lists a run as a past one.
fn list_past<K: Sink>(
    task: &Task<'_>,
    run: &Pending,
    sink: &mut K,
    tally: &mut Tally,
) -> Result<(), SearchFault>
    requires { TraceOf (setting_of task.now) (run.now).from (run.now).trace (run.now).path }
    ensures ok { OnOk result (Wrote (setting_of task.now) (past_item (test_at run.now) ∷ [])
        (told (K.written sink.old) (K.faults sink.old) tally.old)
        (told (K.written sink.new) (K.faults sink.new) tally.new)) }
    ensures err { OnErr result (WroteSome (setting_of task.now) (past_item (test_at run.now) ∷ [])
        (told (K.written sink.old) (K.faults sink.old) tally.old)
        (told (K.written sink.new) (K.faults sink.new) tally.new)) }
    ensures sink { IfErr result (λ e. SinkCause (K.faults sink.old) (K.faults sink.new) e) }
    ensures never_falls { K.faults sink.old ≤ K.faults sink.new }
{
    let line = past_line(task.alloc, &run.trace, &run.path)?;
    tally.count_past(task, run)?;
    line_fits(run.trace.end);
    write_line(sink, &line)
}

/// Lists a run that ends: as a test, or as a past one.
pub(crate) fn list_run<K: Sink>(
    task: &Task<'_>,
    run: &Pending,
    sink: &mut K,
    tally: &mut Tally,
) -> Result<(), SearchFault>
    requires { TraceOf (setting_of task.now) (run.now).from (run.now).trace (run.now).path }
    ensures ok { OnOk result (Ended (setting_of task.now) (after_of task.now) (test_at run.now)
        (told (K.written sink.old) (K.faults sink.old) tally.old)
        (told (K.written sink.new) (K.faults sink.new) tally.new)) }
    ensures err { OnErr result (EndedSome (setting_of task.now) (after_of task.now) (test_at run.now)
        (told (K.written sink.old) (K.faults sink.old) tally.old)
        (told (K.written sink.new) (K.faults sink.new) tally.new)) }
    ensures sink { IfErr result (λ e. SinkCause (K.faults sink.old) (K.faults sink.new) e) }
    ensures never_falls { K.faults sink.old ≤ K.faults sink.new }
{
    if is_above(task.after, run.path.as_slice()) {
        list_test(task, run, sink, tally)?;
        return Ok(());
    }
    list_past(task, run, sink, tally)?;
    Ok(())
}

/// Lists a run that left its prediction.
pub(crate) fn list_stray<K: Sink>(
    task: &Task<'_>,
    run: &Pending,
    prefix: &PathText,
    sink: &mut K,
    tally: &mut Tally,
) -> Result<(), SearchFault>
    requires trace { TraceOf (setting_of task.now) (run.now).from (run.now).trace (run.now).path }
    requires prefix { All HasByte prefix.now }
    ensures ok { OnOk result (Wrote (setting_of task.now) (stray_item (test_at run.now) prefix.now ∷ [])
        (told (K.written sink.old) (K.faults sink.old) tally.old)
        (told (K.written sink.new) (K.faults sink.new) tally.new)) }
    ensures err { OnErr result (WroteSome (setting_of task.now) (stray_item (test_at run.now) prefix.now ∷ [])
        (told (K.written sink.old) (K.faults sink.old) tally.old)
        (told (K.written sink.new) (K.faults sink.new) tally.new)) }
    ensures sink { IfErr result (λ e. SinkCause (K.faults sink.old) (K.faults sink.new) e) }
    ensures never_falls { K.faults sink.old ≤ K.faults sink.new }
{
    let line = stray_line(task.alloc, &run.trace, &run.path, prefix)?;
    tally.count_stray(task, run)?;
    line_fits(run.trace.end);
    write_line(sink, &line)
}

/// Lists a prefix whose solve passed the budget.
pub(crate) fn list_spent<K: Sink>(
    task: &Task<'_>,
    prefix: &PathText,
    sink: &mut K,
    tally: &mut Tally,
) -> Result<(), SearchFault>
    requires { All HasByte prefix.now }
    ensures ok { OnOk result (Wrote (setting_of task.now) (spent_item prefix.now ∷ [])
        (told (K.written sink.old) (K.faults sink.old) tally.old)
        (told (K.written sink.new) (K.faults sink.new) tally.new)) }
    ensures err { OnErr result (WroteSome (setting_of task.now) (spent_item prefix.now ∷ [])
        (told (K.written sink.old) (K.faults sink.old) tally.old)
        (told (K.written sink.new) (K.faults sink.new) tally.new)) }
    ensures sink { IfErr result (λ e. SinkCause (K.faults sink.old) (K.faults sink.new) e) }
    ensures never_falls { K.faults sink.old ≤ K.faults sink.new }
{
    let line = spent_line(task.alloc, prefix)?;
    tally.count_spent()?;
    write_line(sink, &line)
}

/// Lists an input that is not run.
pub(crate) fn list_unrun<K: Sink>(
    task: &Task<'_>,
    input: &Input,
    prefix: &PathText,
    sink: &mut K,
    tally: &mut Tally,
) -> Result<(), SearchFault>
    requires prefix { All HasByte prefix.now }
    requires few { length (input.now).cells < 10 ^ 18 }
    ensures ok { OnOk result (Wrote (setting_of task.now) (unrun_item input.now prefix.now ∷ [])
        (told (K.written sink.old) (K.faults sink.old) tally.old)
        (told (K.written sink.new) (K.faults sink.new) tally.new)) }
    ensures err { OnErr result (WroteSome (setting_of task.now) (unrun_item input.now prefix.now ∷ [])
        (told (K.written sink.old) (K.faults sink.old) tally.old)
        (told (K.written sink.new) (K.faults sink.new) tally.new)) }
    ensures sink { IfErr result (λ e. SinkCause (K.faults sink.old) (K.faults sink.new) e) }
    ensures never_falls { K.faults sink.old ≤ K.faults sink.new }
{
    let line = unrun_line(task.alloc, input, prefix)?;
    tally.count_unrun()?;
    write_line(sink, &line)
}
