//! Runs that a walk makes.

ghost use Rattle.std.specs.Prelude.{◌≡◌, ◌<◌, ◌^◌, length, IfOk};
ghost use Rattle.search_base.specs.Setting.{within_of};
ghost use Rattle.search_walks.specs.Made.{RunOf};
ghost use Rattle.search_walks.specs.Task.{setting_of, Known};

use crate::task::Task;
use cc_model::base::{Input, NoMemory, PathText};
use search_base::line_fits;
use sym_run::{Trace, run};

/// A run that was made.
#[derive(Drop)]
pub struct Made {
    pub trace: Trace,
    pub path: PathText,
}

/// A run on an input.
pub(crate) fn made_on(task: &Task<'_>, input: &Input) -> Result<Made, NoMemory>
    requires known { Known task.now }
    requires within { within_of (setting_of task.now) input.now }
    requires few { length (input.now).cells < 10 ^ 18 }
    ensures run { IfOk result (λ r. RunOf (setting_of task.now) r.trace r.path) }
    ensures input { IfOk result (λ r. (r.trace).input ≡ input.now) }
{
    let _depth = task.bounds.depth();
    let trace = run(task.alloc, task.checked, task.tac, input, task.bounds)?;
    let path = trace.path(task.alloc)?;
    line_fits(trace.end);
    Ok(Made { trace, path })
}
