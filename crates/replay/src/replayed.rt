//! The replay of a test.

ghost use Rattle.std.specs.Prelude.{◌≡◌, IsTrue, IfOk, false, map};
ghost use Rattle.cc_model.specs.CheckedProgram.{core_of};
ghost use Rattle.cc_model.specs.Compiles.{Compiles};
ghost use Rattle.cc_model.specs.Graphs.{PointsToCells};
ghost use Rattle.cc_model.specs.Runs.{params_of, IsInput};
ghost use Rattle.tac_lower.specs.Finished.{first_in};
ghost use Rattle.tac_lower.specs.Seen.{seen};
ghost use Rattle.replay.specs.Replays.{Replays, HasBytes};

use cc_model::Checked;
use cc_model::base::{Bounds, End, NoMemory, Outcome, PathText, Test};
use std::alloc::Global;
use sym_run::run;
use tac_lower::Tac;

/// What comes of a replay.
#[derive(Drop)]
pub enum Replayed {
    /// The run takes the test's path to the test's end.
    Same,
    /// It does not; the path and the end that it takes.
    Differs(PathText, End),
}

/// Whether two outcomes are one.
fn is_same(a: Outcome, b: Outcome) -> bool
    ensures same { IsTrue result → a ≡ b }
    ensures other { result ≡ false → a ≡ b → ⊥ }
{
    a == b
}

/// Whether two paths are one.
fn is_same_path(a: &[Outcome], b: &[Outcome]) -> bool
    ensures same { IsTrue result → a.now ≡ b.now }
    ensures other { result ≡ false → a.now ≡ b.now → ⊥ }
{
    if a.len() != b.len() {
        return false;
    }
    for i in 0..a.len() {
        if !is_same(a[i], b[i]) {
            return false;
        }
    }
    true
}

/// Whether two ends are one.
fn is_same_end(a: End, b: End) -> bool
    ensures same { IsTrue result → a ≡ b }
    ensures other { result ≡ false → a ≡ b → ⊥ }
{
    a == b
}

/// Runs the input of a test. Differs comes exactly where the run doesn't take the test's path to the test's end.
pub fn replay_test(
    alloc: Global,
    checked: &Checked,
    tac: &Tac,
    test: &Test,
    bounds: &Bounds,
) -> Result<Replayed, NoMemory>
    requires compiles { Compiles (core_of checked.now) (map (seen checked.now) tac.now.code) (λ f. first_in tac.now f) }
    requires points { PointsToCells (core_of checked.now).layouts (params_of (core_of checked.now)) }
    requires input { IsInput (core_of checked.now) bounds.now test.now.input }
    ensures told { IfOk result (λ r. Replays (core_of checked.now) bounds.now test.now r) }
    ensures bytes { IfOk result (λ r. HasBytes r) }
{
    let trace = run(alloc, checked, tac, &test.input, bounds)?;
    let path = trace.path(alloc)?;
    let is_real = is_same_path(path.as_slice(), test.path.as_slice())
        && is_same_end(trace.end, test.end);
    if is_real {
        Ok(Replayed::Same)
    } else {
        Ok(Replayed::Differs(path, trace.end))
    }
}
