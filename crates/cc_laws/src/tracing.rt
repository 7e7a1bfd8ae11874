//! Traced runs: what they add, and what their conditions are worth.

ghost use Rattle.std.specs.Prelude.{◌≡◌, ◌≤◌, ◌<◌, ◌↔◌, ℕ, true, map};
ghost use Rattle.cc_base.specs.Forms.{Form};
ghost use Rattle.cc_base.specs.declared.inputs.Input.{Input};
ghost use Rattle.cc_base.specs.Limits.{Limits};
ghost use Rattle.cc_model.specs.Core.{Program};
ghost use Rattle.cc_model.specs.Runs.{IsInput, params_of, path_of, path_at, end_of, end_at, run_of};
ghost use Rattle.cc_model.specs.Graphs.{PointsToCells};
ghost use Rattle.cc_model.specs.FormOperations.{Forms};
ghost use Rattle.cc_model.specs.Traced.{traced};
ghost use Rattle.cc_model.specs.Conditions.{bare, steps_left, clean, events_of, traced_run};
ghost use Rattle.cc_model.specs.Exact.{SameFirst, Exact, Exhausts, Alike};
ghost use Rattle.sym_expr.specs.Sums.{IsNarrow};
ghost use Rattle.cc_laws.specs.LinearForms.{is_narrow, linear};

/// A traced run without what its events ask is the plain run: the same events at the same sites, the same path, the
/// same end, the same steps.
pub fn tracing_adds_nothing()
    ensures events { (f : Forms) (p : Program) (b : Limits) (h : Input)
        → map bare (events_of f p b h) ≡ (run_of p b h).log }
    ensures path { (f : Forms) (p : Program) (b : Limits) (h : Input)
        → path_of (traced f p.layouts) (events_of f p b h) ≡ path_at p b h }
    ensures end { (f : Forms) (p : Program) (b : Limits) (h : Input)
        → end_of (traced_run f p b h).result ≡ end_at p b h }
    ensures steps { (f : Forms) (p : Program) (b : Limits) (h : Input)
        → steps_left (traced_run f p b h).result ≡ steps_left (run_of p b h).result }
{}

/// A form is kept exactly where it is within the limits of forms.
pub fn forms_are_kept_where_narrow()
    ensures { (g : Form) → is_narrow g ≡ true ↔ IsNarrow g }
{}

/// Up to a run's first term, an input has the run's first outcomes exactly where it meets the condition that the run
/// collected there.
pub fn conditions_are_exact()
    ensures { (p : Program) (b : Limits) (u : Input) (k : ℕ) → PointsToCells p.layouts (params_of p) → IsInput p b u
        → k ≤ clean (events_of linear p b u) → Exact linear p b u k }
{}

/// At each event before the first term, an input that has the outcomes before it has an event there too, and exactly
/// one of the run's own outcome and its alternatives, namely the one whose atoms hold of the input.
pub fn outcomes_are_exhausted()
    ensures { (p : Program) (b : Limits) (u : Input) (k : ℕ) → PointsToCells p.layouts (params_of p) → IsInput p b u
        → k < clean (events_of linear p b u) → Exhausts linear p b u k }
{}

/// Two inputs with the same first outcomes have the same condition there, up to the first term, and the same outcomes
/// with the same atoms at the next event.
pub fn same_outcomes_ask_alike()
    ensures { (p : Program) (b : Limits) (u h : Input) (k : ℕ) → PointsToCells p.layouts (params_of p) → IsInput p b u
        → IsInput p b h
        → k ≤ clean (events_of linear p b u) → SameFirst linear p b k h u → Alike linear p b u h k }
{}
