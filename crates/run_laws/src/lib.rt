//! What holds of every traced run beside its own input, as the contract of a function that does nothing.
#![tactic(auto)]

ghost use Rattle.cc_base.specs.declared.inputs.Input.{Input};
ghost use Rattle.cc_base.specs.Limits.{Limits};
ghost use Rattle.cc_model.specs.Core.{Program};
ghost use Rattle.cc_model.specs.Graphs.{PointsToCells};
ghost use Rattle.cc_model.specs.Runs.{IsInput, params_of};
ghost use Rattle.run_laws.specs.Lawful.{Lawful};

/// A traced run keeps the laws of its places, its conditions and its events, also behind a term.
pub fn a_run_is_lawful()
    ensures { (p : Program) (b : Limits) (u : Input) → PointsToCells p.layouts (params_of p) → IsInput p b u
        → Lawful p b u }
{}
