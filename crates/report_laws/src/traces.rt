//! Texts of traces.

ghost use Rattle.std.specs.Prelude.{◌≡◌};
ghost use Rattle.cc_base.specs.declared.inputs.Input.{Input};
ghost use Rattle.cc_base.specs.Limits.{Limits};
ghost use Rattle.cc_model.specs.Core.{Program};
ghost use Rattle.report_laws.specs.Traces.{trace_text, told};
ghost use Rattle.report_laws.specs.Words.{HasTraceWords};

/// A text tells of one run at most: under these bounds, on this input, with this path and this end, and with these
/// events in this order, each with its outcome, its line and what happened there. The program may be another one.
pub fn a_trace_is_of_one_run()
    ensures { (p q : Program) (b c : Limits) (g h : Input) → HasTraceWords p b g → HasTraceWords q c h
        → trace_text p b g ≡ trace_text q c h → told p b g ≡ told q c h }
{}
