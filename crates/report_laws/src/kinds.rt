//! Reports of listings, of walks and of traces.

ghost use Rattle.std.specs.Prelude.{◌≡◌, ◌++◌, ℕ, List, []};
ghost use Rattle.cc_base.specs.declared.inputs.Input.{Input};
ghost use Rattle.cc_base.specs.Limits.{Limits};
ghost use Rattle.cc_model.specs.Core.{Program};
ghost use Rattle.cc_model.specs.Listing.{Listing};
ghost use Rattle.cc_model.specs.Report.{report_text};
ghost use Rattle.report_laws.specs.Traces.{trace_text};
ghost use Rattle.report_laws.specs.Walks.{Walk, walk_report};
ghost use Rattle.report_laws.specs.Words.{HasWords, HasWalkWords, HasTraceWords};

/// The report of a listing is that of no walk and no trace, and the report of a walk is no trace.
pub fn reports_of_three_kinds_differ()
    ensures listing_walk { (l : Listing) (w : Walk) → HasWords l → HasWalkWords w
        → report_text l ≡ walk_report w → ⊥ }
    ensures listing_trace { (l : Listing) (p : Program) (b : Limits) (h : Input) → HasWords l → HasTraceWords p b h
        → report_text l ≡ trace_text p b h → ⊥ }
    ensures walk_trace { (w : Walk) (p : Program) (b : Limits) (h : Input) → HasWalkWords w → HasTraceWords p b h
        → walk_report w ≡ trace_text p b h → ⊥ }
{}

/// The report of a listing or of a walk begins no other report of a listing or a walk. So a first part of one is none.
pub fn no_report_begins_another()
    ensures listing { (l m : Listing) (rest : List ℕ) → HasWords l → HasWords m
        → report_text l ++ rest ≡ report_text m → rest ≡ [] }
    ensures walk { (w v : Walk) (rest : List ℕ) → HasWalkWords w → HasWalkWords v
        → walk_report w ++ rest ≡ walk_report v → rest ≡ [] }
    ensures listing_walk { (l : Listing) (w : Walk) (rest : List ℕ) → HasWords l → HasWalkWords w
        → report_text l ++ rest ≡ walk_report w → ⊥ }
    ensures walk_listing { (w : Walk) (l : Listing) (rest : List ℕ) → HasWalkWords w → HasWords l
        → walk_report w ++ rest ≡ report_text l → ⊥ }
{}
