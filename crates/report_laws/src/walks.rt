//! Reports of walks.

ghost use Rattle.std.specs.Prelude.{◌≡◌, ◌<◌, ◌^◌, ℕ, List};
ghost use Rattle.cc_base.specs.declared.inputs.Input.{Input};
ghost use Rattle.cc_base.specs.declared.inputs.Test.{Test};
ghost use Rattle.cc_base.specs.Paths.{Path, In};
ghost use Rattle.cc_model.specs.Core.{Program};
ghost use Rattle.cc_model.specs.Listing.{Item, unrun_item, WasRun};
ghost use Rattle.cc_model.specs.Runs.{IsInput};
ghost use Rattle.cc_model.specs.Source.{IsProgram};
ghost use Rattle.cc_model.specs.Tested.{Term, Real, tested};
ghost use Rattle.replay.specs.ReportFiles.{AreBounds};
ghost use Rattle.search_base.specs.Readable.{CanBeRead, IsNarrow};
ghost use Rattle.report_laws.specs.Walks.{Walk, walk_report};
ghost use Rattle.report_laws.specs.Words.{HasWalkWords};

/// A text is the report of one walk at most: of these bounds, of these items in this order, of these terms, and with
/// these numbers in its last line.
pub fn a_walk_report_is_of_one_walk()
    ensures { (w v : Walk) → HasWalkWords w → HasWalkWords v → walk_report w ≡ walk_report v → w ≡ v }
{}

/// A walk over a program has words that can be read again where its tests are real, its items and terms can be read,
/// and its numbers have 64 bits.
pub fn a_readable_walk_has_words()
    ensures { (bytes entry : List ℕ) (p : Program) (w : Walk) → IsProgram bytes entry p → AreBounds w.bounds
        → ((t : Test) → WasRun t w.items → Real (tested p w.bounds) t)
        → ((i : Input) (q : Path) → In (unrun_item i q) w.items → IsInput p w.bounds i)
        → ((x : Item) → In x w.items → CanBeRead x) → ((e : Term) → In e w.terms → IsNarrow e)
        → w.runs < 2 ^ 64 → w.covered < 2 ^ 64 → w.outcomes < 2 ^ 64 → HasWalkWords w }
{}
