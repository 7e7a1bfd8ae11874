//! Reports of listings.

ghost use Rattle.std.specs.Prelude.{◌≡◌, ℕ, List, Option};
ghost use Rattle.cc_base.specs.Paths.{Path, In};
ghost use Rattle.cc_model.specs.Core.{Program};
ghost use Rattle.cc_model.specs.Listing.{Item, Listing, Sound};
ghost use Rattle.cc_model.specs.Report.{report_text};
ghost use Rattle.cc_model.specs.Source.{IsProgram};
ghost use Rattle.cc_model.specs.Tested.{tested};
ghost use Rattle.replay.specs.ReportFiles.{AreBounds};
ghost use Rattle.search_base.specs.Readable.{CanBeRead};
ghost use Rattle.report_laws.specs.Words.{HasNarrowLines, HasWords};

/// A text is the report of one listing at most: of these bounds, of these items in this order, and of these terms.
pub fn a_report_is_of_one_listing()
    ensures { (l m : Listing) → HasWords l → HasWords m → report_text l ≡ report_text m → l ≡ m }
{}

/// A listing of a program has words that can be read again where its items are sound and can be read, and its numbers
/// have 64 bits.
pub fn a_readable_listing_has_words()
    ensures { (bytes entry : List ℕ) (p : Program) (after : Option Path) (l : Listing) → IsProgram bytes entry p
        → AreBounds l.bounds → Sound after (tested p l.bounds) l.items
        → ((x : Item) → In x l.items → CanBeRead x) → HasNarrowLines l → HasWords l }
{}
