//! Ends of runs.

ghost use Rattle.std.specs.Prelude.{◌≡◌, ◌||◌};
ghost use Rattle.cc_model.specs.Report.{is_fault};
ghost use Rattle.report_words.specs.Words.{HasLine};

use cc_model::base::End;

/// Whether a run ends as a fault.
pub fn is_fault(end: End) -> bool
    ensures { result ≡ is_fault end }
{
    match end {
        End::Fault(_, _) => true,
        End::Return | End::Assume | End::Cut | End::Objects | End::Steps => false,
    }
}

/// Whether one of them holds.
pub fn either(a: bool, b: bool) -> bool
    ensures { result ≡ a || b }
{
    a || b
}

/// The line of an end has 32 bits.
pub fn line_fits(end: End)
    ensures { HasLine end }
{}
