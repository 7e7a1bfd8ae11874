//! A line of a tests file behind the first.

ghost use Rattle.std.specs.Prelude.{◌≡◌, ◌++◌, IfOk, IfSome, IsErr, List, ℕ, codes};
ghost use Rattle.cc_base.specs.declared.inputs.Test.{Test as Seen};
ghost use Rattle.cc_model.specs.CheckedProgram.{core_of};
ghost use Rattle.replay.specs.declared.line.Line.{Line as SeenLine};
ghost use Rattle.cc_base.specs.Paths.{Path};
ghost use Rattle.replay.specs.Behind.{HasSome};
ghost use Rattle.replay.specs.declared.line.Line.TheVariants as of;
ghost use Rattle.replay.specs.Forms.{IsOther};
ghost use Rattle.replay.specs.Lines.{IsLine};
ghost use Rattle.replay.specs.Reading.{Tells, IsFirst, IsBefore, IsStray, IsInputText, IsUnrun};
ghost use Rattle.input_map.specs.declared.faults.MapFault.TheVariants as map_fault;
ghost use Rattle.input_map.specs.TestTexts.{IsTestText};

use crate::bounds::is_text;
use crate::forms::is_other;
use cc_model::Checked;
use cc_model::base::{Bounds, NoMemory, Test};
use input_map::{MapFault, TestFault, read_map, read_test};
use report_words::{cut_first, cut_last, path_of};
use std::alloc::Global;

/// A line of a tests file.
#[derive(Drop)]
pub(crate) enum Line {
    /// One with a test.
    Test(Test),
    /// Another line of a report.
    Other,
    /// None of a report.
    Bad,
}

/// The test of a text, as a line.
fn test_line(
    alloc: Global,
    text: &[u8],
    checked: &Checked,
    bounds: &Bounds,
) -> Result<Line, NoMemory>
    ensures read { IfOk result (λ l. Tells (λ t. IsTestText (core_of checked.now) bounds.now text.now t) ⊥ l) }
    ensures only { (t : Seen) → IsTestText (core_of checked.now) bounds.now text.now t
        → IfOk result (λ l. l ≡ of.Test t) }
{
    match read_test(alloc, text, checked, bounds) {
        Ok(test) => Ok(Line::Test(test)),
        Err(TestFault::Form) => Ok(Line::Bad),
        Err(TestFault::Map(_)) => Ok(Line::Bad),
        Err(TestFault::NoMemory) => Err(NoMemory),
    }
}

/// What stands before a last word `after`.
fn before_after(text: &[u8]) -> Option<&[u8]>
    ensures read { IfSome result (λ b. text.now ≡ b.now ++ codes " after") }
    ensures only { (before : List ℕ) → text.now ≡ before ++ codes " after" → HasSome result (λ b. b.now ≡ before) }
{
    let parts = cut_last(text, b' ')?;
    if is_text(parts.behind, b"after") {
        Some(parts.before)
    } else {
        None
    }
}

/// What stands before ` after PREFIX`; None where the text does not end so.
fn before_prefix(alloc: Global, text: &[u8]) -> Result<Option<&[u8]>, NoMemory>
    ensures read { IfOk result (λ r. IfSome r (λ b. (q : Path) × IsBefore text.now b.now q)) }
    ensures only { (before : List ℕ) (q : Path) → IsBefore text.now before q
        → IfOk result (λ r. HasSome r (λ b. b.now ≡ before)) }
{
    match cut_last(text, b' ') {
        None => Ok(None),
        Some(parts) => match path_of(alloc, parts.behind)? {
            None => Ok(None),
            Some(_prefix) => Ok(before_after(parts.before)),
        },
    }
}

/// A line of a run that left its prediction, behind its first word.
fn stray_line(
    alloc: Global,
    text: &[u8],
    checked: &Checked,
    bounds: &Bounds,
) -> Result<Line, NoMemory>
    ensures read { IfOk result (λ l. Tells (λ t. IsStray (core_of checked.now) bounds.now text.now t) ⊥ l) }
    ensures only { (t : Seen) → IsStray (core_of checked.now) bounds.now text.now t → IfOk result (λ l. l ≡ of.Test t) }
{
    match before_prefix(alloc, text)? {
        Some(test) => test_line(alloc, test, checked, bounds),
        None => Ok(Line::Bad),
    }
}

/// A line of the input of a text.
fn input_line(
    alloc: Global,
    text: &[u8],
    checked: &Checked,
    bounds: &Bounds,
) -> Result<Line, NoMemory>
    ensures read { IfOk result (λ l. Tells (λ t. ⊥) (IsInputText (core_of checked.now) bounds.now text.now) l) }
    ensures only { IsInputText (core_of checked.now) bounds.now text.now → IfOk result (λ l. l ≡ of.Other) }
{
    match read_map(alloc, text, checked, bounds) {
        Ok(_input) => Ok(Line::Other),
        Err(fault) => without_input(fault),
    }
}

/// A line whose input has this fault.
fn without_input(fault: MapFault) -> Result<Line, NoMemory>
    ensures bad { IfOk result (λ l. l ≡ of.Bad) }
    ensures memory { fault ≡ map_fault.NoMemory → IsErr result }
{
    match fault {
        MapFault::Malformed(_) => Ok(Line::Bad),
        MapFault::NotCanonical(_) => Ok(Line::Bad),
        MapFault::Short => Ok(Line::Bad),
        MapFault::Long(_) => Ok(Line::Bad),
        MapFault::OutOfBounds(_) => Ok(Line::Bad),
        MapFault::StreamOutOfBounds(_) => Ok(Line::Bad),
        MapFault::NoMemory => Err(NoMemory),
    }
}

/// A line of an input that was not run, behind its first word.
fn unrun_line(
    alloc: Global,
    text: &[u8],
    checked: &Checked,
    bounds: &Bounds,
) -> Result<Line, NoMemory>
    ensures read { IfOk result (λ l. Tells (λ t. ⊥) (IsUnrun (core_of checked.now) bounds.now text.now) l) }
    ensures only { IsUnrun (core_of checked.now) bounds.now text.now → IfOk result (λ l. l ≡ of.Other) }
{
    match before_prefix(alloc, text)? {
        Some(map) => input_line(alloc, map, checked, bounds),
        None => Ok(Line::Bad),
    }
}

/// A line without an input.
fn other_line(alloc: Global, line: &[u8]) -> Result<Line, NoMemory>
    ensures read { IfOk result (λ l. Tells (λ t. ⊥) (IsOther line.now) l) }
    ensures only { IsOther line.now → IfOk result (λ l. l ≡ of.Other) }
{
    if is_other(alloc, line)? {
        Ok(Line::Other)
    } else {
        Ok(Line::Bad)
    }
}

/// The first word of a line.
#[derive(Clone, Copy)]
enum First {
    Test,
    Past,
    Stray,
    Unrun,
    /// One behind which no input stands.
    Other,
}

/// What the first word of a line is.
fn first_of(word: &[u8]) -> First
    ensures { IsFirst word.now result }
{
    match word {
        b"test" => First::Test,
        b"past" => First::Past,
        b"stray" => First::Stray,
        b"unrun" => First::Unrun,
        _ => First::Other,
    }
}

/// What a line is, within the file's bounds.
pub(crate) fn read_line(
    alloc: Global,
    line: &[u8],
    checked: &Checked,
    bounds: &Bounds,
) -> Result<Line, NoMemory>
    ensures read { IfOk result (λ l. Tells (λ t. IsLine (core_of checked.now) bounds.now line.now (of.Test t))
        (IsLine (core_of checked.now) bounds.now line.now of.Other) l) }
    ensures only { (l : SeenLine) → IsLine (core_of checked.now) bounds.now line.now l → IfOk result (λ r. r ≡ l) }
{
    match cut_first(line, b' ') {
        None => Ok(Line::Bad),
        Some(parts) => match first_of(parts.before) {
            First::Test => test_line(alloc, parts.behind, checked, bounds),
            First::Past => test_line(alloc, parts.behind, checked, bounds),
            First::Stray => stray_line(alloc, parts.behind, checked, bounds),
            First::Unrun => unrun_line(alloc, parts.behind, checked, bounds),
            First::Other => other_line(alloc, line),
        },
    }
}
