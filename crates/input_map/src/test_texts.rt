//! The test of a text.

ghost use Rattle.std.specs.Prelude.{◌≡◌, IfOk, IfErr, Ok, Err, List, ℕ};
ghost use Rattle.cc_base.specs.declared.ends.End.{End as SeenEnd};
ghost use Rattle.cc_base.specs.declared.inputs.Test.{Test as Seen};
ghost use Rattle.cc_base.specs.Paths.{Path};
ghost use Rattle.cc_model.specs.CheckedProgram.{core_of};
ghost use Rattle.input_map.specs.declared.faults.MapFault.{MapFault as SeenFault};
ghost use Rattle.input_map.specs.CellFaults.{Refused};
ghost use Rattle.input_map.specs.declared.faults.TestFault.TheVariants as fault;
ghost use Rattle.input_map.specs.TestTexts.{ThreeWords, IsTestText, TestRefused, WordsRefused, FaultOf, IsOrNoMemory};

use crate::faults::{MapFault, TestFault};
use crate::maps::read_map;
use cc_model::Checked;
use cc_model::base::{Bounds, End, PathText, Test};
use report_words::{cut_first, end_of, lacks, path_of};
use std::alloc::Global;

/// The words of a test's text, the first two of them read.
#[derive(Drop)]
struct Words<'a> {
    path: PathText,
    end: End,
    map: &'a [u8],
}

/// The three words of a text: that of a path, that of an end, and another.
fn three_words(alloc: Global, text: &[u8]) -> Result<Words<'_>, TestFault>
    ensures read { IfOk result (λ w. ThreeWords text.now w.path w.end w.map.now) }
    ensures only { (p : Path) (e : SeenEnd) (map : List ℕ) → ThreeWords text.now p e map
        → IfOk result (λ w. (w.path ≡ p) × (w.end ≡ e) × (w.map.now ≡ map)) }
    ensures refused { IfErr result (λ f. WordsRefused text.now f) }
{
    let Some(first) = cut_first(text, b' ') else {
        return Err(TestFault::Form);
    };
    let Some(second) = cut_first(first.behind, b' ') else {
        return Err(TestFault::Form);
    };
    if !lacks(second.behind, b' ') {
        return Err(TestFault::Form);
    }
    let Some(end) = end_of(second.before) else {
        return Err(TestFault::Form);
    };
    let Some(path) = path_of(alloc, first.before)? else {
        return Err(TestFault::Form);
    };
    Ok(Words {
        path,
        end,
        map: second.behind,
    })
}

/// The fault of a test whose input has this fault.
fn fault_of(fault: MapFault) -> TestFault
    ensures { FaultOf fault result }
{
    match fault {
        MapFault::Malformed(byte) => TestFault::Map(MapFault::Malformed(byte)),
        MapFault::NotCanonical(address) => TestFault::Map(MapFault::NotCanonical(address)),
        MapFault::Short => TestFault::Map(MapFault::Short),
        MapFault::Long(address) => TestFault::Map(MapFault::Long(address)),
        MapFault::OutOfBounds(address) => TestFault::Map(MapFault::OutOfBounds(address)),
        MapFault::StreamOutOfBounds(place) => TestFault::Map(MapFault::StreamOutOfBounds(place)),
        MapFault::NoMemory => TestFault::NoMemory,
    }
}

/// The test whose text this is, with an input within bounds. Form comes exactly where the text is not three words of
/// which the first is the text of a path and the second that of an end; Map where it is, and the third is refused as a
/// map text.
pub fn read_test(
    alloc: Global,
    text: &[u8],
    checked: &Checked,
    bounds: &Bounds,
) -> Result<Test, TestFault>
    ensures read { IfOk result (λ t. IsTestText (core_of checked.now) bounds.now text.now t) }
    ensures only { (t : Seen) → IsTestText (core_of checked.now) bounds.now text.now t → IsOrNoMemory result (Ok t) }
    ensures refused { IfErr result (λ f. TestRefused (core_of checked.now) bounds.now text.now f) }
    ensures only_form { ((p : Path) (e : SeenEnd) (map : List ℕ) → ThreeWords text.now p e map → ⊥)
        → IsOrNoMemory result (Err fault.Form) }
    ensures only_map { (p : Path) (e : SeenEnd) (map : List ℕ) (f : SeenFault) → ThreeWords text.now p e map
        → Refused (core_of checked.now) bounds.now map f → IsOrNoMemory result (Err (fault.Map f)) }
{
    let words = three_words(alloc, text)?;
    match read_map(alloc, words.map, checked, bounds) {
        Ok(input) => Ok(Test {
            path: words.path,
            end: words.end,
            input,
        }),
        Err(fault) => Err(fault_of(fault)),
    }
}
