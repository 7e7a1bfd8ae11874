//! Tests files.

ghost use Rattle.std.specs.Prelude.{◌<◌, ◌≤◌, IfOk, IfErr, ℕ, List, length};
ghost use Rattle.cc_base.specs.declared.inputs.Test.{Test as Seen};
ghost use Rattle.cc_base.specs.Limits.{Limits};
ghost use Rattle.cc_model.specs.CheckedProgram.{core_of};
ghost use Rattle.replay.specs.Files.{IsTestsFile, IsRefusedAt, IsFileOrNoMemory, Refused, IsRefusedOrNoMemory, Passed};
ghost use Rattle.replay.specs.Files.{Stops};

use crate::bounds::bounds_of;
use crate::faults::TestsFault;
use crate::line::{Line, read_line};
use cc_model::Checked;
use cc_model::base::{Bounds, Test};
use report_words::cut_first;
use sqlite_items::Items;
use std::alloc::Global;

/// What a tests file holds: its bounds, its tests in order, and the number of the line of each.
#[derive(Drop)]
pub struct Tests {
    pub bounds: Bounds,
    pub tests: Items<Test>,
    pub lines: Items<u32>,
}

impl Tests {
    /// Passes the first line, which has this number; the rest is what stands behind it.
    fn pass<'a>(
        &mut self,
        alloc: Global,
        checked: &Checked,
        number: u32,
        rest: &'a [u8],
    ) -> Result<&'a [u8], TestsFault>
        ensures passed { IfOk result (λ r. Passed (core_of checked.now)
            (self.old).bounds number rest.now r.now self.old self.new) }
        ensures shorter { IfOk result (λ r. length r.now < length rest.now) }
        ensures stops { IfErr result (λ f. Stops (core_of checked.now) (self.old).bounds number rest.now f) }
    {
        match cut_first(rest, b'\n') {
            None => Err(TestsFault::Line(number)),
            Some(parts) => match read_line(alloc, parts.before, checked, &self.bounds)? {
                Line::Test(test) => {
                    self.tests.push(test)?;
                    self.lines.push(number)?;
                    Ok(parts.behind)
                }
                Line::Other => Ok(parts.behind),
                Line::Bad => Err(TestsFault::Line(number)),
            },
        }
    }
}

/// What a tests file holds. The first line is that of bounds, the others are any lines of reports but that one, with
/// inputs within those bounds, and each ends with a newline. Line holds the number of the first line that is none of
/// these.
pub fn read_tests(alloc: Global, text: &[u8], checked: &Checked) -> Result<Tests, TestsFault>
    requires { length text.now ≤ 16777216 }
    ensures read { IfOk result (λ t. IsTestsFile (core_of checked.now) text.now t.bounds t.tests t.lines) }
    ensures refused { IfErr result (λ f. Refused (core_of checked.now) text.now f) }
    ensures only { (b : Limits) (tests : List Seen) (lines : List ℕ)
        → IsTestsFile (core_of checked.now) text.now b tests lines → IsFileOrNoMemory result b tests lines }
    ensures only_line { (n : ℕ) → IsRefusedAt (core_of checked.now) text.now n → IsRefusedOrNoMemory result n }
{
    let Some(first) = cut_first(text, b'\n') else {
        return Err(TestsFault::Line(1));
    };
    let Some(bounds) = bounds_of(first.before) else {
        return Err(TestsFault::Line(1));
    };
    let mut tests = Tests {
        bounds,
        tests: Items::new(alloc),
        lines: Items::new(alloc),
    };
    let mut rest = first.behind;
    let mut number = 2;
    'lines: while !rest.is_empty() {
        rest = tests.pass(alloc, checked, number, rest)?;
        number += 1;
    }
    Ok(tests)
}
