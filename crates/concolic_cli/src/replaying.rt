//! The replay of a tests file.

ghost use Rattle.std.specs.Prelude.{◌≡◌, ◌^◌, ◌<◌, ◌≤◌, ◌++◌, IfOk, IfErr, OnOk, OnErr, All, ℕ, List, length};
ghost use Rattle.cc_base.specs.Outcomes.{HasByte};
ghost use Rattle.cc_base.specs.Paths.{path_text};
ghost use Rattle.cc_model.specs.CheckedProgram.{core_of};
ghost use Rattle.cc_model.specs.Graphs.{PointsToCells};
ghost use Rattle.cc_model.specs.Runs.{params_of};
ghost use Rattle.replay.specs.Files.{IsTestsFile, IsRefusedAt};
ghost use Rattle.replay.specs.ReplayText.{Written, replayed_line, differs_line};
ghost use Rattle.concolic_cli.specs.Compiling.{Compiles};
ghost use Rattle.concolic_cli.specs.Replaying.{AreWithin, DiffersFirst, TextRefused, WroteReplay, ReplayCause};

use crate::answers::Status;
use crate::lines::write_line;
use crate::prepared::Compiled;
use crate::refusal::Refusal;
use cc_model::Checked;
use cc_model::base::{Bounds, End, NoMemory, Outcome, PathText, Test};
use cc_outside::Sink;
use itoa::Buffer;
use replay::{Replayed, Tests, TestsFault, read_tests, replay_test};
use std::alloc::Global;

/// What a tests file holds.
pub fn tests_in(alloc: Global, text: &[u8], checked: &Checked) -> Result<Tests, Refusal>
    requires { length text.now ≤ 16777216 }
    ensures read { IfOk result (λ t. IsTestsFile (core_of checked.now) text.now t.bounds t.tests t.lines) }
    ensures unrefused { IfOk result (λ t. (n : ℕ) → IsRefusedAt (core_of checked.now) text.now n → ⊥) }
    ensures refused { IfErr result (λ e. TextRefused (core_of checked.now) text.now e) }
{
    match read_tests(alloc, text, checked) {
        Ok(tests) => Ok(tests),
        Err(TestsFault::Line(line)) => Err(Refusal::Tests(line)),
        Err(TestsFault::NoMemory) => Err(Refusal::NoMemory),
    }
}

/// A test that isn't real: its place among the tests, and the path and the end that its input's run takes.
#[derive(Drop)]
pub struct Difference {
    pub place: u32,
    pub path: PathText,
    pub end: End,
}

/// The first test that isn't real.
fn first_difference(
    alloc: Global,
    compiled: &Compiled,
    tests: &[Test],
    bounds: &Bounds,
) -> Result<Option<Difference>, NoMemory>
    requires compiles { Compiles compiled.now.checked compiled.now.tac }
    requires points { PointsToCells (core_of compiled.now.checked).layouts (params_of (core_of compiled.now.checked)) }
    requires within { AreWithin (core_of compiled.now.checked) bounds.now tests.now }
    requires few { length tests.now < 2 ^ 32 }
    ensures { IfOk result (λ d. DiffersFirst (core_of compiled.now.checked) bounds.now tests.now d) }
{
    for place in 0..tests.len() {
        let test = &tests[place];
        match replay_test(alloc, &compiled.checked, &compiled.tac, test, bounds)? {
            Replayed::Same => {}
            Replayed::Differs(path, end) => {
                return Ok(Some(Difference {
                    place: place as u32,
                    path,
                    end,
                }));
            }
        }
    }
    Ok(None)
}

/// Writes a path behind what is there: the bytes of its outcomes, or `~` where it has none.
fn push_path(text: &mut Vec<u8>, path: &[Outcome]) -> Result<(), NoMemory>
    requires { All HasByte path.now }
    ensures { OnOk result (text.new.items ≡ text.old.items ++ path_text path.now) }
{
    if path.is_empty() {
        text.push(b'~')?;
        return Ok(());
    }
    for outcome in path {
        text.push(outcome.to_byte())?;
    }
    Ok(())
}

/// The line of a test that isn't real.
fn differs_line(
    alloc: Global,
    line: u32,
    test: &Test,
    path: &PathText,
    end: End,
) -> Result<Vec<u8>, NoMemory>
    requires path { All HasByte test.now.path }
    requires actual { All HasByte path.now }
    ensures { IfOk result (λ text. text.items ≡ differs_line line test.now path.now end) }
{
    let mut number = Buffer::new();
    let was = test.end.to_string(alloc)?;
    let is = end.to_string(alloc)?;
    let mut text = Vec::from_slice(alloc, b"differs ")?;
    text.extend_from_slice(number.format(line).as_bytes())?;
    text.extend_from_slice(b" ")?;
    push_path(&mut text, test.path.as_slice())?;
    text.extend_from_slice(b" ")?;
    text.extend_from_slice(was.as_bytes())?;
    text.extend_from_slice(b" actual ")?;
    push_path(&mut text, path.as_slice())?;
    text.extend_from_slice(b" ")?;
    text.extend_from_slice(is.as_bytes())?;
    text.extend_from_slice(b"\n")?;
    Ok(text)
}

/// The line where all tests are real.
fn replayed_line(alloc: Global, count: u64) -> Result<Vec<u8>, NoMemory>
    ensures { IfOk result (λ text. text.items ≡ replayed_line count) }
{
    let mut number = Buffer::new();
    let mut text = Vec::from_slice(alloc, b"replayed ")?;
    text.extend_from_slice(number.format(count).as_bytes())?;
    text.push(b'\n')?;
    Ok(text)
}

/// A line, and the status.
#[derive(Drop)]
struct LineAndStatus {
    text: Vec<u8>,
    status: u8,
}

/// What is said of the tests.
fn replay_all(alloc: Global, compiled: &Compiled, tests: &Tests) -> Result<LineAndStatus, NoMemory>
    requires compiles { Compiles compiled.now.checked compiled.now.tac }
    requires points { PointsToCells (core_of compiled.now.checked).layouts (params_of (core_of compiled.now.checked)) }
    requires holds { (file : List ℕ) × (length file ≤ 16777216)
        × IsTestsFile (core_of compiled.now.checked) file tests.now.bounds tests.now.tests tests.now.lines }
    ensures { IfOk result (λ t. Written (core_of compiled.now.checked) tests.now.bounds
        (length tests.now.tests) tests.now.tests tests.now.lines t.text.items t.status) }
{
    let all = tests.tests.as_slice();
    match first_difference(alloc, compiled, all, &tests.bounds)? {
        None => Ok(LineAndStatus {
            text: replayed_line(alloc, all.len() as u64)?,
            status: 0,
        }),
        Some(Difference { place, path, end }) => {
            let line = tests.lines.as_slice()[place as usize];
            let text = differs_line(alloc, line, &all[place as usize], &path, end)?;
            Ok(LineAndStatus { text, status: 8 })
        }
    }
}

/// Replays the tests, and writes the line. The status is 0 where all are real, and else 8.
pub fn write_replay<K: Sink>(
    alloc: Global,
    compiled: &Compiled,
    tests: &Tests,
    out: &mut K,
) -> Result<Status, Refusal>
    requires compiles { Compiles compiled.now.checked compiled.now.tac }
    requires points { PointsToCells (core_of compiled.now.checked).layouts (params_of (core_of compiled.now.checked)) }
    requires holds { (file : List ℕ) × (length file ≤ 16777216)
        × IsTestsFile (core_of compiled.now.checked) file tests.now.bounds tests.now.tests tests.now.lines }
    ensures ok { IfOk result (λ s. WroteReplay (core_of compiled.now.checked) tests.now (K.written out.old)
        (K.written out.new) s.0) }
    ensures refused { IfErr result (λ e. ReplayCause (core_of compiled.now.checked) tests.now (K.written out.old)
        (K.written out.new) (K.faults out.old) (K.faults out.new) e) }
{
    let Ok(told) = replay_all(alloc, compiled, tests) else {
        return Err(Refusal::NoMemory);
    };
    write_line(out, &told.text)?;
    Ok(Status(told.status))
}
