//! What turns an event of a run, and compares the answer with a row.

ghost use Rattle.std.specs.Prelude.{◌≡◌, ◌≤◌, map, length, IfOk, IfSome};
ghost use Rattle.cc_base.specs.Paths.{In};
ghost use Rattle.cc_model.specs.CheckedProgram.{core_of};
ghost use Rattle.cc_model.specs.Compiles.{Compiles};
ghost use Rattle.cc_model.specs.Graphs.{PointsToCells};
ghost use Rattle.cc_model.specs.Runs.{params_of, IsInput};
ghost use Rattle.row_tests.specs.Turns.{IsWithinIf};
ghost use Rattle.sym_run.specs.Traces.{IsTrace, others_at};
ghost use Rattle.tac_lower.specs.Finished.{first_in};
ghost use Rattle.tac_lower.specs.Seen.{seen};

use c_lex::lex;
use c_parse::parse;
use c_types::check;
use cc_laws::a_checked_program_points_to_cells;
use cc_model::Checked;
use cc_model::base::{Bounds, Input, Outcome};
use flip_solve::{Turned, turn};
use input_map::{read_map, write_map};
use run_laws::a_run_is_lawful;
use std::alloc::Global;
use std::process::Abort;
use std::test::Fail;
use sym_run::{Event, Trace, run, same_outcome};
use tac_lower::{Tac, lower};

/// The budget where a row names none.
pub(crate) const BUDGET: u64 = 20_000;

/// An input; the number of an event of its run, from 0, and another outcome there; the answer, in which a `?` at the
/// end of a number stands for its digits, and the path of the run on it.
pub(crate) type Row = (&'static str, u32, u8, &'static str, &'static str);

/// A checked program, and its code.
#[derive(Drop)]
pub(crate) struct Compiled {
    pub(crate) checked: Checked,
    pub(crate) tac: Tac,
}

/// The program of a source, to test the function f.
pub(crate) fn compile(alloc: Global, source: &[u8]) -> Result<Compiled, Fail>
    ensures compiles { IfOk result (λ c. Compiles (core_of c.checked) (map (seen c.checked) c.tac.code)
        (λ f. first_in c.tac f)) }
    ensures points { IfOk result (λ c. PointsToCells (core_of c.checked).layouts (params_of (core_of c.checked))) }
{
    a_checked_program_points_to_cells();
    if source.len() > 1_048_576 {
        return Err(Fail::new("the source is too long"));
    }
    let tokens = lex(alloc, source)?;
    let program = parse(alloc, &tokens)?;
    let checked = check(alloc, source, &tokens, program, "f")?;
    let tac = lower(alloc, &checked)?;
    Ok(Compiled { checked, tac })
}

/// The input of a map text.
fn read_input(alloc: Global, text: &str, checked: &Checked, bounds: &Bounds) -> Result<Input, Fail>
    ensures { IfOk result (λ h. IsInput (core_of checked.now) bounds.now h) }
{
    match read_map(alloc, text.as_bytes(), checked, bounds) {
        Ok(input) => Ok(input),
        Err(fault) => Err(Fail::from(fault)),
    }
}

/// The outcome, where it is one of the event's alternatives.
fn offered(event: &Event, outcome: Outcome) -> Option<Outcome>
    ensures { IfSome result (λ o. In o (others_at event.now)) }
{
    for choice in event.others.as_slice() {
        if same_outcome(choice.outcome, outcome) {
            return Some(choice.outcome);
        }
    }
    None
}

/// What is answered at event k of a run.
fn turned(
    alloc: Global,
    checked: &Checked,
    trace: &Trace,
    k: u32,
    byte: u8,
    bounds: &Bounds,
    budget: u64,
) -> Result<Turned, Fail>
    requires points { PointsToCells (core_of checked.now).layouts (params_of (core_of checked.now)) }
    requires input { IsInput (core_of checked.now) bounds.now (trace.now).input }
    requires trace { IsTrace checked.now bounds.now (trace.now).input trace.now }
    ensures { IfOk result (λ a. IsWithinIf (core_of checked.now) bounds.now a) }
{
    a_run_is_lawful();
    let events = trace.events.as_slice();
    if k as usize >= events.len() {
        return Err(Fail::new("no such event"));
    }
    let wanted = Outcome::from_byte(byte).ok_or("no outcome")?;
    let event = &events[k as usize];
    let Some(outcome) = offered(event, wanted) else {
        return Err(Fail::new("no such alternative"));
    };
    Ok(turn(alloc, checked, trace, k, outcome, bounds, budget)?)
}

/// Whether the text is that of the pattern.
fn is_like(pattern: &str, text: &str) -> bool {
    let mut numbers = text.split(',');
    for wanted in pattern.split(',') {
        let number = numbers.next().unwrap_or("");
        let fits = match wanted.strip_suffix('?') {
            Some(head) => number.starts_with(head) && number.len() > head.len(),
            None => number == wanted,
        };
        if !fits {
            return false;
        }
    }
    numbers.next().is_none()
}

/// The text of a path.
fn path_text(alloc: Global, trace: &Trace) -> Result<String, Fail> {
    let mut text = String::new(alloc);
    for event in trace.events.as_slice() {
        text.push(letter(event.taken.outcome))?;
    }
    Ok(text)
}

/// The letter of an outcome.
fn letter(outcome: Outcome) -> char {
    match outcome {
        Outcome::Zero => '!',
        Outcome::High => '+',
        Outcome::Low => '-',
        Outcome::Plain => '.',
        Outcome::False => 'F',
        Outcome::True => 'T',
        Outcome::Object(rank) => "abcdefgh".chars().nth(rank as usize).unwrap_or('?'),
    }
}

/// Compares an input, and the path of the run on it, with a row.
pub(crate) fn check_input(
    rt: &(impl Abort + AllocGlobal),
    compiled: &Compiled,
    bounds: &Bounds,
    input: &Input,
    row: Row,
) -> Result<(), Fail>
    requires compiles { Compiles (core_of (compiled.now).checked)
        (map (seen (compiled.now).checked) (compiled.now).tac.code) (λ f. first_in (compiled.now).tac f) }
    requires points { PointsToCells (core_of (compiled.now).checked).layouts
        (params_of (core_of (compiled.now).checked)) }
    requires input { IsInput (core_of (compiled.now).checked) bounds.now input.now }
{
    let (from, k, _byte, answer, path) = row;
    let map = write_map(rt.alloc(), input)?;
    let map = str::from_utf8(map.as_slice())?;
    assert!(rt; is_like(answer, map), "{from} at {k}: {map}");
    let trace = run(rt.alloc(), &compiled.checked, &compiled.tac, input, bounds)?;
    let told = path_text(rt.alloc(), &trace)?;
    assert_eq!(rt; told.as_str(), path, "the run on {map}");
    Ok(())
}

/// Turns an event, and compares what is answered.
fn check_row(
    rt: &(impl Abort + AllocGlobal),
    compiled: &Compiled,
    bounds: &Bounds,
    budget: u64,
    row: Row,
) -> Result<(), Fail>
    requires compiles { Compiles (core_of (compiled.now).checked)
        (map (seen (compiled.now).checked) (compiled.now).tac.code) (λ f. first_in (compiled.now).tac f) }
    requires points { PointsToCells (core_of (compiled.now).checked).layouts
        (params_of (core_of (compiled.now).checked)) }
{
    let (from, k, byte, answer, _path) = row;
    let alloc = rt.alloc();
    let checked = &compiled.checked;
    let input = read_input(alloc, from, checked, bounds)?;
    let trace = run(alloc, checked, &compiled.tac, &input, bounds)?;
    match turned(alloc, checked, &trace, k, byte, bounds, budget)? {
        Turned::Never => assert_eq!(rt; "never", answer, "{from} at {k}"),
        Turned::Spent => assert_eq!(rt; "spent", answer, "{from} at {k}"),
        Turned::Turned(input) => check_input(rt, compiled, bounds, &input, row)?,
    }
    Ok(())
}

/// The rows of a program.
pub(crate) fn check_rows(
    rt: &(impl Abort + AllocGlobal),
    source: &str,
    bounds: Option<Bounds>,
    budget: u64,
    rows: &[Row],
) -> Result<(), Fail> {
    let bounds = bounds.ok_or("bounds")?;
    let compiled = compile(rt.alloc(), source.as_bytes())?;
    for row in rows {
        check_row(rt, &compiled, &bounds, budget, *row)?;
    }
    Ok(())
}

/// The bounds where no option is given, but for the depth.
pub(crate) fn deep(depth: u32) -> Option<Bounds> {
    Bounds::new(i32::MIN, i32::MAX, depth, 8, 100_000)
}
