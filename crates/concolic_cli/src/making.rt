//! The program that is made for a number of branches, and the last line of its report.

ghost use Rattle.std.specs.Prelude.{◌≡◌, ◌^◌, ◌<◌, ◌≤◌, ◌+◌, ◌++◌, IfOk, OnOk, length};
ghost use Rattle.cc_model.specs.CheckedProgram.{core_of};
ghost use Rattle.cc_model.specs.Graphs.{PointsToCells};
ghost use Rattle.cc_model.specs.Runs.{params_of};
ghost use Rattle.concolic_cli.specs.Compiling.{Compiles, IsLastLine};
ghost use Rattle.concolic_cli.specs.Made.{branch_line, made_source, made_bounds};
ghost use Rattle.concolic_cli.specs.Session.{MadeEnds};

use crate::answers::Status;
use crate::lines::write_line;
use crate::listing::last_line;
use crate::prepared::{Compiled, compile};
use crate::refusal::Refusal;
use crate::searching::search;
use cc_model::base::{Bounds, NoMemory};
use cc_outside::{NullSink, Sink};
use itoa::Buffer;
use std::alloc::Global;

/// The budget of a solve.
const BUDGET: u64 = 20_000;

/// Adds the line of a branch: `if (x <= I) return I;`.
fn push_branch(text: &mut Vec<u8>, number: u32) -> Result<(), NoMemory>
    ensures { OnOk result (text.new.items ≡ text.old.items ++ branch_line number) }
{
    let mut digits = Buffer::new();
    let digits = digits.format(number).as_bytes();
    text.extend_from_slice(b"if (x <= ")?;
    text.extend_from_slice(digits)?;
    text.extend_from_slice(b") return ")?;
    text.extend_from_slice(digits)?;
    text.extend_from_slice(b";\n")?;
    Ok(())
}

/// A function of one number, with a branch for each number below `branches`.
fn made_source(alloc: Global, branches: u32) -> Result<Vec<u8>, NoMemory>
    requires { branches ≤ 1024 }
    ensures source { IfOk result (λ text. text.items ≡ made_source branches) }
    ensures short { IfOk result (λ text. length text.items ≤ 1048576) }
{
    let mut text = Vec::from_slice(alloc, b"int f(int x) {\n")?;
    for number in 0..branches {
        push_branch(&mut text, number)?;
    }
    let mut digits = Buffer::new();
    text.extend_from_slice(b"return ")?;
    text.extend_from_slice(digits.format(branches).as_bytes())?;
    text.extend_from_slice(b";\n}\n")?;
    Ok(text)
}

/// The bounds where no option is given, and as many events as there are branches.
fn made_bounds(branches: u32) -> Bounds
    requires few { branches ≤ 1024 }
    requires some { 1 ≤ branches }
    ensures { result ≡ made_bounds branches }
{
    Bounds::new(i32::MIN, i32::MAX, branches, 8, 100_000).unwrap()
}

/// The last line of the report on a program's search, which writes no other line.
fn searched_line(
    alloc: Global,
    compiled: &Compiled,
    bounds: &Bounds,
    runs: u32,
) -> Result<Vec<u8>, NoMemory>
    requires compiles { Compiles compiled.now.checked compiled.now.tac }
    requires points { PointsToCells (core_of compiled.now.checked).layouts (params_of (core_of compiled.now.checked)) }
    requires runs { 1 ≤ runs }
    ensures { IfOk result (λ line. IsLastLine compiled.now.checked bounds.now runs 20000 line.items) }
{
    let mut nothing = NullSink;
    match search(alloc, compiled, bounds, runs, BUDGET, None, &mut nothing) {
        Ok(summary) => last_line(alloc, &summary),
        Err(_refusal) => Err(NoMemory),
    }
}

/// Searches the program that is made for a number of branches, with a run for each of its paths, and writes the last
/// line of the report.
pub fn write_made<K: Sink>(alloc: Global, branches: u32, out: &mut K) -> Result<Status, Refusal>
    requires few { branches ≤ 1024 }
    requires some { 1 ≤ branches }
    ensures { MadeEnds branches (K.written out.old) (K.written out.new) (K.faults out.old) (K.faults out.new) result }
{
    let Ok(source) = made_source(alloc, branches) else {
        return Err(Refusal::NoMemory);
    };
    let compiled = compile(alloc, &source, "f")?;
    let bounds = made_bounds(branches);
    let Ok(line) = searched_line(alloc, &compiled, &bounds, branches + 1) else {
        return Err(Refusal::NoMemory);
    };
    write_line(out, &line)?;
    Ok(Status(0))
}
