//! A session: from the file of a source to what is written of its tested function.

ghost use Rattle.std.specs.Prelude.{◌≡◌, ◌^◌, ◌<◌, ◌≤◌, IfOk, IfErr, Option, option_map, length};
ghost use Rattle.cc_base.specs.Paths.{Path};
ghost use Rattle.cc_model.specs.declared.commands.Strategy.TheVariants.{Dfs};
ghost use Rattle.cc_model.specs.Core.{Program};
ghost use Rattle.concolic_cli.specs.Loaded.{ReadAs, ReadTests};
ghost use Rattle.concolic_cli.specs.Session.{FileCause, TestsCause, Ends, seen_of};
ghost use Rattle.concolic_cli.specs.Tasks.{IsPathOf, list, walk, trace, replay};

use crate::after::path_if;
use crate::answers::Status;
use crate::prepared::{compile, prepare_trace};
use crate::refusal::{FileWord, Refusal, Unread};
use crate::replaying::{tests_in, write_replay};
use crate::searching::write_listing;
use crate::tracing::write_trace;
use crate::walking::write_walk;
use cc_model::RunWords;
use cc_model::base::Bounds;
use cc_outside::{Files, LoadFault, Sink};
use std::alloc::Global;

/// How many bytes a source may have.
const SOURCE_LIMIT: usize = 1_048_576;

/// Reads the file of a source.
fn read_source<F: Files>(alloc: Global, files: &mut F, file: &str) -> Result<Vec<u8>, Refusal>
    ensures read { IfOk result (λ v. ReadAs (F.held files.old) file.now v.items) }
    ensures file_refused { IfErr result
        (λ e. FileCause (F.held files.old) (F.faults files.old) (F.faults files.new) file.now e) }
    ensures never_falls { F.faults files.old ≤ F.faults files.new }
    ensures held { F.held files.new ≡ F.held files.old }
{
    match files.load(alloc, file, SOURCE_LIMIT) {
        Ok(bytes) => Ok(bytes),
        Err(LoadFault::Missing) => Err(Refusal::File(FileWord::Source, Unread::Missing)),
        Err(LoadFault::TooLong) => Err(Refusal::File(FileWord::Source, Unread::TooLong)),
        Err(LoadFault::Failed) => Err(Refusal::File(FileWord::Source, Unread::Failed)),
        Err(LoadFault::NoMemory) => Err(Refusal::NoMemory),
    }
}

/// How many bytes a tests file may have.
const TESTS_LIMIT: usize = 16_777_216;

/// Reads a tests file.
fn load_tests<F: Files>(alloc: Global, files: &mut F, tests: &str) -> Result<Vec<u8>, Refusal>
    ensures read { IfOk result (λ v. ReadTests (F.held files.old) tests.now v.items) }
    ensures refused { IfErr result (λ e. (p : Program)
        → TestsCause p (F.held files.old) (F.faults files.old) (F.faults files.new) tests.now e) }
    ensures held { F.held files.new ≡ F.held files.old }
    ensures never_falls { F.faults files.old ≤ F.faults files.new }
{
    match files.load(alloc, tests, TESTS_LIMIT) {
        Ok(bytes) => Ok(bytes),
        Err(LoadFault::Missing) => Err(Refusal::File(FileWord::Tests, Unread::Missing)),
        Err(LoadFault::TooLong) => Err(Refusal::File(FileWord::Tests, Unread::TooLong)),
        Err(LoadFault::Failed) => Err(Refusal::File(FileWord::Tests, Unread::Failed)),
        Err(LoadFault::NoMemory) => Err(Refusal::NoMemory),
    }
}

/// Lists the tests of the function `entry` of the source in `file`, above the path of the word `after` where there is
/// one, and writes the report.
pub fn list_tests<F: Files, K: Sink>(
    alloc: Global,
    words: &RunWords,
    after: Option<&str>,
    file: &str,
    entry: &str,
    files: &mut F,
    out: &mut K,
) -> Result<Status, Refusal>
    requires runs { 1 ≤ (words.now).runs }
    requires after { (p : Option Path) × IsPathOf (option_map (λ w. w.now) after) p }
    ensures ends { (p : Option Path) → IsPathOf (option_map (λ w. w.now) after.entry) p
        → Ends (seen_of F.held F.faults K.written K.faults files.old files.new out.old out.new)
        (record {
          file = file.now;
          entry = entry.now;
          work = list (words.now).bounds (words.now).runs (words.now).budget p;
        }) result }
    ensures held { F.held files.new ≡ F.held files.old }
{
    let Ok(path) = path_if(alloc, after) else {
        return Err(Refusal::NoMemory);
    };
    let source = read_source(alloc, files, file)?;
    let compiled = compile(alloc, &source, entry)?;
    let status = write_listing(
        alloc,
        &compiled,
        &words.bounds,
        words.runs,
        words.budget,
        path.as_ref(),
        out,
    )?;
    Ok(status)
}

/// Walks over the runs of the function `entry` of the source in `file`, by the strategy of the words, and writes the
/// report.
pub fn walk_runs<F: Files, K: Sink>(
    alloc: Global,
    words: &RunWords,
    file: &str,
    entry: &str,
    files: &mut F,
    out: &mut K,
) -> Result<Status, Refusal>
    requires runs { 1 ≤ (words.now).runs }
    requires walk { (words.now).strategy ≡ Dfs → ⊥ }
    ensures ends { Ends (seen_of F.held F.faults K.written K.faults files.old files.new out.old out.new)
        (record {
          file = file.now;
          entry = entry.now;
          work = walk (words.now).strategy (words.now).bounds (words.now).runs (words.now).budget (words.now).seed;
        }) result }
    ensures held { F.held files.new ≡ F.held files.old }
{
    let source = read_source(alloc, files, file)?;
    let compiled = compile(alloc, &source, entry)?;
    let status = write_walk(alloc, &compiled, words, out)?;
    Ok(status)
}

/// Writes what the run of the function `entry` of the source in `file` does on the input of a map text.
pub fn tell_run<F: Files, K: Sink>(
    alloc: Global,
    bounds: &Bounds,
    map: &str,
    file: &str,
    entry: &str,
    files: &mut F,
    out: &mut K,
) -> Result<Status, Refusal>
    ensures ends { Ends (seen_of F.held F.faults K.written K.faults files.old files.new out.old out.new)
        (record { file = file.now; entry = entry.now; work = trace bounds.now map.now }) result }
    ensures held { F.held files.new ≡ F.held files.old }
{
    let source = read_source(alloc, files, file)?;
    let traced = prepare_trace(alloc, &source, entry, map, bounds)?;
    let status = write_trace(alloc, &traced.checked, bounds, &traced.trace, out)?;
    Ok(status)
}

/// Replays the tests of a file on the function `entry` of the source in `file`, and writes whether all are real, or
/// which is the first that isn't.
pub fn replay_file<F: Files, K: Sink>(
    alloc: Global,
    tests: &str,
    file: &str,
    entry: &str,
    files: &mut F,
    out: &mut K,
) -> Result<Status, Refusal>
    ensures ends { Ends (seen_of F.held F.faults K.written K.faults files.old files.new out.old out.new)
        (record { file = file.now; entry = entry.now; work = replay tests.now }) result }
    ensures held { F.held files.new ≡ F.held files.old }
{
    let source = read_source(alloc, files, file)?;
    let compiled = compile(alloc, &source, entry)?;
    let text = load_tests(alloc, files, tests)?;
    let held = tests_in(alloc, &text, &compiled.checked)?;
    let status = write_replay(alloc, &compiled, &held, out)?;
    Ok(status)
}
