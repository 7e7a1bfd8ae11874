//! What is done for the words of a call, up to what is said where it is refused.

ghost use Rattle.std.specs.Prelude.{◌≡◌, ◌≤◌, Option, [], option_map, true, false};
ghost use Rattle.cc_base.specs.Paths.{Path};
ghost use Rattle.cc_model.specs.declared.commands.Strategy.TheVariants.{Dfs};
ghost use Rattle.cc_model.specs.declared.commands.Command.TheVariants.{Run, Trace, Replay, Make};
ghost use Rattle.concolic_cli.specs.Concolic.{Performed};
ghost use Rattle.concolic_cli.specs.Named.{names_in};
ghost use Rattle.concolic_cli.specs.Session.{seen_of};
ghost use Rattle.concolic_cli.specs.Tasks.{IsAfter, word_of};
ghost use Rattle.command_words.specs.Words.{texts, Accepted};

use crate::answers::{Named, Refused, Status};
use crate::making::write_made;
use crate::refusal::Refusal;
use crate::session::{list_tests, replay_file, tell_run, walk_runs};
use cc_model::{Command, ReplayWords, RunWords, Strategy, TraceWords};
use cc_outside::{Files, Sink};
use command_words::read_words;
use std::alloc::Global;

/// Word number `number`, from 1; empty where there is no such word.
fn word(words: &[String], number: u32) -> &str
    ensures { result.now ≡ word_of (texts words.now) number }
{
    match words.get((number as usize).saturating_sub(1)) {
        Some(word) => word.as_str(),
        None => "",
    }
}

/// The word with a number, where there is a number.
fn word_if(words: &[String], number: Option<u32>) -> Option<&str>
    ensures { option_map (λ w. w.now) result ≡ option_map (λ n. word_of (texts words.now) n) number }
{
    match number {
        Some(number) => Some(word(words, number)),
        None => None,
    }
}

/// A refusal whose text may name FILE and ENTRY.
fn naming<'a>(refusal: Refusal, file: &'a str, entry: &'a str) -> Refused<'a>
    ensures why { result.refusal ≡ refusal }
    ensures names { names_in result.named ≡ record { file = file.now; entry = entry.now; tests = [] } }
{
    let named = Named {
        file,
        entry,
        tests: "",
    };
    Refused { refusal, named }
}

/// Lists the tests of the words' function.
fn list<'a, F: Files, K: Sink>(
    alloc: Global,
    words: &'a [String],
    run: &RunWords,
    files: &mut F,
    out: &mut K,
) -> Result<Status, Refused<'a>>
    requires accepted { Accepted (texts words.now) (Run run.now) }
    requires dfs { (run.now).strategy ≡ Dfs }
    requires runs { 1 ≤ run.now.runs }
    requires after { (after : Option Path) × IsAfter (texts words.now) run.now after }
    ensures performed { Performed (texts words.now)
        (seen_of F.held F.faults K.written K.faults files.old files.new out.old out.new) result }
    ensures held { F.held files.new ≡ F.held files.old }
{
    let file = word(words, run.file);
    let entry = word(words, run.entry);
    let after = word_if(words, run.after);
    match list_tests(alloc, run, after, file, entry, files, out) {
        Ok(status) => Ok(status),
        Err(refusal) => Err(naming(refusal, file, entry)),
    }
}

/// Walks over the runs of the words' function.
fn walk<'a, F: Files, K: Sink>(
    alloc: Global,
    words: &'a [String],
    run: &RunWords,
    files: &mut F,
    out: &mut K,
) -> Result<Status, Refused<'a>>
    requires accepted { Accepted (texts words.now) (Run run.now) }
    requires walk { (run.now).strategy ≡ Dfs → ⊥ }
    requires runs { 1 ≤ run.now.runs }
    ensures performed { Performed (texts words.now)
        (seen_of F.held F.faults K.written K.faults files.old files.new out.old out.new) result }
    ensures held { F.held files.new ≡ F.held files.old }
{
    let file = word(words, run.file);
    let entry = word(words, run.entry);
    match walk_runs(alloc, run, file, entry, files, out) {
        Ok(status) => Ok(status),
        Err(refusal) => Err(naming(refusal, file, entry)),
    }
}

/// Whether the strategy is the search.
fn is_search(strategy: Strategy) -> bool
    ensures yes { result ≡ true → strategy ≡ Dfs }
    ensures no { result ≡ false → strategy ≡ Dfs → ⊥ }
{
    match strategy {
        Strategy::Dfs => true,
        Strategy::Random | Strategy::UniformRandom | Strategy::Cfg => false,
    }
}

/// Does what words of `run` ask.
fn list_or_walk<'a, F: Files, K: Sink>(
    alloc: Global,
    words: &'a [String],
    run: &RunWords,
    files: &mut F,
    out: &mut K,
) -> Result<Status, Refused<'a>>
    requires accepted { Accepted (texts words.now) (Run run.now) }
    requires runs { 1 ≤ run.now.runs }
    requires after { (after : Option Path) × IsAfter (texts words.now) run.now after }
    ensures performed { Performed (texts words.now)
        (seen_of F.held F.faults K.written K.faults files.old files.new out.old out.new) result }
    ensures held { F.held files.new ≡ F.held files.old }
{
    if is_search(run.strategy) {
        return list(alloc, words, run, files, out);
    }
    walk(alloc, words, run, files, out)
}

/// Tells of the one run that words of `trace` name.
fn trace_one<'a, F: Files, K: Sink>(
    alloc: Global,
    words: &'a [String],
    trace: &TraceWords,
    files: &mut F,
    out: &mut K,
) -> Result<Status, Refused<'a>>
    requires { Accepted (texts words.now) (Trace trace.now) }
    ensures performed { Performed (texts words.now)
        (seen_of F.held F.faults K.written K.faults files.old files.new out.old out.new) result }
    ensures held { F.held files.new ≡ F.held files.old }
{
    let file = word(words, trace.file);
    let entry = word(words, trace.entry);
    let map = word(words, trace.map);
    match tell_run(alloc, &trace.bounds, map, file, entry, files, out) {
        Ok(status) => Ok(status),
        Err(refusal) => Err(naming(refusal, file, entry)),
    }
}

/// Replays the tests that words of `replay` name.
fn replay_tests<'a, F: Files, K: Sink>(
    alloc: Global,
    words: &'a [String],
    replay: &ReplayWords,
    files: &mut F,
    out: &mut K,
) -> Result<Status, Refused<'a>>
    requires { Accepted (texts words.now) (Replay replay.now) }
    ensures performed { Performed (texts words.now)
        (seen_of F.held F.faults K.written K.faults files.old files.new out.old out.new) result }
    ensures held { F.held files.new ≡ F.held files.old }
{
    let file = word(words, replay.file);
    let entry = word(words, replay.entry);
    let tests = word(words, replay.tests);
    match replay_file(alloc, tests, file, entry, files, out) {
        Ok(status) => Ok(status),
        Err(refusal) => Err(Refused {
            refusal,
            named: Named { file, entry, tests },
        }),
    }
}

/// Lists the tests of the source that words of `make` ask for.
fn make<'a, F: Files, K: Sink>(
    alloc: Global,
    words: &'a [String],
    branches: u32,
    files: &mut F,
    out: &mut K,
) -> Result<Status, Refused<'a>>
    requires accepted { Accepted (texts words.now) (Make branches) }
    requires few { branches ≤ 1024 }
    requires some { 1 ≤ branches }
    ensures performed { Performed (texts words.now)
        (seen_of F.held F.faults K.written K.faults files.old files.new out.old out.new) result }
    ensures held { F.held files.new ≡ F.held files.old }
{
    match write_made(alloc, branches, out) {
        Ok(status) => Ok(status),
        Err(refusal) => Err(naming(refusal, "", "f")),
    }
}

/// Does what the words ask. A refusal comes with the words that its text may name.
pub fn perform<'a, F: Files, K: Sink>(
    alloc: Global,
    words: &'a [String],
    files: &mut F,
    out: &mut K,
) -> Result<Status, Refused<'a>>
    ensures performed { Performed (texts words.now)
        (seen_of F.held F.faults K.written K.faults files.old files.new out.old out.new) result }
    ensures held { F.held files.new ≡ F.held files.old }
{
    match read_words(words) {
        Ok(Command::Run(run)) => list_or_walk(alloc, words, &run, files, out),
        Ok(Command::Trace(trace)) => trace_one(alloc, words, &trace, files, out),
        Ok(Command::Make(branches)) => make(alloc, words, branches, files, out),
        Ok(Command::Replay(replay)) => replay_tests(alloc, words, &replay, files, out),
        Err(bad) => Err(naming(Refusal::BadWord(bad), "", "")),
    }
}
