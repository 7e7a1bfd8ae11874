//! The words of a command line, and the command that they give.

ghost use Rattle.std.specs.Prelude.{◌≡◌, ℕ, ◌<◌, pos, List, ◌∷◌, map, IfOk, IfErr};
ghost use Rattle.std.specs.Prelude.{IfSome, IfNone, codes, Some, Ok, Err, ◌+◌};
ghost use Rattle.command_words.specs.Words.{texts, IsNumber, Accepted, BadWord, place_behind, strategy_word};
ghost use Rattle.cc_model.specs.declared.commands.Command.{Command};
ghost use Rattle.cc_model.specs.declared.commands.Strategy.{Strategy as Choosing};

use crate::options::{
    DEPTH, MAX_BRANCHES, MAX_DEPTH, MAX_RUNS, SOLVER, bad_run_option, bad_trace_option,
    bounds_with, first_of, natural_given, place_behind, seed_given,
};
use crate::values::number_of;
use cc_model::{Command, ReplayWords, RunWords, Strategy, TraceWords};

/// The words behind the first one; None where that is not `keyword`.
fn behind_keyword<'a>(words: &'a [String], keyword: &str) -> Option<&'a [String]>
    ensures some { IfSome result (λ rest. texts words.now ≡ keyword.now ∷ texts rest.now) }
    ensures none { IfNone result ((rest : List (List ℕ)) → texts words.now ≡ keyword.now ∷ rest → ⊥) }
{
    let (word, rest) = words.split_first()?;
    if word.as_str() == keyword {
        Some(rest)
    } else {
        None
    }
}

/// A number, and the words behind it.
#[derive(Clone, Copy)]
struct NumberAndRest<'a> {
    number: u32,
    rest: &'a [String],
}

/// The number from 1 to `high` that the first word is, and the words behind it; None where it is no such number.
fn behind_number(words: &[String], high: i32) -> Option<NumberAndRest<'_>>
    ensures some { IfSome result (λ r. (word : List ℕ) × (texts words.now ≡ word ∷ texts r.rest.now)
        × IsNumber word (pos 1) high (pos r.number)) }
    ensures none { IfNone result ((word : List ℕ) (rest : List (List ℕ)) (n : ℕ) → texts words.now ≡ word ∷ rest
        → IsNumber word (pos 1) high (pos n) → ⊥) }
{
    let Some(first) = first_of(words) else {
        return None;
    };
    let Some(number) = number_of(first.word, 1, high) else {
        return None;
    };
    Some(NumberAndRest {
        number: number as u32,
        rest: first.rest,
    })
}

/// The strategy whose word this is; None exactly where there is none.
fn strategy_of(word: &str) -> Option<Strategy>
    ensures some { IfSome result (λ s. word.now ≡ strategy_word s) }
    ensures none { IfNone result ((s : Choosing) → word.now ≡ strategy_word s → ⊥) }
{
    if word == "-dfs" {
        return Some(Strategy::Dfs);
    }
    if word == "-random" {
        return Some(Strategy::Random);
    }
    if word == "-uniform_random" {
        return Some(Strategy::UniformRandom);
    }
    if word == "-cfg" {
        return Some(Strategy::Cfg);
    }
    None
}

/// A strategy, and the words behind it.
#[derive(Clone, Copy)]
struct StrategyAndRest<'a> {
    strategy: Strategy,
    rest: &'a [String],
}

/// The strategy that the first word is, and the words behind it; None where it is none.
fn behind_strategy(words: &[String]) -> Option<StrategyAndRest<'_>>
    ensures some { IfSome result (λ r. texts words.now ≡ strategy_word r.strategy ∷ texts r.rest.now) }
    ensures none { IfNone result ((s : Choosing) (rest : List (List ℕ)) → texts words.now ≡ strategy_word s ∷ rest
        → ⊥) }
{
    let Some(first) = first_of(words) else {
        return None;
    };
    let Some(strategy) = strategy_of(first.word) else {
        return None;
    };
    Some(StrategyAndRest {
        strategy,
        rest: first.rest,
    })
}

/// The command of the words behind `run`.
fn read_run(words: &[String]) -> Result<Command, u32>
    ensures accepted { IfOk result (λ c. Accepted (codes "run" ∷ texts words.now) c) }
    ensures bad { IfErr result (λ n. BadWord (codes "run" ∷ texts words.now) n) }
{
    let Some(file) = first_of(words) else {
        return Err(2);
    };
    let Some(entry) = first_of(file.rest) else {
        return Err(3);
    };
    let Some(runs) = behind_number(entry.rest, MAX_RUNS) else {
        return Err(4);
    };
    let Some(chosen) = behind_strategy(runs.rest) else {
        return Err(5);
    };
    let Some(depth) = behind_number(chosen.rest, MAX_DEPTH) else {
        return Err(6);
    };
    let options = depth.rest;
    if let Some(bad) = bad_run_option(chosen.strategy, options) {
        return Err(bad as u32 + 7);
    }
    Ok(Command::Run(RunWords {
        file: 2,
        entry: 3,
        runs: runs.number,
        strategy: chosen.strategy,
        bounds: bounds_with(options, depth.number),
        budget: natural_given(options, "-solver", SOLVER) as u64,
        seed: seed_given(options),
        after: place_behind(options, "-after", 6),
    }))
}

/// The command of the words behind `trace`.
fn read_trace(words: &[String]) -> Result<Command, u32>
    ensures accepted { IfOk result (λ c. Accepted (codes "trace" ∷ texts words.now) c) }
    ensures bad { IfErr result (λ n. BadWord (codes "trace" ∷ texts words.now) n) }
{
    let Some(file) = first_of(words) else {
        return Err(2);
    };
    let Some(entry) = first_of(file.rest) else {
        return Err(3);
    };
    let Some(map) = first_of(entry.rest) else {
        return Err(4);
    };
    let options = map.rest;
    if let Some(bad) = bad_trace_option(options) {
        return Err(bad as u32 + 5);
    }
    let depth = natural_given(options, "-depth", DEPTH);
    Ok(Command::Trace(TraceWords {
        file: 2,
        entry: 3,
        map: 4,
        bounds: bounds_with(options, depth),
    }))
}

/// The command of the words behind `replay`.
fn read_replay(words: &[String]) -> Result<Command, u32>
    ensures accepted { IfOk result (λ c. Accepted (codes "replay" ∷ texts words.now) c) }
    ensures bad { IfErr result (λ n. BadWord (codes "replay" ∷ texts words.now) n) }
{
    let Some(file) = first_of(words) else {
        return Err(2);
    };
    let Some(entry) = first_of(file.rest) else {
        return Err(3);
    };
    let Some(tests) = first_of(entry.rest) else {
        return Err(4);
    };
    match first_of(tests.rest) {
        Some(_word) => Err(5),
        None => Ok(Command::Replay(ReplayWords {
            file: 2,
            entry: 3,
            tests: 4,
        })),
    }
}

/// The command of the words behind `make`.
fn read_make(words: &[String]) -> Result<Command, u32>
    ensures accepted { IfOk result (λ c. Accepted (codes "make" ∷ texts words.now) c) }
    ensures bad { IfErr result (λ n. BadWord (codes "make" ∷ texts words.now) n) }
{
    let Some(branches) = behind_number(words, MAX_BRANCHES) else {
        return Err(2);
    };
    match first_of(branches.rest) {
        Some(_word) => Err(3),
        None => Ok(Command::Make(branches.number)),
    }
}

/// The command, by the first word.
fn read(words: &[String]) -> Result<Command, u32>
    ensures accepted { IfOk result (λ c. Accepted (texts words.now) c) }
    ensures bad { IfErr result (λ n. BadWord (texts words.now) n) }
{
    if let Some(rest) = behind_keyword(words, "run") {
        return read_run(rest);
    }
    if let Some(rest) = behind_keyword(words, "trace") {
        return read_trace(rest);
    }
    if let Some(rest) = behind_keyword(words, "replay") {
        return read_replay(rest);
    }
    let Some(rest) = behind_keyword(words, "make") else {
        return Err(1);
    };
    read_make(rest)
}

/// The command that the words of a command line give, the program's name left out.
///
/// The forms are `run FILE ENTRY N STRATEGY D` and `trace FILE ENTRY MAP`, with options behind them, `replay FILE ENTRY
/// TESTS`, and `make N`. STRATEGY is `-dfs`, or one of the walks `-random`, `-uniform_random` and `-cfg`. FILE, ENTRY,
/// MAP and TESTS are any words, N of `run` is from 1 to 1,000,000, D and N of `make` from 1 to 1,024. The options stand
/// in any order, each at most once and each with a word behind it: `-min` and `-max` any number of 32 bits, the first
/// at most the second, where they are not given the least and the greatest; `-objects` 1 to 25, else 8; `-steps` 1 to
/// 1,000,000, else 100,000; for `run` also `-solver` 1 to 100,000,000, else 20,000; with `-dfs` `-after` one or more of
/// the outcomes' bytes `! + - . F T a..z`, or `~`; with a walk
/// `-seed` any number of 64 bits without a sign, else 0; for `trace` `-depth` 1 to 1,024, else 1,024.
/// A number is decimal, without a plus, without leading zeros, and 0 has no minus.
///
/// An error is the number of the bad word, from 1: the least n such that the first n words begin no accepted list, or
/// the number of words plus 1 where all of them begin one.
pub fn read_words(words: &[String]) -> Result<Command, u32>
    ensures accepted { IfOk result (λ c. Accepted (texts words.now) c) }
    ensures only { (c : Command) → Accepted (texts words.now) c → result ≡ Ok c }
    ensures bad { IfErr result (λ n. BadWord (texts words.now) n) }
    ensures bad_exact { (n : ℕ) → BadWord (texts words.now) n → result ≡ Err n }
{
    read(words)
}

/// A list of words is accepted as at most one command.
pub fn one_command()
    ensures { (words : List (List ℕ)) (first second : Command)
        → Accepted words first → Accepted words second → first ≡ second }
{}
