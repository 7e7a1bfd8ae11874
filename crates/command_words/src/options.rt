//! The options of the forms, and what they give.

ghost use Rattle.std.specs.Prelude.{◌≡◌, ℕ, ◌<◌, ◌≤◌, ◌≤ℤ◌, ℤ, pos, List, [], ◌∷◌, IsTrue};
ghost use Rattle.std.specs.Prelude.{IfSome, IfNone, Some, take, drop, length, ◌+◌};
ghost use Rattle.command_words.specs.Words.{texts, takes_of};
ghost use Rattle.command_words.specs.Words.{behind, place_behind, IsGiven, IsSeed, min_option, max_option, AreBounds};
ghost use Rattle.command_words.specs.Words.{search_options, walk_options, run_options, trace_options};
ghost use Rattle.command_words.specs.Options.{seen, IsTable, Fits, IsBadAt};
ghost use Rattle.cc_base.specs.Limits.{Limits};

use crate::values::{Range, Takes, is_value, number_of, wide_of};
use cc_model::Strategy;
use cc_model::base::Bounds;

/// What the option of the name takes, in the table; None where no option has the name.
fn takes_of(options: &[(&str, Takes)], name: &str) -> Option<Takes>
    ensures { result ≡ takes_of (seen options.now) name.now }
{
    for (option, takes) in options {
        if name == *option {
            return Some(*takes);
        }
    }
    None
}

/// A word, and those behind it.
#[derive(Clone, Copy)]
pub struct WordAndRest<'a> {
    pub word: &'a str,
    pub rest: &'a [String],
}

/// The first word and the others; None where there is none.
pub fn first_of(words: &[String]) -> Option<WordAndRest<'_>>
    ensures some { IfSome result (λ r. texts words.now ≡ r.word.now ∷ texts r.rest.now) }
    ensures none { IfNone result (texts words.now ≡ []) }
{
    let (word, rest) = words.split_first()?;
    Some(WordAndRest {
        word: word.as_str(),
        rest,
    })
}

/// The first word behind the name, in pairs of a name and another word; None where the name does not stand.
fn value_behind<'a>(words: &'a [String], name: &str) -> Option<&'a str>
    ensures some { IfSome result (λ v. (rest : List (List ℕ)) × (behind name.now (texts words.now) ≡ v.now ∷ rest)) }
    ensures none { IfNone result (behind name.now (texts words.now) ≡ []) }
{
    let first = first_of(words)?;
    let second = first_of(first.rest)?;
    if first.word == name {
        return Some(second.word);
    }
    value_behind(second.rest, name)
}

/// The number of the first word behind the name, in pairs of a name and another word, where `before` words stand before
/// them; None where the name does not stand.
pub fn place_behind(words: &[String], name: &str, before: u32) -> Option<u32>
    requires { before + length words.now ≤ 1000 }
    ensures { result ≡ place_behind name.now before (texts words.now) }
{
    let first = first_of(words)?;
    let second = first_of(first.rest)?;
    if first.word == name {
        return Some(before + 2);
    }
    place_behind(second.rest, name, before + 2)
}

/// The number of the option of the name, among options that a form takes.
fn number_given(words: &[String], name: &str, range: Range) -> i32
    ensures { (z : ℤ) → IsGiven (texts words.now) (name.now, range) z → result ≡ z }
{
    let Some(value) = value_behind(words, name) else {
        return range.default;
    };
    number_of(value, range.least, range.greatest).unwrap_or(range.default)
}

/// The seed, among options that a form takes.
pub fn seed_given(words: &[String]) -> u64
    ensures { (n : ℕ) → IsSeed (texts words.now) n → result ≡ n }
{
    let Some(value) = value_behind(words, "-seed") else {
        return 0;
    };
    wide_of(value).unwrap_or(0)
}

/// The least number of an input, if `-min` says nothing else.
const MIN: Range = Range {
    least: i32::MIN,
    greatest: i32::MAX,
    default: i32::MIN,
};

/// The greatest number of an input, if `-max` says nothing else.
const MAX: Range = Range {
    least: i32::MIN,
    greatest: i32::MAX,
    default: i32::MAX,
};

/// Whether the least number that the options give is at most the greatest.
fn is_ordered(words: &[String]) -> bool
    ensures yes { IsTrue result → (lo hi : ℤ) → IsGiven (texts words.now) min_option lo
        → IsGiven (texts words.now) max_option hi → lo ≤ℤ hi }
    ensures no { (lo hi : ℤ) → IsGiven (texts words.now) min_option lo → IsGiven (texts words.now) max_option hi
        → lo ≤ℤ hi → IsTrue result }
{
    number_given(words, "-min", MIN) <= number_given(words, "-max", MAX)
}

/// The first words, `n` of them.
fn first_words(words: &[String], n: usize) -> &[String]
    requires { n ≤ length words.now }
    ensures { texts result.now ≡ texts (take n words.now) }
{
    &words[..n]
}

/// The words behind the first `n`.
fn later_words(words: &[String], n: usize) -> &[String]
    requires { n ≤ length words.now }
    ensures { texts result.now ≡ texts (drop n words.now) }
{
    &words[n..]
}

/// Whether the name does not stand yet, in pairs of a name and another word.
fn is_new(words: &[String], name: &str) -> bool
    ensures yes { IsTrue result → behind name.now (texts words.now) ≡ [] }
    ensures no { behind name.now (texts words.now) ≡ [] → IsTrue result }
{
    match value_behind(words, name) {
        Some(_value) => false,
        None => true,
    }
}

/// The place, from 0, of the first bad word of the options, where those before `at` are no bad words; None where none
/// is bad.
fn bad_option(options: &[(&str, Takes)], words: &[String], at: usize) -> Option<usize>
    requires { at ≤ length words.now }
    ensures some { IfSome result (λ n. IsTable (seen options.now) → Fits (seen options.now) (texts (take at words.now))
        → IsBadAt (seen options.now) (texts words.now) n) }
    ensures none { IfNone result (IsTable (seen options.now) → Fits (seen options.now) (texts (take at words.now))
        → Fits (seen options.now) (texts words.now)) }
{
    let name = first_of(later_words(words, at))?;
    let Some(takes) = takes_of(options, name.word) else {
        return Some(at);
    };
    if !is_new(first_words(words, at), name.word) {
        return Some(at);
    }
    let Some(value) = first_of(name.rest) else {
        return Some(at + 1);
    };
    if !is_value(takes, value.word) {
        return Some(at + 1);
    }
    if !is_ordered(first_words(words, at + 2)) {
        return Some(at + 1);
    }
    bad_option(options, words, at + 2)
}

/// How many runs a session makes at most.
pub const MAX_RUNS: i32 = 1_000_000;

/// How many events a run has at most.
pub const MAX_DEPTH: i32 = 1024;

/// How many input objects a run may access.
const OBJECTS: Range = Range {
    least: 1,
    greatest: 25,
    default: 8,
};

/// How many steps a run may take.
const STEPS: Range = Range {
    least: 1,
    greatest: 1_000_000,
    default: 100_000,
};

/// How many events a traced run may have.
pub const DEPTH: Range = Range {
    least: 1,
    greatest: MAX_DEPTH,
    default: MAX_DEPTH,
};

/// The work that a solve may take.
pub const SOLVER: Range = Range {
    least: 1,
    greatest: 100_000_000,
    default: 20_000,
};

/// The options of `run` with `-dfs`.
const SEARCH_OPTIONS: [(&str, Takes); 6] = [
    ("-min", Takes::Number(MIN)),
    ("-max", Takes::Number(MAX)),
    ("-objects", Takes::Number(OBJECTS)),
    ("-steps", Takes::Number(STEPS)),
    ("-solver", Takes::Number(SOLVER)),
    ("-after", Takes::PathText),
];

/// The options of `run` with a walk.
const WALK_OPTIONS: [(&str, Takes); 6] = [
    ("-min", Takes::Number(MIN)),
    ("-max", Takes::Number(MAX)),
    ("-objects", Takes::Number(OBJECTS)),
    ("-steps", Takes::Number(STEPS)),
    ("-solver", Takes::Number(SOLVER)),
    ("-seed", Takes::Wide),
];

/// The options of `trace`.
const TRACE_OPTIONS: [(&str, Takes); 5] = [
    ("-min", Takes::Number(MIN)),
    ("-max", Takes::Number(MAX)),
    ("-objects", Takes::Number(OBJECTS)),
    ("-steps", Takes::Number(STEPS)),
    ("-depth", Takes::Number(DEPTH)),
];

/// How many branches a made program has at most.
pub const MAX_BRANCHES: i32 = 1024;

/// The place of the first bad word of the options of `run` with `-dfs`; None where none is bad.
fn bad_search_option(words: &[String]) -> Option<usize>
    ensures some { IfSome result (λ n. IsBadAt search_options (texts words.now) n) }
    ensures none { IfNone result (Fits search_options (texts words.now)) }
{
    bad_option(&SEARCH_OPTIONS, words, 0)
}

/// The place of the first bad word of the options of `run` with a walk; None where none is bad.
fn bad_walk_option(words: &[String]) -> Option<usize>
    ensures some { IfSome result (λ n. IsBadAt walk_options (texts words.now) n) }
    ensures none { IfNone result (Fits walk_options (texts words.now)) }
{
    bad_option(&WALK_OPTIONS, words, 0)
}

/// The place of the first bad word of the options of `run`; None where none is bad.
pub fn bad_run_option(strategy: Strategy, words: &[String]) -> Option<usize>
    ensures some { IfSome result (λ n. IsBadAt (run_options strategy) (texts words.now) n) }
    ensures small { IfSome result (λ n. n ≤ 12) }
    ensures none { IfNone result (Fits (run_options strategy) (texts words.now)) }
{
    match strategy {
        Strategy::Dfs => bad_search_option(words),
        Strategy::Random => bad_walk_option(words),
        Strategy::UniformRandom => bad_walk_option(words),
        Strategy::Cfg => bad_walk_option(words),
    }
}

/// The place of the first bad word of the options of `trace`; None where none is bad.
pub fn bad_trace_option(words: &[String]) -> Option<usize>
    ensures some { IfSome result (λ n. IsBadAt trace_options (texts words.now) n) }
    ensures small { IfSome result (λ n. n ≤ 10) }
    ensures none { IfNone result (Fits trace_options (texts words.now)) }
{
    bad_option(&TRACE_OPTIONS, words, 0)
}

/// The number of an option that takes no negative ones, among options that a form takes.
pub fn natural_given(words: &[String], name: &str, range: Range) -> u32
    requires { (n : ℕ) × IsGiven (texts words.now) (name.now, range) (pos n) }
    ensures { IsGiven (texts words.now) (name.now, range) (pos result) }
{
    number_given(words, name, range) as u32
}

/// The bounds that the options give, with the depth.
pub fn bounds_with(words: &[String], depth: u32) -> Bounds
    requires given { (bounds : Limits) × AreBounds (texts words.now) bounds }
    requires low { 1 ≤ depth }
    requires high { depth ≤ 1024 }
    ensures bounds { AreBounds (texts words.now) result }
    ensures depth { result.depth ≡ depth }
{
    let objects = natural_given(words, "-objects", OBJECTS) as u8;
    let steps = natural_given(words, "-steps", STEPS);
    let lo = number_given(words, "-min", MIN);
    let hi = number_given(words, "-max", MAX);
    Bounds::new(lo, hi, depth, objects, steps).unwrap()
}
