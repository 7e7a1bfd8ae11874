//! The forms of report lines that hold no input.

ghost use Rattle.std.specs.Prelude.{◌≡◌, ◌↔◌, IfOk, IsTrue, map};
ghost use Rattle.replay.specs.Forms.{IsWord, AreWords, IsOther, named, place, outcome, term_kind, site_kind};
ghost use Rattle.replay.specs.Tables.{seen, seen_word, IsOneOf};

use crate::bounds::value_of;
use cc_model::base::{NoMemory, Outcome};
use report_words::{cut_first, end_of, is_number, path_of};
use std::alloc::Global;

/// What a word of a report line is.
#[derive(Clone, Copy)]
enum Word {
    /// This word.
    The(&'static [u8]),
    /// NAME=NUMBER.
    Named(&'static [u8]),
    Number,
    /// LINE:COL.
    Place,
    Path,
    End,
    Outcome,
    /// Why a run concretised.
    TermKind,
    /// What happens at a site.
    SiteKind,
}

/// spent PREFIX
const SPENT: [Word; 2] = [Word::The(b"spent"), Word::Path];

/// term LINE:COL KIND
const TERM: [Word; 3] = [Word::The(b"term"), Word::Place, Word::TermKind];

/// event I OUTCOME LINE KIND
const EVENT: [Word; 5] = [
    Word::The(b"event"),
    Word::Number,
    Word::Outcome,
    Word::Number,
    Word::SiteKind,
];

/// complete paths=P runs=R
const COMPLETE: [Word; 3] = [
    Word::The(b"complete"),
    Word::Named(b"paths"),
    Word::Named(b"runs"),
];

/// incomplete terms=A spent=B steps=C strays=E unrun=G
const INCOMPLETE: [Word; 6] = [
    Word::The(b"incomplete"),
    Word::Named(b"terms"),
    Word::Named(b"spent"),
    Word::Named(b"steps"),
    Word::Named(b"strays"),
    Word::Named(b"unrun"),
];

/// ended runs=R covered=C of M
const ENDED: [Word; 5] = [
    Word::The(b"ended"),
    Word::Named(b"runs"),
    Word::Named(b"covered"),
    Word::The(b"of"),
    Word::Number,
];

/// replayed T
const REPLAYED: [Word; 2] = [Word::The(b"replayed"), Word::Number];

/// differs LINE PATH END actual PATH END
const DIFFERS: [Word; 7] = [
    Word::The(b"differs"),
    Word::Number,
    Word::Path,
    Word::End,
    Word::The(b"actual"),
    Word::Path,
    Word::End,
];

/// The forms.
const OTHERS: [&[Word]; 8] = [
    &SPENT,
    &TERM,
    &EVENT,
    &COMPLETE,
    &INCOMPLETE,
    &ENDED,
    &REPLAYED,
    &DIFFERS,
];

/// Whether a word is two numbers with a colon between them.
fn is_place(word: &[u8]) -> bool
    ensures { IsTrue result ↔ IsWord place word.now }
{
    match cut_first(word, b':') {
        Some(parts) => is_number(parts.before) && is_number(parts.behind),
        None => false,
    }
}

/// Whether a word is NAME=NUMBER.
fn is_named(name: &[u8], word: &[u8]) -> bool
    ensures { IsTrue result ↔ IsWord (named name.now) word.now }
{
    match value_of(word, name) {
        Some(value) => is_number(value),
        None => false,
    }
}

/// Whether a word is the byte of an outcome.
fn is_outcome(word: &[u8]) -> bool
    ensures { IsTrue result ↔ IsWord outcome word.now }
{
    match word {
        [byte] => Outcome::from_byte(*byte).is_some(),
        _ => false,
    }
}

/// Whether a word says why a run concretised.
fn is_term_kind(word: &[u8]) -> bool
    ensures { IsTrue result ↔ IsWord term_kind word.now }
{
    match word {
        b"product" => true,
        b"quotient" => true,
        b"index" => true,
        b"wide" => true,
        _ => false,
    }
}

/// Whether a word says what happens at a site.
fn is_site_kind(word: &[u8]) -> bool
    ensures { IsTrue result ↔ IsWord site_kind word.now }
{
    match word {
        b"decision" => true,
        b"fit" => true,
        b"divisor" => true,
        b"index" => true,
        b"access" => true,
        _ => false,
    }
}

/// Whether a word is one of this kind.
fn is_word(alloc: Global, kind: Word, word: &[u8]) -> Result<bool, NoMemory>
    ensures { IfOk result (λ b. IsTrue b ↔ IsWord (seen_word kind) word.now) }
{
    match kind {
        Word::The(this) => Ok(word == this),
        Word::Named(name) => Ok(is_named(name, word)),
        Word::Number => Ok(is_number(word)),
        Word::Place => Ok(is_place(word)),
        Word::Path => Ok(path_of(alloc, word)?.is_some()),
        Word::End => Ok(end_of(word).is_some()),
        Word::Outcome => Ok(is_outcome(word)),
        Word::TermKind => Ok(is_term_kind(word)),
        Word::SiteKind => Ok(is_site_kind(word)),
    }
}

/// Whether a text is words of this form, with a blank between them.
fn are_words(alloc: Global, form: &[Word], text: &[u8]) -> Result<bool, NoMemory>
    ensures { IfOk result (λ b. IsTrue b ↔ AreWords (map seen_word form.now) text.now) }
{
    let Some((kind, rest)) = form.split_first() else {
        return Ok(false);
    };
    match cut_first(text, b' ') {
        None => {
            if rest.is_empty() {
                is_word(alloc, *kind, text)
            } else {
                Ok(false)
            }
        }
        Some(parts) => {
            if is_word(alloc, *kind, parts.before)? {
                are_words(alloc, rest, parts.behind)
            } else {
                Ok(false)
            }
        }
    }
}

/// Whether a text has one of these forms.
fn has_form(alloc: Global, forms: &[&[Word]], text: &[u8]) -> Result<bool, NoMemory>
    ensures { IfOk result (λ b. IsTrue b ↔ IsOneOf (seen forms.now) text.now) }
{
    for form in forms {
        if are_words(alloc, form, text)? {
            return Ok(true);
        }
    }
    Ok(false)
}

/// Whether a text is a report line without an input.
pub(crate) fn is_other(alloc: Global, text: &[u8]) -> Result<bool, NoMemory>
    ensures { IfOk result (λ b. IsTrue b ↔ IsOther text.now) }
{
    has_form(alloc, &OTHERS, text)
}
