//! What a word says: a number, a path, and what an option takes.

ghost use Rattle.std.specs.Prelude.{◌≡◌, ℕ, ◌<◌, ℤ, All, map, IsTrue, IfSome, IfNone, Some};
ghost use Rattle.command_words.specs.Words.{IsNumber, IsWide, IsPath, IsValue};
ghost use Rattle.cc_base.specs.Outcomes.{byte_of, HasByte};
ghost use Rattle.cc_base.specs.Paths.{Path};
ghost use Rattle.cc_base.specs.declared.outcomes.Outcome.{Outcome as Seen};

use cc_model::base::Outcome;
use itoa::Buffer;

/// The least and the greatest number that an option takes, and its number where it is not given.
#[derive(Clone, Copy)]
pub struct Range {
    pub least: i32,
    pub greatest: i32,
    pub default: i32,
}

/// The number from `low` to `high` whose decimal text `word` is; None exactly where there is none.
pub fn number_of(word: &str, low: i32, high: i32) -> Option<i32>
    ensures some { IfSome result (λ z. IsNumber word.now low high z) }
    ensures only { (z : ℤ) → IsNumber word.now low high z → result ≡ Some z }
    ensures none { IfNone result ((z : ℤ) → IsNumber word.now low high z → ⊥) }
{
    let number = word.parse::<i32>().ok()?;
    if number < low {
        return None;
    }
    if high < number {
        return None;
    }
    let mut buffer = Buffer::new();
    if buffer.format(number) == word {
        Some(number)
    } else {
        None
    }
}

/// The number of 64 bits whose decimal text `word` is; None exactly where there is none.
pub fn wide_of(word: &str) -> Option<u64>
    ensures some { IfSome result (λ n. IsWide word.now n) }
    ensures only { (n : ℕ) → IsWide word.now n → result ≡ Some n }
    ensures none { IfNone result ((n : ℕ) → IsWide word.now n → ⊥) }
{
    let number = word.parse::<u64>().ok()?;
    let mut buffer = Buffer::new();
    if buffer.format(number) == word {
        Some(number)
    } else {
        None
    }
}

/// Whether `word` is the decimal text of a number of 64 bits.
fn is_wide(word: &str) -> bool
    ensures yes { IsTrue result → (n : ℕ) × IsWide word.now n }
    ensures no { (n : ℕ) → IsWide word.now n → IsTrue result }
{
    wide_of(word).is_some()
}

/// Whether `word` is the decimal text of a number of the range.
fn is_in(word: &str, range: Range) -> bool
    ensures yes { IsTrue result → (z : ℤ) × IsNumber word.now range.least range.greatest z }
    ensures no { (z : ℤ) → IsNumber word.now range.least range.greatest z → IsTrue result }
{
    number_of(word, range.least, range.greatest).is_some()
}

/// Whether the byte is that of an outcome.
fn is_outcome(byte: u8) -> bool
    ensures yes { IsTrue result → (o : Seen) × HasByte o × (byte_of o ≡ byte) }
    ensures no { (o : Seen) → HasByte o → byte_of o ≡ byte → IsTrue result }
{
    Outcome::from_byte(byte).is_some()
}

/// Whether each byte is that of an outcome.
fn are_outcomes(bytes: &[u8]) -> bool
    ensures yes { IsTrue result → (p : Path) × All HasByte p × (bytes.now ≡ map byte_of p) }
    ensures no { (p : Path) → All HasByte p → bytes.now ≡ map byte_of p → IsTrue result }
{
    for byte in bytes {
        if !is_outcome(*byte) {
            return false;
        }
    }
    true
}

/// Whether `word` is the text of a path: one or more bytes of outcomes, or ~ for the empty path.
fn is_path(word: &str) -> bool
    ensures yes { IsTrue result → (p : Path) × IsPath word.now p }
    ensures no { (p : Path) → IsPath word.now p → IsTrue result }
{
    if word == "~" {
        return true;
    }
    !word.is_empty() && are_outcomes(word.as_bytes())
}

/// What an option takes.
#[derive(Clone, Copy)]
pub enum Takes {
    /// A number of the range.
    Number(Range),
    /// A number of 64 bits without a sign.
    Wide,
    /// A path.
    PathText,
}

/// Whether `word` is what the option takes.
pub fn is_value(takes: Takes, word: &str) -> bool
    ensures yes { IsTrue result → IsValue takes word.now }
    ensures no { IsValue takes word.now → IsTrue result }
{
    match takes {
        Takes::Number(range) => is_in(word, range),
        Takes::Wide => is_wide(word),
        Takes::PathText => is_path(word),
    }
}
