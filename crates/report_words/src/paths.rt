//! Paths, read from their texts.

ghost use Rattle.std.specs.Prelude.{◌≡◌, IfOk, IfSome, Option, Some, map, All};
ghost use Rattle.cc_base.specs.Outcomes.{byte_of, HasByte};
ghost use Rattle.cc_base.specs.Paths.{Path};
ghost use Rattle.report_words.specs.Words.{IsPath, AreBytes};

use cc_base::{NoMemory, Outcome, PathText};
use std::alloc::Global;

/// The outcomes whose bytes these are; None exactly where a byte is that of no outcome.
fn outcomes_of(alloc: Global, bytes: &[u8]) -> Result<Option<PathText>, NoMemory>
    ensures read { IfOk result (λ r. IfSome r (λ p. AreBytes bytes.now p)) }
    ensures only { (p : Path) → AreBytes bytes.now p → IfOk result (λ r. r ≡ Some p) }
{
    let mut path = PathText::new(alloc);
    for byte in bytes {
        match Outcome::from_byte(*byte) {
            Some(outcome) => path.push(outcome)?,
            None => return Ok(None),
        }
    }
    Ok(Some(path))
}

/// The path whose text the word is: one or more bytes of outcomes, or ~ for the empty path; None exactly where there is
/// none.
pub fn path_of(alloc: Global, word: &[u8]) -> Result<Option<PathText>, NoMemory>
    ensures read { IfOk result (λ r. IfSome r (λ p. IsPath word.now p)) }
    ensures only { (p : Path) → IsPath word.now p → IfOk result (λ r. r ≡ Some p) }
{
    if matches!(word, b"~") {
        return Ok(Some(PathText::new(alloc)));
    }
    if word.is_empty() {
        return Ok(None);
    }
    outcomes_of(alloc, word)
}
