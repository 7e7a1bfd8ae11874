//! The path that a word of the command line is.

ghost use Rattle.std.specs.Prelude.{◌≡◌, All, map, IfOk, Option, option_map};
ghost use Rattle.cc_base.specs.Outcomes.{byte_of, HasByte};
ghost use Rattle.cc_base.specs.Paths.{Path};
ghost use Rattle.command_words.specs.Words.{IsPath};
ghost use Rattle.concolic_cli.specs.Tasks.{IsPathOf};

use cc_model::base::{NoMemory, Outcome, PathText};
use std::alloc::Global;

/// The outcomes of these bytes.
fn outcomes_of(alloc: Global, bytes: &[u8]) -> Result<PathText, NoMemory>
    ensures { (p : Path) → All HasByte p → bytes.now ≡ map byte_of p → IfOk result (λ path. path ≡ p) }
{
    let mut path = PathText::new(alloc);
    for byte in bytes {
        if let Some(outcome) = Outcome::from_byte(*byte) {
            path.push(outcome)?;
        }
    }
    Ok(path)
}

/// The path whose text the word is.
fn path_of(alloc: Global, word: &str) -> Result<PathText, NoMemory>
    ensures { (p : Path) → IsPath word.now p → IfOk result (λ path. path ≡ p) }
{
    if word == "~" {
        return Ok(PathText::new(alloc));
    }
    outcomes_of(alloc, word.as_bytes())
}

/// The path whose text the word is, where there is a word.
pub fn path_if(alloc: Global, word: Option<&str>) -> Result<Option<PathText>, NoMemory>
    ensures { (p : Option Path) → IsPathOf (option_map (λ w. w.now) word.entry) p → IfOk result (λ path. path ≡ p) }
{
    match word {
        Some(word) => Ok(Some(path_of(alloc, word)?)),
        None => Ok(None),
    }
}
