//! Places in a source.

ghost use Rattle.std.specs.Prelude.{◌≡◌, ◌≤◌, ◌<◌, ◌+◌, ℕ, List, length};
ghost use Rattle.c_lex.specs.Positions.{IsPlace};

use crate::classes::{is_blank, is_newline};

/// A place in a source.
#[derive(Clone, Copy)]
pub struct Place {
    /// The offset in bytes.
    pub at: usize,
    /// The line, from 1.
    pub line: u32,
    /// The column in bytes, from 1.
    pub col: u32,
    /// Whether there are only blanks before it on its line.
    pub is_first: bool,
}

/// The place where a source begins.
pub fn start() -> Place
    ensures at { result.at ≡ 0 }
    ensures place { (source : List ℕ) → IsPlace source result }
{
    Place {
        at: 0,
        line: 1,
        col: 1,
        is_first: true,
    }
}

/// The place behind the byte at a place.
fn next(source: &[u8], place: Place) -> Place
    requires size { length source.now ≤ 1048576 }
    requires place { IsPlace source.now place }
    requires inside { place.at < length source.now }
    ensures at { result.at ≡ place.at + 1 }
    ensures place { IsPlace source.now result }
{
    let byte = source[place.at];
    let at = place.at + 1;
    if is_newline(byte) {
        Place {
            at,
            line: place.line + 1,
            col: 1,
            is_first: true,
        }
    } else {
        Place {
            at,
            line: place.line,
            col: place.col + 1,
            is_first: place.is_first && is_blank(byte),
        }
    }
}

/// The place some bytes on.
pub fn moved(source: &[u8], place: Place, len: usize) -> Place
    requires size { length source.now ≤ 1048576 }
    requires place { IsPlace source.now place }
    requires inside { place.at + len ≤ length source.now }
    ensures at { result.at ≡ place.at + len }
    ensures place { IsPlace source.now result }
{
    let mut moved = place;
    for _ in 0..len {
        moved = next(source, moved);
    }
    moved
}
