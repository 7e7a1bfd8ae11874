//! Comments and directives.

ghost use Rattle.std.specs.Prelude.{◌≡◌, ◌≤◌, ◌<◌, ◌+◌, ◌==◌, IfSome, length};
ghost use Rattle.std.specs.List.{position_or_len};
ghost use Rattle.cc_model.specs.Lexical.{before_close, closes, is_header, is_include};

use crate::classes::{are_blanks, begins, rest_from, skip_blanks};

/// How many bytes stand before the next `*/`.
pub fn before_close(bytes: &[u8]) -> Option<usize>
    ensures value { result ≡ before_close bytes.now }
    ensures within { IfSome result (λ n. n + 2 ≤ length bytes.now) }
{
    for i in 0..bytes.len() {
        if begins(rest_from(bytes, i), b"*/") {
            return Some(i);
        }
    }
    None
}

/// How many bytes stand before the mark, or all where there is none.
fn place_of(mark: u8, bytes: &[u8]) -> usize
    ensures value { result ≡ position_or_len (λ b. b == mark) bytes.now }
    ensures within { result ≤ length bytes.now }
{
    bytes.iter().take_while(|b| **b != mark).count()
}

/// Whether the mark stands in the bytes, and behind the first one only blanks.
#[tactic(auto, unfolding(cc_model::specs::Lexical::closes))]
fn closes(mark: u8, bytes: &[u8]) -> bool
    ensures { result ≡ closes mark bytes.now }
{
    let place = place_of(mark, bytes);
    place < bytes.len() && are_blanks(&bytes[place + 1..])
}

/// Whether a header's name stands here, and behind it only blanks.
#[tactic(auto, unfolding(cc_model::specs::Lexical::is_header))]
fn is_header(bytes: &[u8]) -> bool
    ensures { result ≡ is_header bytes.now }
{
    if begins(bytes, b"<") {
        closes(b'>', &bytes[1..])
    } else {
        begins(bytes, b"\"") && closes(b'"', &bytes[1..])
    }
}

/// Whether a line from its `#` on is an include.
#[tactic(auto, unfolding(cc_model::specs::Lexical::is_include))]
pub fn is_include(line: &[u8]) -> bool
    requires { 0 < length line.now }
    ensures { result ≡ is_include line.now }
{
    let word = skip_blanks(&line[1..]);
    begins(word, b"include") && is_header(skip_blanks(&word[7..]))
}
