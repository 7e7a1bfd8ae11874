//! What stands at the front of the rest of a source.

ghost use Rattle.std.specs.Prelude.{◌≡◌, ◌≤◌, ◌<◌, IfOk, length};
ghost use Rattle.cc_model.specs.Lexical.{piece_of, number_of, word_of, directive_of, comment_of, sign_of};
ghost use Rattle.c_lex.specs.Faults.{Is};
ghost use Rattle.c_lex.specs.Views.{view};

use crate::classes::{
    begins, blank_run, is_blank, is_digit, is_letter, line_of, name_of, rest_from,
};
use crate::faults::LexFault;
use crate::gaps::{before_close, is_include};
use crate::numbers::number_of;
use crate::signs::sign_of;
use crate::words::keyword_of;
use cc_model::Kind;

/// What stands at the front: a token of this kind, or what only separates tokens.
#[derive(Clone, Copy)]
pub struct Piece {
    pub kind: Option<Kind>,
    /// The length in bytes.
    pub len: usize,
}

fn number_at(at: u32, text: &[u8]) -> Result<Piece, LexFault>
    ensures exact { Is view result (number_of at text.now) }
    ensures len { IfOk result (λ p. p.len ≡ length text.now) }
{
    match number_of(text) {
        Some(value) => Ok(Piece {
            kind: Some(Kind::Number(value)),
            len: text.len(),
        }),
        None => Err(LexFault::BadNumber(at)),
    }
}

fn word_at(text: &[u8]) -> Piece
    ensures exact { view result ≡ word_of text.now }
    ensures len { result.len ≡ length text.now }
{
    let kind = match keyword_of(text) {
        Some(keyword) => Kind::Key(keyword),
        None => Kind::Name,
    };
    Piece {
        kind: Some(kind),
        len: text.len(),
    }
}

fn directive_at(at: u32, line: &[u8]) -> Result<Piece, LexFault>
    requires { 0 < length line.now }
    ensures exact { Is view result (directive_of at line.now) }
    ensures len { IfOk result (λ p. p.len ≡ length line.now) }
{
    if is_include(line) {
        Ok(Piece {
            kind: None,
            len: line.len(),
        })
    } else {
        Err(LexFault::BadDirective(at))
    }
}

fn comment_at(at: u32, bytes: &[u8]) -> Result<Piece, LexFault>
    requires { 2 ≤ length bytes.now }
    ensures exact { Is view result (comment_of at bytes.now) }
    ensures inside { IfOk result (λ p. (0 < p.len) × (p.len ≤ length bytes.now)) }
{
    match before_close(rest_from(bytes, 2)) {
        Some(n) => Ok(Piece {
            kind: None,
            len: 2 + n + 2,
        }),
        None => Err(LexFault::OpenComment(at)),
    }
}

fn sign_at(at: u32, bytes: &[u8]) -> Result<Piece, LexFault>
    ensures exact { Is view result (sign_of at bytes.now) }
    ensures inside { IfOk result (λ p. (0 < p.len) × (p.len ≤ length bytes.now)) }
{
    match sign_of(bytes) {
        Some((sign, len)) => Ok(Piece {
            kind: Some(Kind::Punct(sign)),
            len,
        }),
        None => Err(LexFault::BadByte(at)),
    }
}

/// What stands at the front of the bytes, which go from the offset `at` on. `is_first` says that there are only
/// blanks before them on their line.
pub fn piece_of(bytes: &[u8], at: u32, is_first: bool) -> Result<Piece, LexFault>
    requires { 0 < length bytes.now }
    ensures exact { Is view result (piece_of is_first at bytes.now) }
    ensures inside { IfOk result (λ p. (0 < p.len) × (p.len ≤ length bytes.now)) }
{
    let first = bytes[0];
    if is_blank(first) {
        return Ok(Piece {
            kind: None,
            len: blank_run(bytes),
        });
    }
    if first == b'#' {
        if is_first {
            return directive_at(at, line_of(bytes));
        }
        return Err(LexFault::BadByte(at));
    }
    if is_digit(first) {
        return number_at(at, name_of(bytes));
    }
    if is_letter(first) {
        return Ok(word_at(name_of(bytes)));
    }
    if begins(bytes, b"//") {
        return Ok(Piece {
            kind: None,
            len: line_of(bytes).len(),
        });
    }
    if begins(bytes, b"/*") {
        return comment_at(at, bytes);
    }
    sign_at(at, bytes)
}
