//! The pieces of a source, one behind the other.

ghost use Rattle.std.specs.Prelude.{◌≡◌, ◌≤◌, ◌<◌, ◌+◌, ◌++◌, IfSome, IfOk, IfErr, OnOk, length, vec_len};
ghost use Rattle.std.specs.List.{All};
ghost use Rattle.cc_model.specs.Lexical.{piece_at, token_at, tokens_of};
ghost use Rattle.c_lex.specs.Faults.{Is, Gives};
ghost use Rattle.c_lex.specs.Positions.{IsPlace};
ghost use Rattle.c_lex.specs.Views.{view, listed};

use crate::classes::rest_from;
use crate::faults::LexFault;
use crate::pieces::{Piece, piece_of};
use crate::places::{Place, moved, start};
use cc_model::Token;
use std::alloc::Global;

/// What stands at a place before the end.
fn piece_at(source: &[u8], place: Place) -> Result<Piece, LexFault>
    requires size { length source.now ≤ 1048576 }
    requires place { IsPlace source.now place }
    requires inside { place.at < length source.now }
    ensures exact { Is view result (piece_at source.now place.at) }
    ensures inside { IfOk result (λ p. (0 < p.len) × (place.at + p.len ≤ length source.now)) }
{
    piece_of(rest_from(source, place.at), place.at as u32, place.is_first)
}

/// The token of a piece that begins at a place, if it has one.
fn token_at(source: &[u8], place: Place, piece: Piece) -> Option<Token>
    requires size { length source.now ≤ 1048576 }
    requires place { IsPlace source.now place }
    requires inside { place.at + piece.len ≤ length source.now }
    ensures exact { listed result ≡ token_at source.now place.at (view piece) }
    ensures span { IfSome result (λ t. (t.start ≡ place.at) × (t.end ≡ place.at + piece.len)) }
{
    match piece.kind {
        Some(kind) => Some(Token {
            kind,
            start: place.at as u32,
            end: (place.at + piece.len) as u32,
            line: place.line,
            col: place.col,
        }),
        None => None,
    }
}

/// Adds a token, if there is one.
fn push(tokens: &mut Vec<Token>, token: Option<Token>) -> Result<(), LexFault>
    ensures ok { OnOk result (tokens.new.items ≡ tokens.old.items ++ listed token) }
    ensures err { IfErr result (λ e. e ≡ LexFault.NoMemory) }
{
    if let Some(token) = token {
        tokens.push(token)?;
    }
    Ok(())
}

/// The tokens of a source, or its fault of least offset. `NoMemory` comes only where memory runs out.
pub fn lex(alloc: Global, source: &[u8]) -> Result<Vec<Token>, LexFault>
    requires { length source.now ≤ 1048576 }
    ensures exact { Gives (λ v. v.items) result (tokens_of source.now) }
    ensures few { IfOk result (λ v. vec_len v ≤ length source.now) }
    ensures within { IfOk result (λ v. All (λ t. (t.start < t.end) × (t.end ≤ length source.now)) v.items) }
{
    let mut tokens = Vec::new(alloc);
    let mut place = start();
    while place.at < source.len() {
        let piece = piece_at(source, place)?;
        push(&mut tokens, token_at(source, place, piece))?;
        place = moved(source, place, piece.len);
    }
    Ok(tokens)
}
