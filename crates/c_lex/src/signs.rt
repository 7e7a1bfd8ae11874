//! Signs.

ghost use Rattle.std.specs.Prelude.{◌≡◌, ◌≤◌, ◌<◌, IfSome, option_map, length};
ghost use Rattle.std.specs.List.{find};
ghost use Rattle.cc_model.specs.Lexical.{begins, longest, signs};
ghost use Rattle.c_lex.specs.Tables.{seen, sized};

use crate::classes::begins;
use cc_model::Punct;

/// The signs, the longer ones first.
const SIGNS: [(&[u8], Punct); 33] = [
    (b"->", Punct::Arrow),
    (b"<=", Punct::AtMost),
    (b">=", Punct::AtLeast),
    (b"==", Punct::Equal),
    (b"!=", Punct::Unequal),
    (b"&&", Punct::Both),
    (b"||", Punct::Either),
    (b"+=", Punct::AddTo),
    (b"-=", Punct::SubFrom),
    (b"*=", Punct::MulBy),
    (b"/=", Punct::DivBy),
    (b"%=", Punct::RemBy),
    (b"++", Punct::Increase),
    (b"--", Punct::Decrease),
    (b"{", Punct::OpenBrace),
    (b"}", Punct::CloseBrace),
    (b"(", Punct::Open),
    (b")", Punct::Close),
    (b"[", Punct::OpenSquare),
    (b"]", Punct::CloseSquare),
    (b";", Punct::Semicolon),
    (b",", Punct::Comma),
    (b".", Punct::Dot),
    (b"*", Punct::Star),
    (b"&", Punct::Ampersand),
    (b"!", Punct::Bang),
    (b"+", Punct::Plus),
    (b"-", Punct::Dash),
    (b"/", Punct::Slash),
    (b"%", Punct::Percent),
    (b"<", Punct::Less),
    (b">", Punct::Greater),
    (b"=", Punct::Assign),
];

/// The first sign of a table that the bytes begin with, and its length.
fn first_of(table: &[(&[u8], Punct)], bytes: &[u8]) -> Option<(Punct, usize)>
    ensures value { result ≡ option_map sized (find (λ s. begins bytes.now s.0) (seen table.now)) }
    ensures within { IfSome result (λ s. s.1 ≤ length bytes.now) }
{
    for (text, sign) in table {
        if begins(bytes, *text) {
            return Some((*sign, text.len()));
        }
    }
    None
}

/// The longest sign that the bytes begin with, and its length.
pub fn sign_of(bytes: &[u8]) -> Option<(Punct, usize)>
    ensures value { result ≡ option_map sized (longest signs bytes.now) }
    ensures within { IfSome result (λ s. (0 < s.1) × (s.1 ≤ length bytes.now)) }
{
    first_of(&SIGNS, bytes)
}
