//! Classes of bytes, and runs of them.

ghost use Rattle.std.specs.Prelude.{◌≡◌, ◌≤◌, IsTrue, length, drop};
ghost use Rattle.std.specs.List.{prefix_len, position_or_len, take_while, list_all};
ghost use Rattle.cc_model.specs.Lexical.{is_newline, is_blank, is_digit, is_letter, is_name_byte, skip_blanks, line_of};
ghost use Rattle.cc_model.specs.Lexical.{begins};

#[tactic(auto, unfolding(cc_model::specs::Lexical::is_newline))]
pub fn is_newline(b: u8) -> bool
    ensures { result ≡ is_newline b }
{
    b == b'\n'
}

#[tactic(auto, unfolding(cc_model::specs::Lexical::is_blank))]
pub fn is_blank(b: u8) -> bool
    ensures { result ≡ is_blank b }
{
    b == b' ' || (b'\t' <= b && b <= b'\r')
}

#[tactic(auto, unfolding(cc_model::specs::Lexical::is_digit))]
pub fn is_digit(b: u8) -> bool
    ensures { result ≡ is_digit b }
{
    b'0' <= b && b <= b'9'
}

#[tactic(auto, unfolding(cc_model::specs::Lexical::is_letter))]
pub fn is_letter(b: u8) -> bool
    ensures { result ≡ is_letter b }
{
    (b'A' <= b && b <= b'Z') || (b'a' <= b && b <= b'z') || b == b'_'
}

#[tactic(auto, unfolding(cc_model::specs::Lexical::is_name_byte))]
pub fn is_name_byte(b: u8) -> bool
    ensures { result ≡ is_name_byte b }
{
    is_letter(b) || is_digit(b)
}

/// How many blanks stand at the front.
pub fn blank_run(bytes: &[u8]) -> usize
    ensures value { result ≡ prefix_len is_blank bytes.now }
    ensures within { result ≤ length bytes.now }
{
    bytes.iter().take_while(|b| is_blank(**b)).count()
}

/// How many bytes of names stand at the front.
fn name_run(bytes: &[u8]) -> usize
    ensures value { result ≡ prefix_len is_name_byte bytes.now }
    ensures within { result ≤ length bytes.now }
{
    bytes.iter().take_while(|b| is_name_byte(**b)).count()
}

/// How many bytes stand before the next newline.
fn line_len(bytes: &[u8]) -> usize
    ensures value { result ≡ position_or_len is_newline bytes.now }
    ensures within { result ≤ length bytes.now }
{
    bytes.iter().take_while(|b| !is_newline(**b)).count()
}

/// The bytes of names at the front.
pub fn name_of(bytes: &[u8]) -> &[u8]
    ensures value { result.now ≡ take_while is_name_byte bytes.now }
    ensures within { length result.now ≤ length bytes.now }
{
    &bytes[..name_run(bytes)]
}

/// The bytes up to the next newline.
#[tactic(auto, unfolding(cc_model::specs::Lexical::line_of))]
pub fn line_of(bytes: &[u8]) -> &[u8]
    ensures value { result.now ≡ line_of bytes.now }
    ensures within { length result.now ≤ length bytes.now }
{
    &bytes[..line_len(bytes)]
}

/// The bytes without the blanks at their front.
#[tactic(auto, unfolding(cc_model::specs::Lexical::skip_blanks))]
pub fn skip_blanks(bytes: &[u8]) -> &[u8]
    ensures { result.now ≡ skip_blanks bytes.now }
{
    &bytes[blank_run(bytes)..]
}

/// Whether there are only blanks.
pub fn are_blanks(bytes: &[u8]) -> bool
    ensures { result ≡ list_all is_blank bytes.now }
{
    bytes.iter().all(|b| is_blank(*b))
}

/// Whether there are only digits.
pub fn are_digits(bytes: &[u8]) -> bool
    ensures { result ≡ list_all is_digit bytes.now }
{
    bytes.iter().all(|b| is_digit(*b))
}

/// Whether the bytes begin with a text.
#[tactic(auto, unfolding(cc_model::specs::Lexical::begins))]
pub fn begins(bytes: &[u8], text: &[u8]) -> bool
    ensures value { result ≡ begins bytes.now text.now }
    ensures within { IsTrue result → length text.now ≤ length bytes.now }
{
    bytes.starts_with(text)
}

/// The bytes from an offset on.
pub fn rest_from(bytes: &[u8], at: usize) -> &[u8]
    requires { at ≤ length bytes.now }
    ensures { result.now ≡ drop at bytes.now }
{
    &bytes[at..]
}
