//! Numbers.

ghost use Rattle.std.specs.Prelude.{◌≡◌, ◌≤◌, ◌<◌, pos, Some, None, if◌then◌else◌};
ghost use Rattle.cc_model.specs.Lexical.{is_number, is_decimal, value_of};

use crate::classes::{are_digits, begins};

/// The greatest number.
const MAX: u64 = 2147483647;

/// The value of decimal digits, or some number above the greatest where the value is above it.
fn value_of(digits: &[u8]) -> u64
    ensures exact { value_of digits.now ≤ 2147483647 → result ≡ value_of digits.now }
    ensures above { 2147483647 < value_of digits.now → 2147483647 < result }
{
    let mut value = 0u64;
    for digit in digits {
        if value <= MAX {
            value = 10 * value + u64::from(digit.saturating_sub(b'0'));
        }
    }
    value
}

/// Whether a text is 0, or digits that begin with no 0.
#[tactic(auto, unfolding(cc_model::specs::Lexical::is_decimal))]
fn is_decimal(text: &[u8]) -> bool
    ensures { result ≡ is_decimal text.now }
{
    are_digits(text) && (text == b"0".as_slice() || !begins(text, b"0"))
}

/// The number that a run of bytes of names is, if it is one.
#[tactic(auto, using(crate::proofs::Digits::small_number, crate::proofs::Digits::great_number, crate::proofs::Digits::no_number))]
pub fn number_of(text: &[u8]) -> Option<i32>
    ensures { result ≡ (if is_number text.now then Some (pos (value_of text.now)) else None) }
{
    if is_decimal(text) {
        let value = value_of(text);
        if value <= MAX {
            return Some(value as i32);
        }
    }
    None
}
