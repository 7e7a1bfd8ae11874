//! Decimal numbers, read from their texts.

ghost use Rattle.std.specs.Prelude.{◌≡◌, ◌<◌, ◌≤◌, ◌^◌, ◌↔◌, IsTrue, IfSome, ℕ, ℤ, Some};
ghost use Rattle.std.specs.Fmt.{signed_decimal};
ghost use Rattle.report_words.specs.Words.{IsNatural, IsNumber, IsSigned};

use itoa::Buffer;

/// The number of 64 bits whose decimal text this is; None exactly where there is none.
fn number_in(text: &str) -> Option<u64>
    ensures read { IfSome result (λ n. IsNumber text.now n) }
    ensures only { (n : ℕ) → IsNumber text.now n → result ≡ Some n }
{
    let number = text.parse::<u64>().ok()?;
    let mut buffer = Buffer::new();
    if buffer.format(number) == text {
        Some(number)
    } else {
        None
    }
}

/// The number of 64 bits whose decimal text the word is; None exactly where there is none.
fn number_of(word: &[u8]) -> Option<u64>
    ensures read { IfSome result (λ n. IsNumber word.now n) }
    ensures only { (n : ℕ) → IsNumber word.now n → result ≡ Some n }
{
    match str::from_utf8(word) {
        Ok(text) => number_in(text),
        Err(_fault) => None,
    }
}

/// Whether a word is the decimal text of a number of 64 bits.
pub fn is_number(word: &[u8]) -> bool
    ensures { IsTrue result ↔ (n : ℕ) × IsNumber word.now n }
{
    number_of(word).is_some()
}

/// The number up to `high` whose decimal text the word is; None exactly where there is none.
pub fn natural_of(word: &[u8], high: u32) -> Option<u32>
    ensures read { IfSome result (λ n. IsNatural word.now high n) }
    ensures only { (n : ℕ) → IsNatural word.now high n → result ≡ Some n }
{
    let number = number_of(word)?;
    if number <= u64::from(high) {
        Some(number as u32)
    } else {
        None
    }
}

/// The number of 32 bits with a sign whose decimal text this is; None exactly where there is none.
fn signed_in(text: &str) -> Option<i32>
    ensures read { IfSome result (λ z. IsSigned text.now z) }
    ensures only { (z : ℤ) → IsSigned text.now z → result ≡ Some z }
{
    let number = text.parse::<i32>().ok()?;
    let mut buffer = Buffer::new();
    if buffer.format(number) == text {
        Some(number)
    } else {
        None
    }
}

/// The number of 32 bits with a sign whose decimal text the word is; None exactly where there is none.
pub fn signed_of(word: &[u8]) -> Option<i32>
    ensures read { IfSome result (λ z. IsSigned word.now z) }
    ensures only { (z : ℤ) → IsSigned word.now z → result ≡ Some z }
{
    match str::from_utf8(word) {
        Ok(text) => signed_in(text),
        Err(_fault) => None,
    }
}
