//! Ends, read from their texts.

ghost use Rattle.std.specs.Prelude.{◌≡◌, ◌⊎◌, IfSome, Some};
ghost use Rattle.cc_base.specs.declared.ends.End.{End as Seen};
ghost use Rattle.cc_base.specs.declared.ends.FaultKind.{FaultKind as Kind};
ghost use Rattle.cc_base.specs.Ends.{fault_text, end_text};
ghost use Rattle.report_words.specs.Words.{IsEnd};
ghost use Rattle.report_words.specs.Faults.{HasFault, FaultAt};

use crate::cuts::cut_first;
use crate::numbers::natural_of;
use cc_base::{End, FaultKind};

/// The fault of a word; None exactly where there is none.
fn fault_of(word: &[u8]) -> Option<FaultKind>
    ensures read { IfSome result (λ k. word.now ≡ fault_text k) }
    ensures only { (k : Kind) → word.now ≡ fault_text k → result ≡ Some k }
{
    match word {
        b"overflow" => Some(FaultKind::Overflow),
        b"null" => Some(FaultKind::Null),
        b"divide" => Some(FaultKind::Divide),
        b"index" => Some(FaultKind::Index),
        b"assert" => Some(FaultKind::Assert),
        b"abort" => Some(FaultKind::Abort),
        _ => None,
    }
}

/// The end of a word without a line; None exactly where there is none.
fn plain_end_of(word: &[u8]) -> Option<End>
    ensures read { IfSome result (λ e. IsEnd word.now e) }
    ensures only { (e : Seen) → word.now ≡ end_text e → (result ≡ Some e) ⊎ HasFault e }
{
    match word {
        b"return" => Some(End::Return),
        b"assume" => Some(End::Assume),
        b"cut" => Some(End::Cut),
        b"objects" => Some(End::Objects),
        b"steps" => Some(End::Steps),
        _ => None,
    }
}

/// The fault of a word and its line; None exactly where there is none.
fn fault_at(word: &[u8], line: &[u8]) -> Option<End>
    ensures read { IfSome result (λ e. FaultAt word.now line.now e) }
    ensures only { (e : Seen) → FaultAt word.now line.now e → result ≡ Some e }
{
    let kind = fault_of(word)?;
    let number = natural_of(line, u32::MAX)?;
    Some(End::Fault(kind, number))
}

/// The end whose text the word is; None exactly where there is none. A line has at most 32 bits.
pub fn end_of(word: &[u8]) -> Option<End>
    ensures read { IfSome result (λ e. IsEnd word.now e) }
    ensures only { (e : Seen) → IsEnd word.now e → result ≡ Some e }
{
    match cut_first(word, b'@') {
        Some(parts) => fault_at(parts.before, parts.behind),
        None => plain_end_of(word),
    }
}
