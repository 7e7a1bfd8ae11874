//! The byte order of paths.

ghost use Rattle.std.specs.Prelude.{◌≡◌, false, IsTrue, Option, option_map};
ghost use Rattle.cc_base.specs.Paths.{Before};
ghost use Rattle.cc_model.specs.Listing.{Above, NotAbove, PassedOver, Reached};

use cc_model::base::{Outcome, PathText};
use search_base::{begins, byte};

/// Whether a path is below another.
pub(crate) fn is_before(a: &[Outcome], b: &[Outcome]) -> bool
    ensures yes { IsTrue result → Before a.now b.now }
    ensures no { result ≡ false → Before a.now b.now → ⊥ }
{
    for i in 0..b.len() {
        if i >= a.len() {
            return true;
        }
        let left = byte(a[i]);
        let right = byte(b[i]);
        if left < right {
            return true;
        }
        if right < left {
            return false;
        }
    }
    false
}

/// Whether a path is above the one after which a listing goes on.
pub(crate) fn is_above(after: Option<&PathText>, path: &[Outcome]) -> bool
    ensures above { IsTrue result → Above (option_map (λ r. r.now) after.entry) path.now }
    ensures not_above { result ≡ false → NotAbove (option_map (λ r. r.now) after.entry) path.now }
{
    match after {
        None => true,
        Some(a) => is_before(a.as_slice(), path),
    }
}

/// Whether a prefix is passed over: it is below the path after which a listing goes on, and that doesn't begin with it.
pub(crate) fn is_passed(after: Option<&PathText>, prefix: &[Outcome]) -> bool
    ensures passed { IsTrue result → PassedOver (option_map (λ r. r.now) after.entry) prefix.now }
    ensures reached { result ≡ false → Reached (option_map (λ r. r.now) after.entry) prefix.now }
{
    match after {
        None => false,
        Some(a) => is_before(prefix, a.as_slice()) && !begins(a.as_slice(), prefix),
    }
}
