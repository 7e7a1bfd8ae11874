//! Paths and their first parts.

ghost use Rattle.std.specs.Prelude.{◌≡◌, ◌≤◌, length, false, IsTrue, IfOk, take};
ghost use Rattle.cc_base.specs.Outcomes.{byte_of};
ghost use Rattle.cc_base.specs.Paths.{BeginsWith, next};

use cc_model::base::{Items, NoMemory, Outcome, PathText};
use std::alloc::Global;

/// The byte of an outcome.
pub fn byte(outcome: Outcome) -> u32
    ensures { result ≡ byte_of outcome }
{
    match outcome {
        Outcome::Zero => 33,
        Outcome::High => 43,
        Outcome::Low => 45,
        Outcome::Plain => 46,
        Outcome::False => 70,
        Outcome::True => 84,
        Outcome::Object(rank) => 97 + u32::from(rank),
    }
}

/// Whether two outcomes are one.
pub fn same(a: Outcome, b: Outcome) -> bool
    ensures same { IsTrue result → a ≡ b }
    ensures other { result ≡ false → a ≡ b → ⊥ }
{
    a == b
}

/// Whether a path begins with a prefix.
pub fn begins(path: &[Outcome], prefix: &[Outcome]) -> bool
    ensures yes { IsTrue result → BeginsWith path.now prefix.now }
    ensures no { result ≡ false → BeginsWith path.now prefix.now → ⊥ }
{
    if path.len() < prefix.len() {
        return false;
    }
    for i in 0..prefix.len() {
        if !same(path[i], prefix[i]) {
            return false;
        }
    }
    true
}

/// The first k outcomes of a path, and one more.
pub fn prefix_of(
    alloc: Global,
    path: &[Outcome],
    k: u32,
    outcome: Outcome,
) -> Result<PathText, NoMemory>
    requires { k ≤ length path.now }
    ensures { IfOk result (λ v. v ≡ next (take k path.now) outcome) }
{
    let mut prefix = Items::new(alloc);
    for i in 0..k as usize {
        prefix.push(path[i])?;
    }
    prefix.push(outcome)?;
    Ok(prefix)
}
