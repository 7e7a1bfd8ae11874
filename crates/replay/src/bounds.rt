//! The first line of a tests file.

ghost use Rattle.std.specs.Prelude.{◌≡◌, ◌↔◌, IsTrue, IfSome, Some, List, ℕ};
ghost use Rattle.cc_base.specs.Limits.{Limits};
ghost use Rattle.replay.specs.Lines.{IsBounds};
ghost use Rattle.replay.specs.Behind.{IsNamed, Stands, StandBehind, AreValues, AreNumbers, HasSome};

use cc_model::base::Bounds;
use report_words::{Parts, cut_first, cut_last, natural_of, signed_of};

/// Whether a word is this text.
pub(crate) fn is_text(word: &[u8], text: &[u8]) -> bool
    ensures { IsTrue result ↔ word.now ≡ text.now }
{
    word == text
}

/// The value of a word NAME=VALUE; a value has no `=`.
pub(crate) fn value_of<'a>(word: &'a [u8], name: &[u8]) -> Option<&'a [u8]>
    ensures read { IfSome result (λ v. IsNamed word.now name.now v.now) }
    ensures only { (value : List ℕ) → IsNamed word.now name.now value → HasSome result (λ v. v.now ≡ value) }
{
    let parts = cut_last(word, b'=')?;
    if parts.before == name {
        Some(parts.behind)
    } else {
        None
    }
}

/// The value of a first word NAME=VALUE, and what stands behind the blank behind it.
fn next_value<'a>(text: &'a [u8], name: &[u8]) -> Option<Parts<'a>>
    ensures read { IfSome result (λ p. Stands text.now name.now p.before.now p.behind.now) }
    ensures only { (value rest : List ℕ) → Stands text.now name.now value rest
        → HasSome result (λ p. (p.before.now ≡ value) × (p.behind.now ≡ rest)) }
{
    let parts = cut_first(text, b' ')?;
    let value = value_of(parts.before, name)?;
    Some(Parts {
        before: value,
        behind: parts.behind,
    })
}

/// The values of the line of bounds.
#[derive(Clone, Copy)]
struct Values<'a> {
    lo: &'a [u8],
    hi: &'a [u8],
    depth: &'a [u8],
    objects: &'a [u8],
    steps: &'a [u8],
}

/// The values behind the first word of a line of bounds; None where they have another form.
fn values_behind(rest: &[u8]) -> Option<Values<'_>>
    ensures read { IfSome result (λ v. StandBehind rest.now v.lo.now v.hi.now v.depth.now v.objects.now v.steps.now) }
    ensures only { (lo hi depth objects steps : List ℕ) → StandBehind rest.now lo hi depth objects steps
        → HasSome result (λ v. (v.lo.now ≡ lo) × (v.hi.now ≡ hi) × (v.depth.now ≡ depth) × (v.objects.now ≡ objects)
        × (v.steps.now ≡ steps)) }
{
    let lo = next_value(rest, b"min")?;
    let hi = next_value(lo.behind, b"max")?;
    let depth = next_value(hi.behind, b"depth")?;
    let objects = next_value(depth.behind, b"objects")?;
    let steps = value_of(objects.behind, b"steps")?;
    Some(Values {
        lo: lo.before,
        hi: hi.before,
        depth: depth.before,
        objects: objects.before,
        steps,
    })
}

/// The values of a line of bounds; None where it has another form.
fn values_of(line: &[u8]) -> Option<Values<'_>>
    ensures read { IfSome result (λ v. AreValues line.now v.lo.now v.hi.now v.depth.now v.objects.now v.steps.now) }
    ensures only { (lo hi depth objects steps : List ℕ) → AreValues line.now lo hi depth objects steps
        → HasSome result (λ v. (v.lo.now ≡ lo) × (v.hi.now ≡ hi) × (v.depth.now ≡ depth) × (v.objects.now ≡ objects)
        × (v.steps.now ≡ steps)) }
{
    let first = cut_first(line, b' ')?;
    if is_text(first.before, b"bounds") {
        values_behind(first.behind)
    } else {
        None
    }
}

/// The bounds of these values; None exactly where a value is no number, or outside its range.
fn bounds_in(values: &Values<'_>) -> Option<Bounds>
    ensures read { IfSome result (λ b. AreNumbers (values.now).lo.now (values.now).hi.now (values.now).depth.now
        (values.now).objects.now (values.now).steps.now b) }
    ensures only { (b : Limits) → AreNumbers (values.now).lo.now (values.now).hi.now (values.now).depth.now
        (values.now).objects.now (values.now).steps.now b → result ≡ Some b }
{
    let lo = signed_of(values.lo)?;
    let hi = signed_of(values.hi)?;
    let depth = natural_of(values.depth, 1024)?;
    let objects = natural_of(values.objects, 25)?;
    let steps = natural_of(values.steps, 1_000_000)?;
    Bounds::new(lo, hi, depth, objects as u8, steps)
}

/// The bounds whose line this is; None exactly where there are none, or a number is outside its range.
pub(crate) fn bounds_of(line: &[u8]) -> Option<Bounds>
    ensures read { IfSome result (λ b. IsBounds line.now b) }
    ensures only { (b : Limits) → IsBounds line.now b → result ≡ Some b }
{
    let values = values_of(line)?;
    bounds_in(&values)
}
