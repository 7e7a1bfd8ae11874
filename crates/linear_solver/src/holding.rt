//! Whether values meet atoms.

ghost use Rattle.std.specs.Prelude.{◌≡◌, ◌≤◌, ◌^◌, ◌↔◌, ◌*ℤ◌, ◌≤ℤ◌, pos, unsigned_abs, IsTrue};
ghost use Rattle.cc_base.specs.Groups.{value, Holds, HoldAll};
ghost use Rattle.linear_solver.specs.Atoms.{seen_form, seen_atom, seen_atoms, FitForm, FitAll};
ghost use Rattle.linear_solver.specs.Seen.{at_places};

use crate::atoms::{LinearAtom, Sign};
use crate::restore::value_at;
use cc_base::Multiple;

/// A term's value.
fn multiple_value(t: Multiple, values: &[i32]) -> i128
    requires { unsigned_abs t.coefficient ≤ 2 ^ 44 }
    ensures value { result ≡ t.coefficient *ℤ at_places values.now t.place }
    ensures bound { unsigned_abs result ≤ 2 ^ 75 }
{
    t.coefficient * value_at(values, t.place) as i128
}

/// The value of an atom's form.
fn form_value(a: &LinearAtom, values: &[i32]) -> i128
    requires { FitForm (seen_form a.now) }
    ensures { result ≡ value (at_places values.now) (seen_form a.now) }
{
    let mut sum = 0;
    for t in &a.terms {
        sum += multiple_value(*t, values);
    }
    a.constant + sum
}

fn is_at_most_zero(z: i128) -> bool
    ensures { IsTrue result ↔ (z ≤ℤ pos 0) }
{
    z <= 0
}

fn is_zero(z: i128) -> bool
    ensures { IsTrue result ↔ (z ≡ pos 0) }
{
    z == 0
}

/// Whether values meet an atom.
fn holds_at(a: &LinearAtom, values: &[i32]) -> bool
    requires { FitForm (seen_form a.now) }
    ensures { IsTrue result ↔ Holds (at_places values.now) (seen_atom a.now) }
{
    let z = form_value(a, values);
    match a.sign {
        Sign::AtMostZero => is_at_most_zero(z),
        Sign::Zero => is_zero(z),
        Sign::NotZero => !is_zero(z),
    }
}

/// Whether values meet all atoms.
pub fn hold_all(atoms: &[LinearAtom], values: &[i32]) -> bool
    requires { FitAll (seen_atoms atoms.now) }
    ensures { IsTrue result ↔ HoldAll (at_places values.now) (seen_atoms atoms.now) }
{
    for a in atoms {
        if !holds_at(a, values) {
            return false;
        }
    }
    true
}
