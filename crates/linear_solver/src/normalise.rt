//! The normal form of an inequality.

ghost use Rattle.std.specs.Prelude.{◌≡◌, ◌<◌, ◌^◌, pos, ◌<ℤ◌, unsigned_abs, map, All};
ghost use Rattle.cc_base.specs.Inequality.{divisor, divided, normal};
ghost use Rattle.linear_solver.specs.Seen.{seen};

use crate::inequalities::Inequality;
use crate::numbers::{floor_of, gcd_of};
use cc_base::Multiple;

/// The greatest common divisor of the coefficients.
fn divisor_of(terms: &[Multiple]) -> u128
    ensures { result ≡ divisor terms.now }
{
    let mut g = 0u128;
    for t in terms {
        g = gcd_of(g, t.coefficient.unsigned_abs());
    }
    g
}

/// Divides each coefficient.
fn divide(terms: &mut [Multiple], g: i128)
    requires { pos 0 <ℤ g }
    ensures { terms.new ≡ map (divided (unsigned_abs g)) terms.old }
{
    for t in terms.iter_mut() {
        t.coefficient = floor_of(t.coefficient, g);
    }
}

/// Divides by the greatest common divisor, and rounds the bound down.
pub fn normalise(i: &mut Inequality)
    requires { All (λ t. unsigned_abs t.coefficient < 2 ^ 127) i.old.terms.items }
    ensures { seen i.new ≡ normal (seen i.old) }
{
    let g = divisor_of(&i.terms);
    if g > 0 {
        divide(&mut i.terms, g as i128);
        i.most = floor_of(i.most, g as i128);
    }
}
