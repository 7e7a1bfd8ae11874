//! Divisors and floors.

ghost use Rattle.std.specs.Prelude.{◌≡◌, pos, ◌<ℤ◌, unsigned_abs};
ghost use Rattle.cc_base.specs.Inequality.{gcd, floor};

/// The greatest common divisor.
pub fn gcd_of(a: u128, b: u128) -> u128
    ensures { result ≡ gcd a b }
{
    if b == 0 { a } else { gcd_of(b, a % b) }
}

/// The floor of `z / g`.
pub fn floor_of(z: i128, g: i128) -> i128
    requires { pos 0 <ℤ g }
    ensures { result ≡ floor z (unsigned_abs g) }
{
    z.div_euclid(g)
}
