//! Sums of multiples of terms.

ghost use Rattle.std.specs.Prelude.{◌≡◌, ◌≤◌, ◌<◌, ◌^◌, ◌++◌, ◌+ℤ◌, ◌*ℤ◌, unsigned_abs, All, IfOk, OnOk};
ghost use Rattle.cc_base.specs.Inequality.{merge, scaled, scaled_term};

use cc_base::Multiple;
use std::alloc::{AllocError, Global};

/// A product within 128 bits.
pub fn product(c: i128, k: i128) -> i128
    requires factor { unsigned_abs c ≤ 2 ^ 44 }
    requires number { unsigned_abs k ≤ 2 ^ 80 }
    ensures value { result ≡ c *ℤ k }
    ensures bound { unsigned_abs result ≤ 2 ^ 124 }
{
    c * k
}

fn multiple(c: i128, t: Multiple) -> Multiple
    requires factor { unsigned_abs c ≤ 2 ^ 44 }
    requires narrow { unsigned_abs t.coefficient ≤ 2 ^ 44 }
    ensures { result ≡ scaled_term c t }
{
    Multiple {
        place: t.place,
        coefficient: product(c, t.coefficient),
    }
}

/// Appends `c` times the terms `p`.
pub fn push_multiples(out: &mut Vec<Multiple>, c: i128, p: &[Multiple]) -> Result<(), AllocError>
    requires factor { unsigned_abs c ≤ 2 ^ 44 }
    requires narrow { All (λ t. unsigned_abs t.coefficient ≤ 2 ^ 44) p.now }
    ensures { OnOk result (out.new.items ≡ out.old.items ++ scaled c p.now) }
{
    for t in p {
        out.push(multiple(c, *t))?;
    }
    Ok(())
}

/// `c` times the terms `p` and `a` times the terms `q`, in one list.
pub fn merge_of(
    alloc: Global,
    c: i128,
    p: &[Multiple],
    a: i128,
    q: &[Multiple],
) -> Result<Vec<Multiple>, AllocError>
    requires left_factor { unsigned_abs c ≤ 2 ^ 44 }
    requires right_factor { unsigned_abs a ≤ 2 ^ 44 }
    requires left { All (λ t. unsigned_abs t.coefficient ≤ 2 ^ 44) p.now }
    requires right { All (λ t. unsigned_abs t.coefficient ≤ 2 ^ 44) q.now }
    ensures { IfOk result (λ r. r.items ≡ merge (scaled c p.now) (scaled a q.now)) }
{
    let mut out = Vec::new(alloc);
    let mut i = 0;
    let mut j = 0;
    'terms: while i < p.len() {
        if j >= q.len() {
            break;
        }
        if p[i].place < q[j].place {
            out.push(multiple(c, p[i]))?;
            i += 1;
        } else if q[j].place < p[i].place {
            out.push(multiple(a, q[j]))?;
            j += 1;
        } else {
            let sum = product(c, p[i].coefficient) + product(a, q[j].coefficient);
            if sum != 0 {
                out.push(Multiple {
                    place: p[i].place,
                    coefficient: sum,
                })?;
            }
            i += 1;
            j += 1;
        }
    }
    push_multiples(&mut out, c, &p[i..])?;
    push_multiples(&mut out, a, &q[j..])?;
    Ok(out)
}
