//! Inequalities, their copies and coefficients.

ghost use Rattle.std.specs.Prelude.{◌≡◌, IfOk, ◌∷◌};
ghost use Rattle.cc_base.specs.Inequality.{coefficient};
ghost use Rattle.linear_solver.specs.Ordered.{Ordered};
ghost use Rattle.linear_solver.specs.Seen.{seen, seen_all};

use cc_base::Multiple;
use std::alloc::{AllocError, Global};

/// The sum of the terms is at most a number.
#[derive(Drop)]
pub struct Inequality {
    /// The multiples of places, ascending by place.
    pub terms: Vec<Multiple>,
    /// The greatest value of their sum.
    pub most: i128,
}

/// A copy of an inequality.
pub fn copy_of(alloc: Global, i: &Inequality) -> Result<Inequality, AllocError>
    ensures { IfOk result (λ r. seen r ≡ seen i.now) }
{
    Ok(Inequality {
        terms: i.terms.as_slice().to_vec(alloc)?,
        most: i.most,
    })
}

/// A copy of a list.
pub fn copy_all(alloc: Global, list: &[Inequality]) -> Result<Vec<Inequality>, AllocError>
    ensures { IfOk result (λ r. seen_all r.items ≡ seen_all list.now) }
{
    let mut out = Vec::new(alloc);
    for i in list {
        out.push(copy_of(alloc, i)?)?;
    }
    Ok(out)
}

/// A list with one more inequality in front.
pub fn with_first(
    alloc: Global,
    first: Inequality,
    list: &[Inequality],
) -> Result<Vec<Inequality>, AllocError>
    ensures { IfOk result (λ r. seen_all r.items ≡ seen first ∷ seen_all list.now) }
{
    let mut out = Vec::new(alloc);
    out.push(first)?;
    for i in list {
        out.push(copy_of(alloc, i)?)?;
    }
    Ok(out)
}

/// The coefficient of a place, 0 where no term names it.
pub fn coefficient_of(place: u32, terms: &[Multiple]) -> i128
    requires { Ordered 0 terms.now }
    ensures { result ≡ coefficient place terms.now }
{
    for t in terms {
        if t.place == place {
            return t.coefficient;
        }
    }
    0
}
