//! Linear atoms, and the inequalities that they stand for.

ghost use Rattle.std.specs.Prelude.{◌≡◌, ◌≤◌, ◌+◌, ◌^◌, unsigned_abs, IfOk};
ghost use Rattle.cc_base.specs.Need.{at_most, at_least};
ghost use Rattle.linear_solver.specs.Atoms.{seen_form, FitForm};
ghost use Rattle.linear_solver.specs.Seen.{seen};

use crate::inequalities::Inequality;
use crate::merging::push_multiples;
use cc_base::Multiple;
use std::alloc::{AllocError, Global};

/// What is asked of a form.
#[derive(Clone, Copy)]
pub enum Sign {
    /// It is at most 0.
    AtMostZero,
    /// It is 0.
    Zero,
    /// It is not 0.
    NotZero,
}

/// What is asked of a constant plus multiples of places.
#[derive(Drop)]
pub struct LinearAtom {
    pub sign: Sign,
    /// The multiples, ascending by place.
    pub terms: Vec<Multiple>,
    pub constant: i128,
}

/// The form is at most `n`, which is 0 or -1.
pub fn at_most_of(alloc: Global, a: &LinearAtom, n: i128) -> Result<Inequality, AllocError>
    requires fit { FitForm (seen_form a.now) }
    requires small { unsigned_abs n ≤ 1 }
    ensures { IfOk result (λ r. seen r ≡ at_most (seen_form a.now) n) }
{
    let terms = a.terms.as_slice().to_vec(alloc)?;
    Ok(Inequality {
        terms,
        most: n - a.constant,
    })
}

/// The form is at least `n`, which is 0 or 1.
pub fn at_least_of(alloc: Global, a: &LinearAtom, n: i128) -> Result<Inequality, AllocError>
    requires fit { FitForm (seen_form a.now) }
    requires small { unsigned_abs n ≤ 1 }
    ensures { IfOk result (λ r. seen r ≡ at_least (seen_form a.now) n) }
{
    let mut terms = Vec::new(alloc);
    push_multiples(&mut terms, -1, &a.terms)?;
    Ok(Inequality {
        terms,
        most: a.constant - n,
    })
}
