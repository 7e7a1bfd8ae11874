//! The choices of the disequalities.

ghost use Rattle.std.specs.Prelude.{◌≡◌, ◌≤◌, ◌<◌, ◌+◌, ◌^◌, IfOk, List, [], drop};
ghost use Rattle.cc_base.specs.Need.{one_choice, by_dark, tried, disequalities};
ghost use Rattle.cc_base.specs.Pass.{pass};
ghost use Rattle.cc_base.specs.declared.passes.Mode.TheVariants.{Dark};
ghost use Rattle.linear_solver.specs.Atoms.{seen_atoms, FitAll};
ghost use Rattle.linear_solver.specs.Bounded.{Bounded, BoundedWith};
ghost use Rattle.linear_solver.specs.Counts.{tried_count, seen_tried, FoundMeets, Keeps, opened};
ghost use Rattle.linear_solver.specs.Ordered.{SafeAll};
ghost use Rattle.linear_solver.specs.Seen.{seen_all};

use crate::atoms::{LinearAtom, Sign, at_least_of, at_most_of};
use crate::inequalities::{Inequality, copy_all, with_first};
use crate::pass::{Counted, pass_of};
use crate::restore::restore;
use cc_base::{Mode, PassEnd};
use std::alloc::{AllocError, Global};

/// What the choices showed, with what was spent.
#[derive(Drop)]
pub enum Tried {
    /// The budget would be passed.
    Beyond,
    /// There are values: these, by place.
    Found(u64, Vec<i32>),
    /// There are none.
    Closed(u64),
    /// Nothing is known.
    Undecided(u64),
}

/// The dark pass of a choice.
fn dark_choice(
    alloc: Global,
    n: usize,
    list: &[Inequality],
    used: u64,
    budget: u64,
) -> Result<Tried, AllocError>
    requires places { n < 2 ^ 62 }
    requires within { used ≤ budget }
    requires safe { SafeAll (seen_all list.now) }
    requires bounded { Bounded (seen_all list.now) }
    ensures count { IfOk result (λ r. seen_tried r
        ≡ tried_count used budget (by_dark 0 (pass Dark n (seen_all list.now)))) }
    ensures values { IfOk result (λ r. FoundMeets r (seen_all list.now) []) }
{
    match pass_of(alloc, Mode::Dark, n, copy_all(alloc, list)?, used, budget)? {
        Counted::Over => Ok(Tried::Beyond),
        Counted::Done(end, spent, trail) => match end {
            PassEnd::Full => {
                let values = restore(alloc, &trail)?;
                Ok(Tried::Found(spent, values))
            }
            PassEnd::Empty => {
                drop(trail);
                Ok(Tried::Undecided(spent))
            }
            PassEnd::Open => {
                drop(trail);
                Ok(Tried::Undecided(spent))
            }
        },
    }
}

/// One choice: a real pass, and a dark one unless that ends empty.
fn one_choice_of(
    alloc: Global,
    n: usize,
    list: &[Inequality],
    used: u64,
    budget: u64,
) -> Result<Tried, AllocError>
    requires places { n < 2 ^ 62 }
    requires within { used ≤ budget }
    requires safe { SafeAll (seen_all list.now) }
    requires bounded { Bounded (seen_all list.now) }
    ensures count { IfOk result (λ r. seen_tried r ≡ tried_count used budget (one_choice n (seen_all list.now))) }
    ensures values { IfOk result (λ r. FoundMeets r (seen_all list.now) []) }
{
    match pass_of(alloc, Mode::Real, n, copy_all(alloc, list)?, used, budget)? {
        Counted::Over => Ok(Tried::Beyond),
        Counted::Done(end, spent, trail) => {
            drop(trail);
            match end {
                PassEnd::Empty => Ok(Tried::Closed(spent)),
                PassEnd::Full => {
                    let dark = dark_choice(alloc, n, list, spent, budget)?;
                    Ok(dark)
                }
                PassEnd::Open => {
                    let dark = dark_choice(alloc, n, list, spent, budget)?;
                    Ok(dark)
                }
            }
        }
    }
}

/// What is known where a choice before stayed open.
fn unclosed(over: Tried) -> Tried
    ensures count { seen_tried result ≡ opened (seen_tried over) }
    ensures values { Keeps over result }
{
    match over {
        Tried::Beyond => Tried::Beyond,
        Tried::Found(spent, values) => Tried::Found(spent, values),
        Tried::Closed(spent) => Tried::Undecided(spent),
        Tried::Undecided(spent) => Tried::Undecided(spent),
    }
}

/// The choices of the disequalities from `from` on, each below 0 first.
pub fn tried_of(
    alloc: Global,
    n: usize,
    list: &[Inequality],
    atoms: &[LinearAtom],
    from: usize,
    used: u64,
    budget: u64,
) -> Result<Tried, AllocError>
    requires places { n < 2 ^ 62 }
    requires within { used ≤ budget }
    requires safe { SafeAll (seen_all list.now) }
    requires fit { FitAll (seen_atoms atoms.now) }
    requires bounded { BoundedWith (seen_atoms atoms.now) (seen_all list.now) }
    ensures count { IfOk result (λ r. seen_tried r
        ≡ tried_count used budget (tried n (seen_all list.now) (disequalities (seen_atoms (drop from atoms.now))))) }
    ensures values { IfOk result (λ r. FoundMeets r (seen_all list.now)
        (disequalities (seen_atoms (drop from atoms.now)))) }
{
    if from >= atoms.len() {
        let one = one_choice_of(alloc, n, list, used, budget)?;
        return Ok(one);
    }
    let a = &atoms[from];
    match a.sign {
        Sign::AtMostZero => {
            let rest = tried_of(alloc, n, list, atoms, from + 1, used, budget)?;
            Ok(rest)
        }
        Sign::Zero => {
            let rest = tried_of(alloc, n, list, atoms, from + 1, used, budget)?;
            Ok(rest)
        }
        Sign::NotZero => {
            let below = with_first(alloc, at_most_of(alloc, a, -1)?, list)?;
            match tried_of(alloc, n, &below, atoms, from + 1, used, budget)? {
                Tried::Beyond => Ok(Tried::Beyond),
                Tried::Found(spent, values) => Ok(Tried::Found(spent, values)),
                Tried::Closed(spent) => {
                    let above = with_first(alloc, at_least_of(alloc, a, 1)?, list)?;
                    let over = tried_of(alloc, n, &above, atoms, from + 1, spent, budget)?;
                    Ok(over)
                }
                Tried::Undecided(spent) => {
                    let above = with_first(alloc, at_least_of(alloc, a, 1)?, list)?;
                    let over = tried_of(alloc, n, &above, atoms, from + 1, spent, budget)?;
                    Ok(unclosed(over))
                }
            }
        }
    }
}
