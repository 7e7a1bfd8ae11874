//! A list made normal, and the place that goes next.

ghost use Rattle.std.specs.Prelude.{◌≡◌, IfOk};
ghost use Rattle.cc_base.specs.Pass.{ready, go_on, some_place};
ghost use Rattle.linear_solver.specs.Ordered.{SafeAll, NarrowAll};
ghost use Rattle.linear_solver.specs.Seen.{seen_all, seen_ready};

use crate::inequalities::Inequality;
use crate::slack::best_of;
use crate::tidy::{has_false, has_wide, tidy_of, with_terms_of};
use cc_base::{Multiple, PassEnd};
use std::alloc::{AllocError, Global};

/// What a pass finds in a list made normal.
#[derive(Drop)]
pub enum Ready {
    /// The pass ends.
    Ended(PassEnd),
    /// It goes on, with this place and these inequalities.
    Going(u32, Vec<Inequality>),
}

/// The place of the first term, 0 where there is none.
fn first_place(terms: &[Multiple]) -> u32
    ensures { result ≡ some_place terms.now }
{
    match terms.first() {
        Some(t) => t.place,
        None => 0,
    }
}

/// Goes on with a list in which each inequality has terms.
fn go_on_with(alloc: Global, list: Vec<Inequality>) -> Result<Ready, AllocError>
    requires { NarrowAll (seen_all list.items) }
    ensures { IfOk result (λ r. seen_ready r ≡ go_on (seen_all list.items)) }
{
    if list.is_empty() {
        drop(list);
        return Ok(Ready::Ended(PassEnd::Full));
    }
    let first = first_place(&list[0].terms);
    let place = best_of(alloc, first, &list)?;
    Ok(Ready::Going(place, list))
}

/// Makes a list normal, and chooses the place that goes next.
pub fn ready_of(alloc: Global, list: Vec<Inequality>) -> Result<Ready, AllocError>
    requires { SafeAll (seen_all list.items) }
    ensures { IfOk result (λ r. seen_ready r ≡ ready (seen_all list.items)) }
{
    let normal = tidy_of(alloc, list)?;
    if has_wide(&normal) {
        drop(normal);
        return Ok(Ready::Ended(PassEnd::Open));
    }
    if has_false(&normal) {
        drop(normal);
        return Ok(Ready::Ended(PassEnd::Empty));
    }
    let left = with_terms_of(alloc, normal)?;
    let ready = go_on_with(alloc, left)?;
    Ok(ready)
}
