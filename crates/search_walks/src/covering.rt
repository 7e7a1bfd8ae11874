//! The outcomes of decisions that runs took.

ghost use Rattle.std.specs.Prelude.{◌≡◌, ◌<◌, ◌*◌, length};
ghost use Rattle.search_walks.specs.Distance.{entry, IsDecisionSite};
ghost use Rattle.search_base.specs.Terms.{token_in};
ghost use Rattle.search_walks.specs.Covering.{Marks, IsAmong, IsTakenAt, IsTakenUpTo};

use crate::candidates::{is_decision, is_decision_site};
use cc_model::Checked;
use cc_model::base::Outcome;
use search_base::{either, token_at, token_of};
use sym_run::Event;

/// Covers an outcome; whether it wasn't covered.
fn mark(covered: &mut Vec<bool>, at: usize) -> bool
    ensures { Marks covered.old.items covered.new.items (λ a. a ≡ at) result }
{
    if at < covered.len() && !covered[at] {
        covered[at] = true;
        return true;
    }
    false
}

/// Covers the outcome of a site, where it is a decision site of the token; whether it wasn't covered.
fn mark_site(
    covered: &mut Vec<bool>,
    checked: &Checked,
    token: u32,
    site: usize,
    side: bool,
) -> bool
    requires { length covered.old.items ≡ 2 * length (checked.now).sites }
    ensures { Marks covered.old.items covered.new.items
        (λ a. IsDecisionSite checked.now site × (token_in (checked.now).sites site ≡ token)
        × (a ≡ entry site side)) result }
{
    if is_decision_site(checked, site) && token_of(checked, site) == token {
        let first = 2 * site;
        return mark(covered, if side { first + 1 } else { first });
    }
    false
}

/// Covers the outcome of the decision sites of a token; whether one of them wasn't covered.
fn mark_sites(covered: &mut Vec<bool>, checked: &Checked, token: u32, side: bool) -> bool
    requires { length covered.old.items ≡ 2 * length (checked.now).sites }
    ensures { Marks covered.old.items covered.new.items
        (IsAmong checked.now token side (length (checked.now).sites)) result }
{
    let mut is_new = false;
    for site in 0..checked.sites.len() {
        is_new = either(mark_site(covered, checked, token, site, side), is_new);
    }
    is_new
}

/// Covers the outcome that an event took, where it is that of a decision; whether it wasn't covered.
fn mark_event(covered: &mut Vec<bool>, checked: &Checked, event: &Event) -> bool
    requires { length covered.old.items ≡ 2 * length (checked.now).sites }
    ensures { Marks covered.old.items covered.new.items (IsTakenAt checked.now event.now) result }
{
    if !is_decision(checked, event.site) {
        return false;
    }
    let token = token_at(checked, event.site);
    match event.taken.outcome {
        Outcome::False => mark_sites(covered, checked, token, false),
        Outcome::True => mark_sites(covered, checked, token, true),
        _ => false,
    }
}

/// Covers the outcomes that events took; whether one of them wasn't covered.
pub(crate) fn mark_events(covered: &mut Vec<bool>, checked: &Checked, events: &[Event]) -> bool
    requires { length covered.old.items ≡ 2 * length (checked.now).sites }
    ensures { Marks covered.old.items covered.new.items
        (IsTakenUpTo checked.now events.now (length events.now)) result }
{
    let mut is_new = false;
    for event in events {
        is_new = either(mark_event(covered, checked, event), is_new);
    }
    is_new
}
