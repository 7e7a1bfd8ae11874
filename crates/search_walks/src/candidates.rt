//! The alternatives that a walk may take.

ghost use Rattle.std.specs.Prelude.{◌≡◌, ◌++◌, ◌↔◌, ◌≤◌, length, IsTrue, IfOk, OnOk};
ghost use Rattle.search_walks.specs.Distance.{IsDecisionSite};
ghost use Rattle.search_walks.specs.Offers.{offers_at, offers_from};

use cc_model::base::{NoMemory, Outcome};
use cc_model::{Checked, SiteId, SiteKind};
use std::alloc::Global;
use sym_run::{Choice, Event};

/// An alternative of an event of a run.
#[derive(Clone, Copy)]
pub(crate) struct Candidate {
    /// The event's number, from 0.
    pub(crate) event: u32,
    pub(crate) site: SiteId,
    pub(crate) outcome: Outcome,
}

/// Adds the alternatives of an event.
fn add_all(
    all: &mut Vec<Candidate>,
    event: u32,
    site: SiteId,
    others: &[Choice],
) -> Result<(), NoMemory>
    ensures { OnOk result (all.new.items ≡ all.old.items ++ offers_at event site others.now) }
{
    for choice in others {
        all.push(Candidate {
            event,
            site,
            outcome: choice.outcome,
        })?;
    }
    Ok(())
}

/// All alternatives of a run, by event and then by outcome.
pub(crate) fn candidates(alloc: Global, events: &[Event]) -> Result<Vec<Candidate>, NoMemory>
    requires { length events.now ≤ 1024 }
    ensures { IfOk result (λ v. v.items ≡ offers_from 0 events.now) }
{
    let mut all = Vec::new(alloc);
    for (at, event) in events.iter().enumerate() {
        add_all(&mut all, at as u32, event.site, event.others.as_slice())?;
    }
    Ok(all)
}

/// Whether the site is that of a decision.
pub(crate) fn is_decision(checked: &Checked, site: SiteId) -> bool
    ensures { IsTrue result ↔ IsDecisionSite checked.now site.0 }
{
    is_decision_site(checked, site.0 as usize)
}

/// Whether the site with this number is that of a decision.
pub(crate) fn is_decision_site(checked: &Checked, site: usize) -> bool
    ensures { IsTrue result ↔ IsDecisionSite checked.now site }
{
    match checked.sites.get(site) {
        Some(site) => matches!(site.kind, SiteKind::Decision),
        None => false,
    }
}
