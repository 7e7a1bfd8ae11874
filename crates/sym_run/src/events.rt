//! Events, as the machine meets them.

ghost use Rattle.std.specs.Prelude.{◌≡◌, ◌≢◌, ◌++◌, ◌∷◌, [], ℕ, List, Option, Some, None, Bool, true, false, suc, pos};
ghost use Rattle.std.specs.Prelude.{length, IfOk, OnOk};
ghost use Rattle.std.specs.Option.{option_map};
ghost use Rattle.cc_model.specs.declared.checked.Checked.{Checked as PlainChecked};
ghost use Rattle.cc_model.specs.CheckedProgram.{core_of};
ghost use Rattle.cc_model.specs.Meaning.{Entry, is_true};
ghost use Rattle.cc_model.specs.Traced as traced;
ghost use Rattle.tac_lower.specs.Seen.{site_token};
ghost use Rattle.sym_run.specs.Asks.{asked_of};
ghost use Rattle.sym_run.specs.Acting.{given_if, bit, Settled, DecidedAt};
ghost use Rattle.sym_run.specs.Stands.{IsSite, IsJournal, setting};

use crate::acted::Acted;
use crate::asked::Asked;
use crate::machine::{Fixed, Machine};
use crate::number_acts::Decided;
use cc_model::base::{End, FaultKind, NoMemory, Outcome};
use cc_model::{SiteId, SiteKind};
use checked_memory::{Cell, Value};
use std::alloc::Global;

/// A site, what happens there, and the fault of an outcome that isn't plain.
#[derive(Clone, Copy)]
pub(crate) struct Spot {
    pub(crate) site: SiteId,
    pub(crate) kind: SiteKind,
    pub(crate) fault: FaultKind,
}

/// Whether kinds are the same.
fn same_kind(a: SiteKind, b: SiteKind) -> bool
    ensures { result ≡ true → a ≡ b }
{
    a == b
}

/// Whether an outcome is plain.
fn is_plain(outcome: Outcome) -> bool
    ensures yes { result ≡ true → outcome ≡ Outcome.Plain }
    ensures no { result ≡ false → outcome ≢ Outcome.Plain }
{
    match outcome {
        Outcome::Plain => true,
        Outcome::Zero => false,
        Outcome::High => false,
        Outcome::Low => false,
        Outcome::False => false,
        Outcome::True => false,
        Outcome::Object(_) => false,
    }
}

/// 1 for true, and else 0.
#[tactic(auto, unfolding(cc_model::specs::Meaning::is_true))]
fn bit_of(outcome: Outcome) -> Cell
    ensures { result ≡ record { value = Value.Int (bit (is_true outcome)); shadow = 0 } }
{
    let number = match outcome {
        Outcome::True => 1,
        Outcome::Plain => 0,
        Outcome::Zero => 0,
        Outcome::High => 0,
        Outcome::Low => 0,
        Outcome::False => 0,
        Outcome::Object(_) => 0,
    };
    Cell {
        value: Value::Int(number),
        shadow: 0,
    }
}

impl Fixed<'_> {
    /// The token of a site. No memory, too, where the list has no such site of the kind.
    pub(crate) fn token(&self, site: SiteId, kind: SiteKind) -> Result<u32, NoMemory>
        ensures token { IfOk result (λ t. t ≡ site_token self.now.checked.now kind site) }
        ensures site { IfOk result (λ t. IsSite self.now.checked.now site kind t) }
    {
        match self.checked.sites.get(site.0 as usize).copied() {
            None => Err(NoMemory),
            Some(found) => {
                if !same_kind(found.kind, kind) {
                    return Err(NoMemory);
                }
                Ok(found.token)
            }
        }
    }

    /// The line of a token.
    pub(crate) fn line(&self, token: u32) -> u32
        ensures { result ≡ (core_of self.now.checked.now).line token }
    {
        match self.checked.lines.get(token as usize).copied() {
            Some(line) => line,
            None => 0,
        }
    }
}

impl Machine {
    /// Records an event at a site. No memory, too, where none is left.
    pub(crate) fn happen(
        &mut self,
        alloc: Global,
        site: SiteId,
        outcome: Outcome,
        asked: Asked,
        places: u32,
    ) -> Result<(), NoMemory>
        ensures left { OnOk result (self.old.events_left ≡ suc self.new.events_left) }
        ensures kept { OnOk result (self.new
            ≡ record self.old { events_left = self.new.events_left; journal = self.new.journal }) }
        ensures journal { OnOk result ((c : PlainChecked) (l : List (Entry traced.Event)) (a : Entry traced.Event)
            → IsSite c site a.kind a.token → (a.event).outcome ≡ outcome → (a.event).asked ≡ asked_of asked
            → length (a.event).places ≡ places
            → IsJournal c l self.old.journal → IsJournal c (l ++ a ∷ []) self.new.journal) }
    {
        if self.events_left == 0 {
            return Err(NoMemory);
        }
        self.events_left -= 1;
        self.journal.add(alloc, site, outcome, asked, places)?;
        Ok(())
    }

    /// Goes on to the next instruction, with a cell for a temporary if there is one.
    pub(crate) fn give_if(&mut self, dst: Option<u32>, cell: Cell) -> Result<(), NoMemory>
        ensures { OnOk result (self.new ≡ given_if self.old dst cell) }
    {
        match dst {
            Some(dst) => self.give(dst, cell),
            None => self.advance(),
        }
    }

    /// Records an event, and goes on where its outcome is plain.
    pub(crate) fn settle(
        &mut self,
        fixed: &Fixed<'_>,
        spot: Spot,
        dst: Option<u32>,
        acted: Acted,
    ) -> Result<Option<End>, NoMemory>
        ensures { IfOk result (λ end. Settled
            (setting fixed.now.checked.now fixed.now.tac.now fixed.now.bounds.now fixed.now.input.now) self.old
            self.new spot.kind spot.fault (site_token fixed.now.checked.now spot.kind spot.site) dst acted.outcome
            acted.asked acted.cell end) }
    {
        if self.events_left == 0 {
            return Ok(Some(End::Cut));
        }
        let Acted {
            outcome,
            asked,
            cell,
        } = acted;
        let token = fixed.token(spot.site, spot.kind)?;
        let places = self.objects.places.len();
        self.happen(fixed.alloc, spot.site, outcome, asked, places)?;
        if !is_plain(outcome) {
            return Ok(Some(End::Fault(spot.fault, fixed.line(token))));
        }
        self.give_if(dst, cell)?;
        Ok(None)
    }

    /// Records a decision, and puts 1 or 0 into a temporary.
    pub(crate) fn decide(
        &mut self,
        fixed: &Fixed<'_>,
        site: SiteId,
        dst: u32,
        decided: Decided,
    ) -> Result<Option<End>, NoMemory>
        ensures { IfOk result (λ end. DecidedAt
            (setting fixed.now.checked.now fixed.now.tac.now fixed.now.bounds.now fixed.now.input.now) self.old
            self.new (site_token fixed.now.checked.now SiteKind.Decision site) dst decided.outcome decided.asked end) }
    {
        if self.events_left == 0 {
            return Ok(Some(End::Cut));
        }
        let Decided { outcome, asked } = decided;
        let _ = fixed.token(site, SiteKind::Decision)?;
        let places = self.objects.places.len();
        self.happen(fixed.alloc, site, outcome, asked, places)?;
        self.give(dst, bit_of(outcome))?;
        Ok(None)
    }
}
