//! What a run records of its events.

ghost use Rattle.std.specs.Prelude.{◌≡◌, ◌++◌, ◌∷◌, [], List, Option, Some, None, length, IfOk, OnOk};
ghost use Rattle.cc_model.specs.declared.checked.Checked.{Checked};
ghost use Rattle.cc_base.specs.Outcomes.{byte_of};
ghost use Rattle.cc_model.specs.Conditions.{atoms_of as atoms_among, without, same_outcome};
ghost use Rattle.cc_model.specs.Meaning.{Entry};
ghost use Rattle.cc_model.specs.Traced as traced;
ghost use Rattle.sym_expr.specs.AtomsSeen.{atoms_of};
ghost use Rattle.sym_run.specs.Asks.{asked_of, choice_of, choices_of};
ghost use Rattle.sym_run.specs.Journals.{atoms_or, or_length};
ghost use Rattle.sym_run.specs.Stands.{IsSite, IsJournal};

use crate::asked::Asked;
use crate::trace::{Choice, Event, Term};
use cc_model::base::{Items, NoMemory, Outcome};
use cc_model::{SiteId, TermKind};
use std::alloc::Global;
use sym_expr::Atom;

/// The events so far, the terms, one for each event of a term, and how many events came before the first of these.
#[derive(Drop)]
pub struct Journal {
    pub(crate) events: Items<Event>,
    pub(crate) terms: Items<Term>,
    pub(crate) clean: Option<u32>,
}

/// The outcome's byte in a path, also for a rank without a letter.
fn key(outcome: Outcome) -> u16
    ensures { result ≡ byte_of outcome }
{
    match outcome {
        Outcome::Zero => 33,
        Outcome::High => 43,
        Outcome::Low => 45,
        Outcome::Plain => 46,
        Outcome::False => 70,
        Outcome::True => 84,
        Outcome::Object(rank) => 97 + u16::from(rank),
    }
}

/// Whether outcomes are the same: they have one byte in a path.
#[tactic(auto, unfolding(cc_model::specs::Conditions::same_outcome))]
pub fn same_outcome(a: Outcome, b: Outcome) -> bool
    ensures { result ≡ same_outcome a b }
{
    key(a) == key(b)
}

/// The choices of an event without the one that came, and the atoms of that one.
#[derive(Drop)]
struct Parted {
    taken: Option<Items<Atom>>,
    others: Items<Choice>,
}

impl Parted {
    /// Puts the next choice to its part.
    fn put(&mut self, outcome: Outcome, choice: Choice) -> Result<(), NoMemory>
        ensures taken { OnOk result ((rest : List traced.Choice)
            → atoms_or self.new.taken (atoms_among outcome rest)
            ≡ atoms_or self.old.taken (atoms_among outcome (choice_of choice ∷ rest))) }
        ensures others { OnOk result ((rest : List traced.Choice)
            → choices_of self.new.others ++ without outcome rest
            ≡ choices_of self.old.others ++ without outcome (choice_of choice ∷ rest)) }
    {
        if !same_outcome(choice.outcome, outcome) {
            self.others.push(choice)?;
            return Ok(());
        }
        if self.taken.is_none() {
            self.taken = Some(choice.atoms);
        }
        Ok(())
    }
}

/// No choices.
fn nothing(alloc: Global) -> Parted
    ensures { result ≡ record { taken = None; others = [] } }
{
    Parted {
        taken: None,
        others: Items::new(alloc),
    }
}

/// The parts of an event's choices.
fn part(alloc: Global, outcome: Outcome, mut choices: Items<Choice>) -> Result<Parted, NoMemory>
    ensures taken { IfOk result (λ p. atoms_or p.taken [] ≡ atoms_among outcome (choices_of choices)) }
    ensures others { IfOk result (λ p. choices_of p.others ≡ without outcome (choices_of choices)) }
{
    let mut parts = nothing(alloc);
    while !choices.is_empty() {
        let choice = choices.remove(0);
        parts.put(outcome, choice)?;
    }
    Ok(parts)
}

/// An event that took an outcome.
fn event_of(alloc: Global, site: SiteId, outcome: Outcome, parts: Parted, places: u32) -> Event
    ensures site { result.site ≡ site }
    ensures outcome { (result.taken).outcome ≡ outcome }
    ensures atoms { atoms_of (result.taken).atoms ≡ atoms_or parts.taken [] }
    ensures others { result.others ≡ parts.others }
    ensures places { result.places ≡ places }
{
    let Parted { taken, others } = parts;
    let atoms = match taken {
        Some(atoms) => atoms,
        None => Items::new(alloc),
    };
    Event {
        site,
        taken: Choice { outcome, atoms },
        others,
        places,
    }
}

impl Journal {
    /// Puts an event last.
    fn push(&mut self, event: Event) -> Result<(), NoMemory>
        ensures { OnOk result (self.new ≡ record self.old { events = self.old.events ++ event ∷ [] }) }
    {
        self.events.push(event)?;
        Ok(())
    }

    /// Notes the term to which the next event belongs.
    fn note(&mut self, site: SiteId, kind: TermKind) -> Result<(), NoMemory>
        ensures { OnOk result (self.new ≡ record self.old {
          terms = self.old.terms
              ++ record { site = site; kind = kind } ∷ [];
          clean = or_length self.old.clean self.old.events;
        }) }
    {
        if self.clean.is_none() {
            if self.events.len() > u32::MAX as usize {
                return Err(NoMemory);
            }
            self.clean = Some(self.events.len() as u32);
        }
        self.terms.push(Term { site, kind })?;
        Ok(())
    }

    /// Records an event at a site: its outcome, what it asks, and how many places stood before it.
    pub(crate) fn add(
        &mut self,
        alloc: Global,
        site: SiteId,
        outcome: Outcome,
        asked: Asked,
        places: u32,
    ) -> Result<(), NoMemory>
        ensures { OnOk result ((c : Checked) (l : List (Entry traced.Event)) (a : Entry traced.Event)
            → IsSite c site a.kind a.token → (a.event).outcome ≡ outcome → (a.event).asked ≡ asked_of asked
            → length (a.event).places ≡ places
            → IsJournal c l self.old → IsJournal c (l ++ a ∷ []) self.new) }
    {
        let parts = match asked {
            Asked::Nothing => nothing(alloc),
            Asked::OneOf(choices) => part(alloc, outcome, choices)?,
            Asked::Term(kind) => {
                self.note(site, kind)?;
                nothing(alloc)
            }
        };
        self.push(event_of(alloc, site, outcome, parts, places))
    }
}
