//! What a run came to.

use cc_model::base::{End, Input, Items, Outcome};
use cc_model::{SiteId, TermKind};
use sym_expr::{Atom, Places};

/// An outcome, with the atoms that hold of exactly the inputs that take it.
#[derive(Drop)]
pub struct Choice {
    pub outcome: Outcome,
    pub atoms: Items<Atom>,
}

/// An event of a run: its site, the outcome that came with its atoms, the other outcomes that the input may lead to,
/// ascending, and how many places stood before it.
#[derive(Drop)]
pub struct Event {
    pub site: SiteId,
    pub taken: Choice,
    pub others: Items<Choice>,
    pub places: u32,
}

/// A site at which the run went on with the plain number of a value that hangs on the input.
#[derive(Clone, Copy)]
pub struct Term {
    pub site: SiteId,
    pub kind: TermKind,
}

/// A run on an input: its events, all places that it met, its end, how many events come before the first of a term, and
/// the terms, one for each event of a term.
#[derive(Drop)]
pub struct Trace {
    pub input: Input,
    pub events: Items<Event>,
    pub places: Places,
    pub end: End,
    pub clean_to: u32,
    pub terms: Items<Term>,
}
