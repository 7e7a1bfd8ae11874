//! What an event asks of the input.

use crate::trace::Choice;
use cc_model::TermKind;
use cc_model::base::Items;

/// What an event asks: nothing; that one of these outcomes comes, ascending, each with its atoms; or it belongs to a
/// term.
#[derive(Drop)]
pub enum Asked {
    Nothing,
    OneOf(Items<Choice>),
    Term(TermKind),
}
