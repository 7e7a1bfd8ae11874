//! What a search and a walk have in common: what is searched, the outcomes of an event, paths, terms in order, and
//! report lines.
#![tactic(auto)]

mod choices;
mod ends;
mod fault;
mod lines;
mod paths;
mod terms;

pub use choices::all_outcomes;
pub use ends::{either, is_fault, line_fits};
pub use fault::SearchFault;
pub use lines::{
    past_line, spent_line, stray_line, test_line, unrun_line, write_line, write_terms,
};
pub use paths::{begins, byte, prefix_of, same};
pub use terms::{FoundTerm, add_terms, narrow, token_at, token_of};
