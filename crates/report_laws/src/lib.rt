//! That a text is one report: each law is the contract of a function that does nothing.
#![tactic(auto)]

mod kinds;
mod listings;
mod traces;
mod walks;

pub use kinds::{no_report_begins_another, reports_of_three_kinds_differ};
pub use listings::{a_readable_listing_has_words, a_report_is_of_one_listing};
pub use traces::a_trace_is_of_one_run;
pub use walks::{a_readable_walk_has_words, a_walk_report_is_of_one_walk};
