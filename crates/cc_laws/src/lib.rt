//! The laws of runs: each is the contract of a function that does nothing.
#![tactic(auto)]

mod graphs;
mod paths;
mod programs;
mod tracing;

pub use graphs::{
    an_input_has_a_graph, an_input_runs_as_its_graph, one_list_of_cells, renaming_keeps_runs,
};
pub use paths::{no_path_begins_another, one_path_has_one_end};
pub use programs::a_checked_program_points_to_cells;
pub use tracing::{
    conditions_are_exact, forms_are_kept_where_narrow, outcomes_are_exhausted,
    same_outcomes_ask_alike, tracing_adds_nothing,
};
