//! The three walks over the runs of a tested function: random branch, uniform random, control-flow directed.
#![tactic(auto)]

mod branching;
mod candidates;
mod covering;
mod directed;
mod distance;
mod draws;
mod flow;
mod log;
mod passing;
mod returns;
mod rows;
mod runs;
mod task;
mod walks;

pub use distance::distances;
pub use log::WalkSummary;
pub use search_base::SearchFault;
pub use task::Task;
pub use walks::walk;
