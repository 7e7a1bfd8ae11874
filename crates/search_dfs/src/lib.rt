//! The depth-first search of the paths of a tested function.
#![tactic(auto)]

mod laws;
mod listed;
mod open;
mod order;
mod runs;
mod search;
mod tally;
mod task;

pub use laws::listings_agree;
pub use search::{Summary, explore};
pub use search_base::SearchFault;
pub use task::Task;
