//! The words of the command line, and the one call that does all that the program does.
#![tactic(auto)]

mod after;
mod answers;
mod call;
mod lines;
mod listing;
mod making;
mod map_words;
mod performing;
mod prepared;
mod program;
mod refusal;
mod replaying;
mod report;
mod searching;
mod session;
mod tracing;
mod walking;

pub use answers::Status;
pub use call::concolic;
pub use search_dfs::listings_agree;
