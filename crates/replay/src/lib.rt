//! Tests files, and the replay of their tests.
#![tactic(auto)]

mod bounds;
mod faults;
mod forms;
mod line;
mod replayed;
mod tests_file;

pub use faults::TestsFault;
pub use replayed::{Replayed, replay_test};
pub use tests_file::{Tests, read_tests};
