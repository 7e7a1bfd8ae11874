//! Inputs as they are written: map texts and the texts of tests, the base input, and inputs that are built.
#![tactic(auto)]

mod base;
mod building;
mod checking;
mod faults;
mod maps;
mod params;
mod reading;
mod test_texts;
mod writing;

pub use base::base_input;
pub use building::{Assignment, build};
pub use faults::{MapFault, TestFault};
pub use maps::{an_input_has_a_map_text, read_map};
pub use params::{layout, param_cells};
pub use test_texts::read_test;
pub use writing::{write_map, write_test};
