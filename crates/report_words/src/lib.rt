//! The words of report lines, read: texts cut at a byte, numbers, paths and ends.
#![tactic(auto)]

mod cuts;
mod ends;
mod numbers;
mod paths;

pub use cuts::{Parts, cut_first, cut_last, lacks};
pub use ends::end_of;
pub use numbers::{is_number, natural_of, signed_of};
pub use paths::path_of;
