//! Lists of named things that are found by name without a walk over them: an index of first places stands behind each
//! list, and contracts see the list alone.
#![tactic(auto)]

pub mod name_index;
pub mod named;
mod places;
pub mod preceding;
pub mod tag_index;

pub use name_index::NameIndex;
pub use named::{HasName, Named};
pub use preceding::Preceding;
pub use tag_index::TagIndex;
