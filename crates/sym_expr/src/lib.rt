//! Places of an input's values, linear forms over them, and atoms.
#![tactic(auto)]

pub mod atoms;
pub mod forms;
mod merging;
pub mod places;

pub use atoms::{Atom, PtrTerm};
pub use forms::{Form, FormTerm, Wide};
pub use places::{Place, PlaceId, Places};
