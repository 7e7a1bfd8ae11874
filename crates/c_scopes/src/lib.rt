//! What a file's declarations say: types and their sizes, names and scopes, what a file declares, where a statement
//! stands, and what was noted.
#![tactic(auto)]

pub mod before;
pub mod declared;
mod fields;
pub mod file;
pub mod file_names;
mod heads;
pub mod inside;
pub mod names;
pub mod noted;
pub mod sizes;
pub mod type_names;
pub mod types;
pub mod whole;

pub use file::file_of;
pub use file_names::FileNames;
pub use inside::Inside;
pub use noted::Said;
pub use type_names::TypeNames;
