//! Multiples of places, of which forms and inequalities are made.

/// A multiple of a place, by the place's number.
#[derive(Clone, Copy, Debug, PartialEq, Eq)]
pub struct Multiple {
    pub place: u32,
    pub coefficient: i128,
}
