//! A solver of linear atoms over bounded integers, exact within a budget of work.
#![tactic(auto)]

pub mod atoms;
pub mod box_search;
pub mod choice;
pub mod eliminate;
pub mod elimination;
pub mod group;
pub mod holding;
pub mod inequalities;
pub mod merging;
pub mod normalise;
pub mod numbers;
pub mod one_place;
pub mod parts;
pub mod pass;
pub mod places;
pub mod ready;
pub mod restore;
pub mod slack;
pub mod solve;
pub mod tidy;

pub use atoms::{LinearAtom, Sign};
pub use solve::{Solved, solve_linear};
