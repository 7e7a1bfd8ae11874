//! The rules: what is said of a program's declarations, statements and expressions.
#![tactic(auto)]

mod agreement;
mod bodies;
mod body_parts;
mod calls;
mod declarators;
mod functions;
mod globals;
pub mod items;
mod judge;
pub mod locals;
mod made;
mod members;
mod prototypes;
mod rules;
mod shapes;
mod sources;
mod statements;
mod structs;
mod view;
