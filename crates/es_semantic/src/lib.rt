//! The scope table of a program, built from its tree, and the marks that it gives the tree.
#![tactic(auto)]

pub mod building;
mod declaring;
mod field_places;
pub mod laws;
mod marks;
pub mod place;
mod places;
mod referring;
mod role_in;
mod scopes_added;
mod scopes_for;
mod symbols_added;
