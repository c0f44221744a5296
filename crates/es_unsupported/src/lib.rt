//! The shapes that a run doesn't take, in programs of every kind.
#![tactic(auto)]

pub mod arrow_places;
mod arrow_shapes;
mod early_super;
mod edges;
pub mod finding;
pub mod laws;
mod names;
pub mod node_places;
pub mod pattern_places;
mod scopes;
mod shapes;
mod spread_literals;
mod stray_rests;
