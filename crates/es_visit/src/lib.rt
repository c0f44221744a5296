//! The hooks of a visit: which of them a node gets, how often they are called, and the count of the calls.
#![tactic(auto)]

pub mod hook;
pub mod steps;
