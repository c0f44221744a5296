//! The names of a program, names that are fresh in it, its scope table, and the context of a visit.
#![tactic(auto)]

pub mod ancestor;
pub mod base;
pub mod context;
pub mod context_names;
pub mod context_nodes;
pub mod context_settings;
pub mod flags;
pub mod names;
pub mod outer_scopes;
pub mod scoping;
pub mod scoping_changes;
pub mod scoping_settings;
pub mod uids;
