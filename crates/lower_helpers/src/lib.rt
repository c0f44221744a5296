//! Calls of helpers, and the statements by which a program gets what it imports.
#![tactic(auto)]

pub mod helper_calls;
pub mod helper_stores;
pub mod import_statements;
mod made_nodes;
pub mod require_statements;
