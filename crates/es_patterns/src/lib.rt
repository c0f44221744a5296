//! Binding patterns, assignment patterns, imports and exports, taken apart and put together.
#![tactic(auto)]

pub mod modules;
pub mod patterns;
