//! The kinds of expressions, taken apart and put together.
#![tactic(auto)]

pub mod composites;
pub mod literals;
pub mod members;
pub mod operations;
pub mod templates;
