//! What a slot is wrapped for, as a test of trees.
#![tactic(auto)]

mod constructs;
pub mod wrapped;
