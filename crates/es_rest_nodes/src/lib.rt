//! Whether a node declares object rests, and whether it holds one that isn't lowered there.
#![tactic(auto)]

pub mod keys;
pub mod patterns;
pub mod strays;
