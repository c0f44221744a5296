//! Questions about a whole tree: its size, its constructs, and whether it is core.
#![tactic(auto)]

pub mod construct;
pub mod core_grammar;
pub mod count;
pub mod fields;
pub mod rest_targets;
