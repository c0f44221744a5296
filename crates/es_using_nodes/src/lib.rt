//! Where `using` can be lowered, as calls that take no memory: whether functions at the top of a body may become those of a block, and whether a `using`
//! moves out of the head of a loop.
#![tactic(auto)]

pub mod bodies;
pub mod entering;
pub mod heads;
