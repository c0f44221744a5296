//! The lowering of optional chaining (ECMA-262, 13.3.9), a type that takes part in a visit.
#![tactic(auto)]

mod calls;
mod chains;
mod choices;
mod members;
mod names;
mod null_checks;
pub mod optional_chaining;
mod parts;
mod receivers;
mod steps;
mod walk;
mod way;
