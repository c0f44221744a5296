//! The static rules of ECMA-262 over every program: the first that is broken, and its node.
#![tactic(auto)]

mod ancestors;
mod classes;
mod declarations;
mod functions;
mod jumps;
mod known_names;
mod modules;
mod names;
mod places;
mod rules;
pub mod static_rules;
