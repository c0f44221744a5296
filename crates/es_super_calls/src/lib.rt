//! The constructors of classes that extend others, and the calls of `super` in them, by which they get their `this` (ECMA-262, 13.3.7.1).
#![tactic(auto)]

pub mod calls;
pub mod standing;
