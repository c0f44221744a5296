//! Which object patterns with a rest, or with such a pattern in a property, move to a declaration or an assignment of their own, as calls that
//! take no memory.
#![tactic(auto)]

pub mod bound;
pub mod declared;
pub mod heads;
pub mod moves;
pub mod parameters;
pub mod standing;
