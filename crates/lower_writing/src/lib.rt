//! The lowering that stands before all others: it keeps what is pending for each statement list and each arrow body that
//! is an expression, writes it there, and wraps slots.
#![tactic(auto)]

pub mod common;
pub mod lists;
mod slots;
mod wrapping;
