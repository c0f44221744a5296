//! The program, its statements and declarations, taken apart and put together.
#![tactic(auto)]

pub mod control;
pub mod functions;
pub mod loops;
pub mod program;
