//! The reader and the writer of the tree form.
#![tactic(auto)]

pub mod error;
pub mod laws;
pub mod limits;
mod places;
mod pointer;
pub mod program;
pub mod reader;
mod scalars;
pub mod writer;
