//! The command as a library: a run of it from its words and its input to its output and its notes, over ends of any
//! kind, with those over memory and over what std reads from and writes to.
#![tactic(auto)]

pub mod answer;
mod asked;
mod calls;
mod command_line;
pub mod ends;
pub mod fixed_source;
pub mod generated;
mod generating;
mod job;
pub mod mem_sink;
pub mod mem_source;
mod reading;
pub mod refusal;
pub mod run;
pub mod std_ends;
mod warnings;
pub mod words;
mod writing;
