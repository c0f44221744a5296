//! One run: from a JSON value, or from the bytes of one, to the lowered program.
#![tactic(auto)]

mod constructors;
mod copies;
pub mod driver;
mod importing;
mod moving;
mod reading;
mod resources;
mod sharing;
mod splitting;
mod visiting;
