//! The lowerings by the edition of ECMAScript whose constructs they take away, and what else the options of an edition ask for.
#![tactic(auto)]

pub mod es2016;
pub mod es2018;
pub mod es2019;
pub mod es2020;
pub mod es2021;
pub mod warnings;
