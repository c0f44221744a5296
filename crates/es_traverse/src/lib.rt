//! One visit of a scoped tree of any kind, for every lowering whose type keeps the laws of `Traverse`.
#![tactic(auto)]

pub mod both;
pub mod entering;
pub mod lowering;
pub mod site;
pub mod traverse;
pub mod walk;
