//! A lowering that is no part of the tool, written against `Traverse` alone: `debugger;` becomes `;`.
#![tactic(auto)]

pub mod debugger_removal;
pub mod removal;
