//! An owned JavaScript syntax tree in the shape of ESTree: one uniform node, its kinds, and the table
//! of their fields.
#![tactic(auto)]

pub mod ast_type;
pub mod attributes;
pub mod bound_names;
pub mod builder;
pub mod clone;
pub mod error;
pub mod expression_fields;
pub mod helper;
pub mod ids;
pub mod kind;
pub mod node;
pub mod operators;
pub mod options;
pub mod parens;
pub mod place;
pub mod sort_kinds;
pub mod sorts;
pub mod statement_fields;
pub mod table;
