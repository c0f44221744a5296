//! What lowerings keep to be written later: statements around others and at the top of the program, imports, and the
//! helpers that are loaded.
#![tactic(auto)]

pub mod helper_loader;
pub mod module_imports;
pub mod statement_injector;
pub mod top_level_statements;
