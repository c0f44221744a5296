//! What the lowerings share: the declarators that are to be written at the heads of statement lists, fresh names that are
//! declared there, expressions that are read more than once, nodes that they make, and calls of helpers.
#![tactic(auto)]

pub mod declarations;
pub mod duplicate;
pub mod helpers;
pub mod made_nodes;
pub mod parens;
pub mod readings;
pub mod references;
pub mod shapes;
pub mod state;
pub mod temporaries;
pub mod uid_vars;
pub mod warning;
