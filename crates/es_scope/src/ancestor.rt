//! Where a node stands.
use es_tree::ast_type::AstType;
use es_tree::ids::{NodeId, ScopeId};

/// Where a node stands in the node around it: that node's kind, the number of the field (fields count from 0), and its id.
#[derive(Clone, Copy, PartialEq, Eq, Debug)]
pub struct Ancestor {
    pub kind: AstType,
    pub field: usize,
    pub node: NodeId,
}

/// An ancestor, and the scope of the place inside it.
#[derive(Clone, Copy)]
pub(crate) struct Place {
    pub(crate) ancestor: Ancestor,
    pub(crate) scope: ScopeId,
}
