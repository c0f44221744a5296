//! How far the spine of a chain is lowered.
use es_scope::context_names::BoundIdentifier;
use es_tree::node::Node;

/// How far a spine is lowered, from its base outwards.
#[derive(Drop)]
pub(crate) struct Way {
    /// The tests so far: the chain is cut short where one of them holds.
    pub(crate) tests: Vec<Node>,
    /// The rest of the spine, over what is stored.
    pub(crate) current: Node,
    /// The temporary that was stored last.
    pub(crate) holder: Option<BoundIdentifier>,
}
