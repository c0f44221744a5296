//! The nodes of made names.
ghost use Rattle.std.specs.Prelude.{◌≡◌, IfOk};
ghost use Rattle.es_tree.specs.Tree.{label_of};
ghost use Rattle.lower_fresh_names.specs.Names.{name_with};

use es_tree::ids::{NodeId, Span};
use es_tree::kind::Kind;
use es_tree::node::Node;
use std::alloc::{AllocError, Global};

/// The place of made nodes.
pub const MADE: Span = Span { start: 0, end: 0 };

/// The id of a node.
pub fn id_of(node: &Node) -> NodeId
    ensures { result.0 ≡ (label_of node.now).id }
{
    node.id
}

/// A name with this text and id, without marks of a scope table. Fails only for want of memory.
pub fn new_name(id: NodeId, text: &str, alloc: Global) -> Result<Node, AllocError>
    ensures { IfOk result (λ made. made ≡ name_with id.0 text.now) }
{
    let kind = Kind::Identifier {
        name: String::from_str(alloc, text)?,
        reference: None,
        symbol: None,
    };
    Ok(Node {
        id,
        span: MADE,
        kind,
        fields: Vec::new(alloc),
    })
}
