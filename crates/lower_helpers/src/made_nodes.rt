//! What the nodes that are made here have in common.
ghost use Rattle.std.specs.Prelude.{◌≡◌, ◌+◌, ◌-◌, ◌<◌, ◌^◌, IfOk, None, OnOk, Some, string_bytes};
ghost use Rattle.lower_helpers.specs.HelperNodes.{name_node};

use es_scope::context_names::BoundIdentifier;
use es_scope::flags::ReferenceFlags;
use es_tree::builder::AstBuilder;
use es_tree::ids::Span;
use es_tree::kind::Kind;
use es_tree::node::Node;
use std::alloc::AllocError;

/// The place of made nodes.
pub(crate) const MADE: Span = Span { start: 0, end: 0 };

/// A reference that reads its name.
pub(crate) const READS: ReferenceFlags = ReferenceFlags {
    read: true,
    write: false,
};

/// An identifier that binds this name, with the mark of its symbol.
pub(crate) fn binding_identifier(
    binding: &BoundIdentifier,
    ast: &mut AstBuilder,
) -> Result<Node, AllocError>
    requires { ast.old.next < 2 ^ 32 - 1 }
    ensures made { IfOk result (λ n. n ≡ name_node ast.old.next (string_bytes binding.now.name) None (Some binding.now.symbol_id.0)) }
    ensures counted { OnOk result (ast.new.next ≡ ast.old.next + 1) }
{
    let name = String::from_str(ast.alloc, binding.name.as_str())?;
    let kind = Kind::Identifier {
        name,
        reference: None,
        symbol: Some(binding.symbol_id),
    };
    Ok(Node {
        id: ast.new_id(),
        span: MADE,
        kind,
        fields: Vec::new(ast.alloc),
    })
}
