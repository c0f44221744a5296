//! Expressions taken out of their parentheses.
ghost use Rattle.std.specs.Prelude.{◌≡◌, true};
ghost use Rattle.es_tree.specs.Parens.{without_parens};
ghost use Rattle.lower_temporaries.specs.Parenthesized.{first_child, has_inner};

use es_tree::kind::Kind;
use es_tree::node::{Field, Node, Parts};

/// Whether the node is an expression in parentheses.
fn has_inner(node: &Node) -> bool
    ensures { result ≡ has_inner node.now }
{
    match &node.kind {
        Kind::ParenthesizedExpression => matches!(node.fields.first(), Some(Field::One(..))),
        _ => false,
    }
}

/// The expression below one pair of parentheses.
fn take_inner(node: Node) -> Node
    requires { has_inner node ≡ true }
    ensures { result ≡ first_child node }
{
    let Parts {
        id: _id,
        span: _span,
        kind: _kind,
        mut fields,
    } = node.into_parts();
    fields.swap_remove(0).into_node()
}

/// The expression below all parentheses around it, which are dropped (ECMA-262, 13.2.9).
pub fn take_from_parens(node: Node) -> Node
    ensures { result ≡ without_parens node }
{
    let mut inner = node;
    while has_inner(&inner) {
        inner = take_inner(inner);
    }
    inner
}
