//! Shapes that lowerings ask for.
ghost use Rattle.std.specs.Prelude.{◌≡◌};
ghost use Rattle.es_tree.specs.Views.{plain_fields};
ghost use Rattle.lower_temporaries.specs.Shapes.{is_name, is_pair};

use es_tree::kind::Kind;
use es_tree::node::{Field, Node};

/// Whether a node is a name.
pub fn is_name(node: &Node) -> bool
    ensures { result ≡ is_name node.now }
{
    match &node.kind {
        Kind::Identifier { .. } => node.fields.is_empty(),
        _ => false,
    }
}

/// Whether these are two children: two operands, or an object and a key.
pub fn is_pair(fields: &[Field]) -> bool
    ensures { result ≡ is_pair (plain_fields fields.now) }
{
    matches!(fields, [Field::One(..), Field::One(..)])
}
