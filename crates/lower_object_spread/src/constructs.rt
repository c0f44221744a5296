//! Which object literals are lowered (ECMA-262, 13.2.5).
ghost use Rattle.std.specs.Prelude.{◌≡◌};
ghost use Rattle.es_tree.specs.Constructs.{is_spread};
ghost use Rattle.es_tree.specs.Tree.{fields_of, kind_of, label_of, trees};
ghost use Rattle.es_tree.specs.Views.{plain_fields};
ghost use Rattle.lower_object_spread.specs.Literals.{any_lacks_argument, has_argument, has_properties, is_lowerable_literal, lacks_argument};

use es_nodes::construct::is_object_spread;
use es_tree::kind::Kind;
use es_tree::node::{Field, Node};

/// Whether the node is a literal with a spread, with its properties, each spread with what is copied.
pub(crate) fn is_lowerable(node: &Node) -> bool
    ensures { result ≡ is_lowerable_literal (kind_of node.now) (label_of node.now) (fields_of node.now) }
{
    is_object_spread(node) && has_properties(node.fields.as_slice())
}

/// Whether these are the properties of a literal, each spread with what is copied.
fn has_properties(fields: &[Field]) -> bool
    ensures { result ≡ has_properties (plain_fields fields.now) }
{
    match fields {
        [Field::Many(properties)] => !any_lacks_argument(properties),
        _ => false,
    }
}

fn any_lacks_argument(properties: &[Node]) -> bool
    ensures { result ≡ any_lacks_argument (trees properties.now) }
{
    for property in properties {
        if lacks_argument(property) {
            return true;
        }
    }
    false
}

/// Whether a property is a spread without what is copied.
fn lacks_argument(property: &Node) -> bool
    ensures { result ≡ lacks_argument property.now }
{
    is_spread(property) && !has_argument(property.fields.as_slice())
}

/// Whether a property is a spread.
pub(crate) fn is_spread(property: &Node) -> bool
    ensures { result ≡ is_spread (kind_of property.now) }
{
    matches!(property.kind, Kind::SpreadElement)
}

/// Whether this is what a spread copies.
fn has_argument(fields: &[Field]) -> bool
    ensures { result ≡ has_argument (plain_fields fields.now) }
{
    matches!(fields, [Field::One(..)])
}
