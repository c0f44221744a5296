//! The fields of a node by their places, which count from 0. Where a node has no field at a place, it is seen
//! as if `Missing` stood there.
ghost use Rattle.std.specs.Prelude.{◌≡◌};
ghost use Rattle.es_tree.specs.Constructs.{field_at, stands};
ghost use Rattle.es_tree.specs.Tree.{fields_of, trees};
ghost use Rattle.es_nodes.specs.MaybeFields.{maybe_field, nodes_in};

use es_tree::node::{Field, Node};

/// The field of the node at this place, or none where the node has fewer fields.
pub fn field_at(node: &Node, index: usize) -> Option<&Field>
    ensures { maybe_field result ≡ field_at index (fields_of node.now) }
{
    node.fields.get(index)
}

/// Whether something stands in the field that `field_at` gave: a node, or a list, even an empty one. False
/// where there is no field, and of `Missing`.
pub fn stands(field: Option<&Field>) -> bool
    ensures { result ≡ stands (maybe_field field.entry) }
{
    !matches!(field, None | Some(Field::Missing))
}

/// The nodes of the field that `field_at` gave, in their order, where it is a `Many`; else none, also of a
/// single node and of statements.
pub fn nodes_in(field: Option<&Field>) -> &[Node]
    ensures { trees result.now ≡ nodes_in (maybe_field field.entry) }
{
    match field {
        Some(Field::Many(nodes)) => nodes,
        _ => &[],
    }
}
