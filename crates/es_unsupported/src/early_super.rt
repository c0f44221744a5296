//! Whether a `this` in the body of a function belongs to an arrow (ECMA-262, 15.3): `constructor() { super(); f(() => this); }`.
ghost use Rattle.std.specs.Prelude.{◌≡◌, ◌&&◌, ◌||◌};
ghost use Rattle.es_tree.specs.Ancestors.{ancestor};
ghost use Rattle.es_tree.specs.HasForm.{same_type};
ghost use Rattle.es_tree.specs.Tree.{done, fields_of, kind_of, label_of};
ghost use Rattle.es_tree.specs.Views.{plain_field};
ghost use Rattle.es_tree.specs.declared.ast_type.AstType.TheVariants.{ArrowFunctionExpression, ThisExpression};
ghost use Rattle.es_steps.specs.ThisPlaces.{keeps_this};
ghost use Rattle.es_unsupported.specs.EarlySuper.{arrow_this, arrow_this_by, arrow_this_in, has_arrow_this};

use crate::edges::{is_arrow, keeps_this};
use es_tree::kind::Kind;
use es_tree::node::{Field, Node};

/// Whether a `this` in the body of this function belongs to an arrow.
pub(crate) fn has_arrow_this(function: &Node) -> bool
    ensures { result ≡ has_arrow_this (fields_of function.now) }
{
    match function.fields.as_slice() {
        [_, _, body, ..] => arrow_this_by(body, false),
        _ => false,
    }
}

/// Whether one stands in the tree, which itself stands in an arrow or doesn't.
#[cycle(arrow_this)]
fn arrow_this(node: &Node, inside: bool) -> bool
    ensures { result ≡ arrow_this inside node.now }
{
    if is_this_inside(node, inside) {
        return true;
    }
    let within = leads_inside(node, inside);
    for (index, field) in node.fields.iter().enumerate() {
        if !keeps_this(node, index) && arrow_this_by(field, within) {
            return true;
        }
    }
    false
}

/// Whether the node is a `this`, and stands in an arrow.
fn is_this_inside(node: &Node, inside: bool) -> bool
    ensures { result ≡ (same_type (kind_of node.now) ThisExpression && inside) }
{
    matches!(node.kind, Kind::ThisExpression) && inside
}

/// Whether what stands in the node stands in an arrow, where the node itself does or doesn't.
fn leads_inside(node: &Node, inside: bool) -> bool
    ensures { result ≡ (inside || same_type (kind_of node.now) ArrowFunctionExpression) }
{
    inside || is_arrow(node)
}

/// Whether one stands in the field.
#[cycle(arrow_this)]
fn arrow_this_by(field: &Field, inside: bool) -> bool
    ensures { result ≡ arrow_this_by inside (plain_field field.now) }
{
    match field {
        Field::Missing => false,
        Field::One(node) => arrow_this(node, inside),
        Field::Many(nodes) | Field::Statements(nodes) => {
            for node in nodes {
                if arrow_this(node, inside) {
                    return true;
                }
            }
            false
        }
    }
}
