//! What stands in the way where arrows become functions (ECMA-262, 15.3), told at a node and what is known of its place.
ghost use Rattle.std.specs.Prelude.{◌≡◌, bytes_eq, codes, is_some};
ghost use Rattle.es_tree.specs.Children.{child_at};
ghost use Rattle.es_tree.specs.HasForm.{same_type};
ghost use Rattle.es_tree.specs.StaticRules.{is_accessor_word};
ghost use Rattle.es_tree.specs.Tree.{fields_of, kind_of, label_of};
ghost use Rattle.es_tree.specs.Words.{property_kind_text, unary_operator_text};
ghost use Rattle.es_tree.specs.declared.ast_type.AstType.TheVariants.{ArrowFunctionExpression, ThisExpression};
ghost use Rattle.es_tree.specs.declared.options.EnvOptions.{EnvOptions as PlainOptions};
ghost use Rattle.es_valid_steps.specs.ArrowNodes.{is_arrow_accessor, is_kind_within, is_this_within};
ghost use Rattle.es_unsupported.specs.ArrowShapes.{arrow_shape, inner_shape};
ghost use Rattle.es_unsupported.specs.MarkedWalk.{refers_by_mark};

use crate::arrow_places::ArrowPlace;
use crate::edges::is_arrow;
use es_super_calls::calls::is_super_call;
use es_tree::error::UnsupportedKind;
use es_tree::kind::Kind;
use es_tree::node::Node;
use es_tree::operators::{PropertyKind, UnaryOperator};
use es_tree::parens::strip_parens;

/// What a node at such a place has of that. Where no arrow is to become a function nothing stands in the way.
pub(crate) fn arrow_shape(node: &Node, place: ArrowPlace, arrows: bool) -> Option<UnsupportedKind>
    ensures { (o : PlainOptions) → arrows ≡ is_some o.es2015.arrow_function → result ≡ arrow_shape o place (refers_by_mark (label_of node.now).marks) (kind_of node.now) (label_of node.now) (fields_of node.now) }
{
    if !arrows {
        return None;
    }
    if is_arrow_accessor(node) {
        return Some(UnsupportedKind::ArrowOuter);
    }
    if place.early_super && is_super_call(node) {
        return Some(UnsupportedKind::ArrowThis);
    }
    if place.in_arrow {
        inner_shape(node, place)
    } else {
        None
    }
}

/// What a node has that belongs to an arrow.
fn inner_shape(node: &Node, place: ArrowPlace) -> Option<UnsupportedKind>
    ensures { result ≡ inner_shape place (refers_by_mark (label_of node.now).marks) (kind_of node.now) (label_of node.now) (fields_of node.now) }
{
    match &node.kind {
        Kind::Super => Some(UnsupportedKind::ArrowOuter),
        Kind::MetaProperty { meta, .. } if meta.as_str() == "new" => {
            Some(UnsupportedKind::ArrowOuter)
        }
        Kind::Identifier {
            name,
            reference,
            ..
        } if reference.is_some() && name.as_str() == "arguments" && !place.own_arguments => {
            Some(UnsupportedKind::ArrowOuter)
        }
        Kind::ThisExpression if !place.reaches => Some(UnsupportedKind::ArrowThis),
        Kind::UnaryExpression { operator } if is_delete(*operator) && is_this_within(node) => {
            Some(UnsupportedKind::ArrowThis)
        }
        _ => None,
    }
}

/// Whether the first child is `this`, maybe in parentheses.
fn is_this_within(node: &Node) -> bool
    ensures { result ≡ is_this_within (child_at 0 (fields_of node.now)) }
{
    match node.child_at(0) {
        Some(value) => is_this(strip_parens(value)),
        None => false,
    }
}

fn is_this(node: &Node) -> bool
    ensures { result ≡ same_type (kind_of node.now) ThisExpression }
{
    matches!(node.kind, Kind::ThisExpression)
}

fn is_delete(operator: UnaryOperator) -> bool
    ensures { result ≡ bytes_eq (unary_operator_text operator) (codes "delete") }
{
    matches!(operator, UnaryOperator::Delete)
}

/// Whether the node is a getter or a setter of a literal whose value is an arrow.
fn is_arrow_accessor(node: &Node) -> bool
    ensures { result ≡ is_arrow_accessor (kind_of node.now) (label_of node.now) (fields_of node.now) }
{
    match &node.kind {
        Kind::ObjectProperty { kind, .. } => is_accessor(*kind) && has_arrow(node),
        _ => false,
    }
}

fn is_accessor(kind: PropertyKind) -> bool
    ensures { result ≡ is_accessor_word (property_kind_text kind) }
{
    matches!(kind, PropertyKind::Get | PropertyKind::Set)
}

/// Whether the second child is an arrow.
fn has_arrow(node: &Node) -> bool
    ensures { result ≡ is_kind_within ArrowFunctionExpression (child_at 1 (fields_of node.now)) }
{
    match node.child_at(1) {
        Some(value) => is_arrow(value),
        None => false,
    }
}
