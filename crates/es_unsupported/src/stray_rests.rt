//! Object patterns with a rest, itself or in a property, that aren't lowered (ECMA-262, 14.3.3), and the names by which the nodes are refused that hold
//! them.
ghost use Rattle.std.specs.Prelude.{◌≡◌};
ghost use Rattle.es_tree.specs.Tree.{fields_of, kind_of, label_of, trees};
ghost use Rattle.es_tree.specs.Views.{plain_field, plain_fields};
ghost use Rattle.es_rest_shapes.specs.RestShapes.{any_child, any_child_by, any_tree};
ghost use Rattle.es_unsupported.specs.Shapes.{begins_with_rest, declarator_shape, declares_head, has_rest_parameter, holds_stray, is_rest_parameter, parameter_shape, stray_shape};

use crate::pattern_places::nests_patterns;
use es_rest_nodes::patterns::is_plain_pattern;
use es_rest_nodes::strays::is_stray_rest;
use es_tree::error::UnsupportedKind;
use es_tree::kind::Kind;
use es_tree::node::{Field, Node};

/// Whether the node holds a pattern with a rest that isn't lowered there, and isn't told at its own node, or is a function with such a parameter.
pub(crate) fn holds_stray(node: &Node) -> bool
    ensures { result ≡ holds_stray (kind_of node.now) (label_of node.now) (fields_of node.now) }
{
    (!nests_patterns(node) && is_stray_rest(node)) || has_rest_parameter(node)
}

/// The name by which a node is refused that holds one, or is a declaration by `using`.
pub(crate) fn stray_shape(node: &Node) -> UnsupportedKind
    ensures { result ≡ stray_shape (kind_of node.now) (fields_of node.now) }
{
    match &node.kind {
        Kind::VariableDeclaration { .. } => UnsupportedKind::HelperName,
        Kind::VariableDeclarator => declarator_shape(node),
        _ => parameter_shape(node),
    }
}

/// The name of a declarator.
fn declarator_shape(node: &Node) -> UnsupportedKind
    ensures { result ≡ declarator_shape (fields_of node.now) }
{
    if declares_head(node) {
        UnsupportedKind::HeadName
    } else {
        UnsupportedKind::NotBuilt
    }
}

/// Whether a declarator has a plain pattern and no value, as in the head of a `for-in` or `for-of`.
fn declares_head(node: &Node) -> bool
    ensures { result ≡ declares_head (fields_of node.now) }
{
    begins_with_rest(node.fields.as_slice()) && node.child_at(1).is_none()
}

/// The name of any other node.
fn parameter_shape(node: &Node) -> UnsupportedKind
    ensures { result ≡ parameter_shape (kind_of node.now) (fields_of node.now) }
{
    if has_rest_parameter(node) {
        UnsupportedKind::RestParameter
    } else {
        UnsupportedKind::NotBuilt
    }
}

/// Whether the node is a function with a parameter that is a plain pattern, alone or with a default value.
fn has_rest_parameter(node: &Node) -> bool
    ensures { result ≡ has_rest_parameter (kind_of node.now) (fields_of node.now) }
{
    match &node.kind {
        Kind::FunctionDeclaration { .. }
        | Kind::FunctionExpression { .. }
        | Kind::ArrowFunctionExpression { .. } => any_parameter(node.fields.as_slice()),
        _ => false,
    }
}

fn any_parameter(fields: &[Field]) -> bool
    ensures { result ≡ any_child is_rest_parameter (plain_fields fields.now) }
{
    fields.iter().any(|field| holds_parameter(field))
}

fn holds_parameter(field: &Field) -> bool
    ensures { result ≡ any_child_by is_rest_parameter (plain_field field.now) }
{
    match field {
        Field::Missing => false,
        Field::One(node) => is_rest_parameter(node),
        Field::Many(nodes) | Field::Statements(nodes) => any_parameter_node(nodes.as_slice()),
    }
}

fn any_parameter_node(nodes: &[Node]) -> bool
    ensures { result ≡ any_tree is_rest_parameter (trees nodes.now) }
{
    nodes.iter().any(|node| is_rest_parameter(node))
}

fn is_rest_parameter(node: &Node) -> bool
    ensures { result ≡ is_rest_parameter node.now }
{
    match &node.kind {
        Kind::AssignmentPattern => begins_with_rest(node.fields.as_slice()),
        _ => is_plain_pattern(node),
    }
}

/// Whether the first of these is a plain pattern.
fn begins_with_rest(fields: &[Field]) -> bool
    ensures { result ≡ begins_with_rest (plain_fields fields.now) }
{
    match fields {
        [Field::One(pattern), ..] => is_plain_pattern(pattern),
        _ => false,
    }
}
