//! Which object patterns with a rest aren't lowered (ECMA-262, 14.3.3): each is told at the node that holds it in a field.
ghost use Rattle.std.specs.Prelude.{◌≡◌};
ghost use Rattle.es_tree.specs.Tree.{fields_of, kind_of, label_of, trees};
ghost use Rattle.es_tree.specs.Views.{plain_field, plain_fields};
ghost use Rattle.es_rest_shapes.specs.RestShapes.{any_beside, any_child, any_child_by, any_tree, bears_rest, is_misplaced, is_odd_pattern, is_rest_declaration, is_rest_declarator, is_stray_rest};
ghost use Rattle.es_rest_nodes.specs.RestFields.{holds_odd_pair, holds_pattern_list, holds_rest_declarator, is_exported_rest, is_list, is_pair, is_stray_assignment, is_stray_declaration, is_stray_declarator, is_stray_property};

use crate::patterns::{bears_rest, is_plain_pattern, is_rest_declarator};
use es_nodes::rest_targets::is_rest_assignment;
use es_tree::kind::Kind;
use es_tree::node::{Field, Node};

/// Whether the node holds a pattern with a rest that isn't lowered there.
pub fn is_stray_rest(node: &Node) -> bool
    ensures { result ≡ is_stray_rest (kind_of node.now) (label_of node.now) (fields_of node.now) }
{
    match &node.kind {
        Kind::VariableDeclarator => is_stray_declarator(node.fields.as_slice()),
        Kind::VariableDeclaration { .. } => is_stray_declaration(node.fields.as_slice()),
        Kind::ExportNamedDeclaration => any_exported(node.fields.as_slice()),
        Kind::ObjectPattern | Kind::AssignmentPattern => any_beside(node.fields.as_slice()),
        Kind::PatternProperty { .. } => is_stray_property(node.fields.as_slice()),
        Kind::AssignmentExpression { .. } => is_stray_assignment(node),
        _ => any_misplaced(node.fields.as_slice()),
    }
}

/// Whether an assignment holds one beside what it assigns to, or that one where it isn't lowered.
fn is_stray_assignment(node: &Node) -> bool
    ensures { result ≡ is_stray_assignment (kind_of node.now) (label_of node.now) (fields_of node.now) }
{
    match node.fields.as_slice() {
        [target, others @ ..] => {
            (holds_misplaced(target) && !is_rest_assignment(node)) || any_misplaced(others)
        }
        [] => false,
    }
}

/// Whether a declaration declares a pattern with a rest.
pub fn is_rest_declaration(node: &Node) -> bool
    ensures { result ≡ is_rest_declaration (kind_of node.now) (label_of node.now) (fields_of node.now) }
{
    match &node.kind {
        Kind::VariableDeclaration { .. } => holds_rest_declarator(node.fields.as_slice()),
        _ => false,
    }
}

fn holds_rest_declarator(fields: &[Field]) -> bool
    ensures { result ≡ holds_rest_declarator (plain_fields fields.now) }
{
    match fields {
        [Field::Many(declarators), ..] => any_rest_declarator(declarators.as_slice()),
        _ => false,
    }
}

fn is_stray_declarator(fields: &[Field]) -> bool
    ensures { result ≡ is_stray_declarator (plain_fields fields.now) }
{
    holds_odd_pair(fields) || (!is_pair(fields) && any_misplaced(fields))
}

/// Whether these are what is declared and its value, one of which isn't taken.
fn holds_odd_pair(fields: &[Field]) -> bool
    ensures { result ≡ holds_odd_pair (plain_fields fields.now) }
{
    match fields {
        [Field::One(pattern), Field::One(value)] => is_odd_pattern(pattern) || is_misplaced(value),
        _ => false,
    }
}

fn is_pair(fields: &[Field]) -> bool
    ensures { result ≡ is_pair (plain_fields fields.now) }
{
    matches!(fields, [Field::One(..), Field::One(..)])
}

fn is_stray_declaration(fields: &[Field]) -> bool
    ensures { result ≡ is_stray_declaration (plain_fields fields.now) }
{
    holds_pattern_list(fields) || (!is_list(fields) && any_misplaced(fields))
}

/// Whether these are a list with a pattern in it.
fn holds_pattern_list(fields: &[Field]) -> bool
    ensures { result ≡ holds_pattern_list (plain_fields fields.now) }
{
    match fields {
        [Field::Many(nodes)] => any_bearing(nodes.as_slice()),
        _ => false,
    }
}

fn is_list(fields: &[Field]) -> bool
    ensures { result ≡ is_list (plain_fields fields.now) }
{
    matches!(fields, [Field::Many(..)])
}

/// Whether these are a key that holds one, or what a property may not hold beside it.
fn is_stray_property(fields: &[Field]) -> bool
    ensures { result ≡ is_stray_property (plain_fields fields.now) }
{
    match fields {
        [key, value @ ..] => holds_misplaced(key) || any_beside(value),
        [] => false,
    }
}

/// Whether the first of these fields holds a declarator of a pattern with a rest, which a pattern may not, or another one holds what is misplaced.
fn any_beside(fields: &[Field]) -> bool
    ensures { result ≡ any_beside (plain_fields fields.now) }
{
    match fields {
        [first, others @ ..] => holds_declarator(first) || any_misplaced(others),
        [] => false,
    }
}

fn holds_declarator(field: &Field) -> bool
    ensures { result ≡ any_child_by is_rest_declarator (plain_field field.now) }
{
    match field {
        Field::Missing => false,
        Field::One(node) => is_rest_declarator(node),
        Field::Many(nodes) | Field::Statements(nodes) => any_rest_declarator(nodes.as_slice()),
    }
}

/// Whether a child is a pattern with a rest where no declarator declares it, or a declarator of one outside a declaration.
fn any_misplaced(fields: &[Field]) -> bool
    ensures { result ≡ any_child is_misplaced (plain_fields fields.now) }
{
    fields.iter().any(|field| holds_misplaced(field))
}

fn holds_misplaced(field: &Field) -> bool
    ensures { result ≡ any_child_by is_misplaced (plain_field field.now) }
{
    match field {
        Field::Missing => false,
        Field::One(node) => is_misplaced(node),
        Field::Many(nodes) | Field::Statements(nodes) => any_misplaced_node(nodes.as_slice()),
    }
}

/// The same of an export, whose declaration is none of such a pattern.
fn any_exported(fields: &[Field]) -> bool
    ensures { result ≡ any_child is_exported_rest (plain_fields fields.now) }
{
    fields.iter().any(|field| holds_exported(field))
}

fn holds_exported(field: &Field) -> bool
    ensures { result ≡ any_child_by is_exported_rest (plain_field field.now) }
{
    match field {
        Field::Missing => false,
        Field::One(node) => is_exported_rest(node),
        Field::Many(nodes) | Field::Statements(nodes) => any_exported_node(nodes.as_slice()),
    }
}

fn is_exported_rest(node: &Node) -> bool
    ensures { result ≡ is_exported_rest node.now }
{
    is_misplaced(node) || is_rest_declaration(node)
}

fn is_misplaced(node: &Node) -> bool
    ensures { result ≡ is_misplaced node.now }
{
    bears_rest(node) || is_rest_declarator(node)
}

fn is_odd_pattern(node: &Node) -> bool
    ensures { result ≡ is_odd_pattern node.now }
{
    (bears_rest(node) && !is_plain_pattern(node)) || is_rest_declarator(node)
}

fn any_rest_declarator(nodes: &[Node]) -> bool
    ensures { result ≡ any_tree is_rest_declarator (trees nodes.now) }
{
    nodes.iter().any(|node| is_rest_declarator(node))
}

fn any_bearing(nodes: &[Node]) -> bool
    ensures { result ≡ any_tree bears_rest (trees nodes.now) }
{
    nodes.iter().any(|node| bears_rest(node))
}

fn any_misplaced_node(nodes: &[Node]) -> bool
    ensures { result ≡ any_tree is_misplaced (trees nodes.now) }
{
    nodes.iter().any(|node| is_misplaced(node))
}

fn any_exported_node(nodes: &[Node]) -> bool
    ensures { result ≡ any_tree is_exported_rest (trees nodes.now) }
{
    nodes.iter().any(|node| is_exported_rest(node))
}
