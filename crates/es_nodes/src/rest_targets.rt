//! Object patterns with a rest that are assigned to (ECMA-262, 13.15.5).
ghost use Rattle.std.specs.Prelude.{◌≡◌, bytes_eq, codes};
ghost use Rattle.es_tree.specs.HasForm.{same_type};
ghost use Rattle.es_tree.specs.RestTargets.{is_rest_assignment, is_rest_target};
ghost use Rattle.es_tree.specs.Tree.{fields_of, kind_of, label_of, one};
ghost use Rattle.es_tree.specs.Words.{assignment_operator_text};
ghost use Rattle.es_nodes.specs.MaybeFields.{maybe_field};

use crate::construct::has_rest;
use crate::fields::field_at;
use es_tree::ast_type::AstType;
use es_tree::kind::Kind;
use es_tree::node::{Field, Node};
use es_tree::operators::AssignmentOperator;

/// Whether the node is an assignment to an object pattern with a rest. Takes no memory.
pub fn is_rest_assignment(node: &Node) -> bool
    ensures { result ≡ is_rest_assignment (kind_of node.now) (label_of node.now) (fields_of node.now) }
{
    match &node.kind {
        Kind::AssignmentExpression { operator } => {
            is_plain(*operator) && is_rest_target(field_at(node, 0))
        }
        _ => false,
    }
}

/// Whether the field is an object pattern with a rest that is assigned to. Takes no memory.
pub fn is_rest_target(field: Option<&Field>) -> bool
    ensures { result ≡ is_rest_target (maybe_field field.entry) }
{
    match field {
        Some(Field::One(target)) => is_target_with_rest(target),
        _ => false,
    }
}

/// The same of a node.
pub fn is_target_with_rest(node: &Node) -> bool
    ensures { result ≡ is_rest_target (one node.now) }
{
    is_object_target(node) && has_rest(field_at(node, 0))
}

fn is_object_target(node: &Node) -> bool
    ensures { result ≡ same_type (kind_of node.now) AstType.ObjectTarget }
{
    matches!(node.kind, Kind::ObjectTarget)
}

/// Whether the word of an assignment is `=`.
fn is_plain(operator: AssignmentOperator) -> bool
    ensures { result ≡ bytes_eq (assignment_operator_text operator) (codes "=") }
{
    matches!(operator, AssignmentOperator::Assign)
}
