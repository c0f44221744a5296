//! The constructs that a slot is wrapped for (ECMA-262, 13.6, 13.13, 13.15 and 13.3.9).
ghost use Rattle.std.specs.Prelude.{◌≡◌, ◌&&◌, bytes_eq, codes, true};
ghost use Rattle.es_tree.specs.Constructs.{field_at, is_exponentiation};
ghost use Rattle.es_tree.specs.HasForm.{same_type};
ghost use Rattle.es_tree.specs.Names.{first_text};
ghost use Rattle.es_tree.specs.Tree.{fields_of, kind_of, label_of, trees};
ghost use Rattle.es_tree.specs.Words.{assignment_operator_text};
ghost use Rattle.es_tree.specs.RestTargets.{is_rest_target};
ghost use Rattle.es_steps.specs.WrapRule.{is_member_target};
ghost use Rattle.es_nodes.specs.MaybeFields.{maybe_field};

use es_nodes::construct::is_exponentiation;
use es_nodes::fields::field_at;
use es_nodes::rest_targets::is_rest_target;
use es_tree::ast_type::AstType;
use es_tree::kind::Kind;
use es_tree::node::{Field, Node};
use es_tree::operators::AssignmentOperator;
use es_tree::parens::strip_parens;

fn is_assignment(node: &Node) -> bool
    ensures { result ≡ same_type (kind_of node.now) AstType.AssignmentExpression }
{
    matches!(node.kind, Kind::AssignmentExpression { .. })
}

/// Whether the node is `**=` with no BigInt literal directly at its right.
pub(crate) fn assigns_power(node: &Node) -> bool
    ensures { result ≡ (same_type (kind_of node.now) AstType.AssignmentExpression && is_exponentiation (kind_of node.now) (label_of node.now) (fields_of node.now)) }
{
    is_assignment(node) && is_exponentiation(node)
}

/// Whether the node is an assignment to an object target with a rest.
pub(crate) fn assigns_rest(node: &Node) -> bool
    ensures { result ≡ (same_type (kind_of node.now) AstType.AssignmentExpression && is_rest_target (field_at 0 (fields_of node.now))) }
{
    is_assignment(node) && is_rest_target(field_at(node, 0))
}

/// Whether the word of an assignment is `??=`.
pub(crate) fn assigns_nullish(node: &Node) -> bool
    ensures { same_type (kind_of node.now) AstType.AssignmentExpression ≡ true → result ≡ bytes_eq (first_text (label_of node.now).texts) (codes "??=") }
{
    match &node.kind {
        Kind::AssignmentExpression { operator } => is_nullish_assignment(*operator),
        _ => false,
    }
}

fn is_nullish_assignment(operator: AssignmentOperator) -> bool
    ensures { result ≡ bytes_eq (assignment_operator_text operator) (codes "??=") }
{
    matches!(operator, AssignmentOperator::LogicalNullish)
}

/// Whether the field is a member, maybe in parentheses.
pub(crate) fn is_member_target(field: Option<&Field>) -> bool
    ensures { result ≡ is_member_target (maybe_field field.entry) }
{
    match field {
        Some(Field::One(target)) => is_member(strip_parens(target)),
        _ => false,
    }
}

fn is_member(node: &Node) -> bool
    ensures { result ≡ same_type (kind_of node.now) AstType.MemberExpression }
{
    matches!(node.kind, Kind::MemberExpression { .. })
}
