//! Whether a program has a construct that the options ask to lower.
ghost use Rattle.std.specs.Prelude.{◌≡◌, ◌||◌, bytes_eq, codes};
ghost use Rattle.es_tree.specs.Constructs.{any_kind, field_at, has_enabled_construct, has_member, is_arrow, is_big_int, is_chain, is_child, is_enabled_construct, is_enabled_expression, is_enabled_statement, is_exponentiation, is_logical_assignment, is_namespace_export, is_nullish_coalescing, is_object_rest, is_object_spread, is_optional_catch, is_private_member, is_private_name, is_private_target, is_rest, is_spread, is_using, stands};
ghost use Rattle.es_tree.specs.Tree.{fields_of, kind_of, label_of, trees};
ghost use Rattle.es_tree.specs.Views.{plain_field};
ghost use Rattle.es_tree.specs.Walks.{any_in_field, any_node};
ghost use Rattle.es_tree.specs.Words.{assignment_operator_text, binary_operator_text, logical_operator_text, variable_declaration_kind_text};
ghost use Rattle.es_nodes.specs.MaybeFields.{maybe_field};

use crate::fields::{field_at, stands};
use es_tree::kind::Kind;
use es_tree::node::{Field, Node};
use es_tree::operators::{
    AssignmentOperator, BinaryOperator, LogicalOperator, VariableDeclarationKind,
};
use es_tree::options::EnvOptions;
use es_tree::parens::strip_parens;

/// Whether some node of the program is a construct that the options ask to lower. Takes no memory.
pub fn has_enabled_construct(program: &Node, options: &EnvOptions) -> bool
    ensures { result ≡ has_enabled_construct options.now program.now }
{
    any_node(program, options)
}

#[cycle(construct)]
fn any_node(node: &Node, options: &EnvOptions) -> bool
    ensures { result ≡ any_node (is_enabled_construct options.now) node.now }
{
    if is_enabled_construct(node, options) {
        return true;
    }
    for field in &node.fields {
        if any_in_field(field, options) {
            return true;
        }
    }
    false
}

#[cycle(construct)]
fn any_in_field(field: &Field, options: &EnvOptions) -> bool
    ensures { result ≡ any_in_field (is_enabled_construct options.now) (plain_field field.now) }
{
    match field {
        Field::Missing => false,
        Field::One(node) => any_node(node, options),
        Field::Many(nodes) | Field::Statements(nodes) => {
            for node in nodes {
                if any_node(node, options) {
                    return true;
                }
            }
            false
        }
    }
}

/// Whether the node is such a construct.
fn is_enabled_construct(node: &Node, options: &EnvOptions) -> bool
    ensures { result ≡ is_enabled_construct options.now (kind_of node.now) (label_of node.now) (fields_of node.now) }
{
    is_enabled_expression(node, options) || is_enabled_statement(node, options)
}

fn is_enabled_expression(node: &Node, options: &EnvOptions) -> bool
    ensures { result ≡ is_enabled_expression options.now (kind_of node.now) (label_of node.now) (fields_of node.now) }
{
    (options.es2016.exponentiation_operator && is_exponentiation(node))
        || (options.es2020.nullish_coalescing_operator && is_nullish_coalescing(node))
        || (options.es2020.optional_chaining && is_chain(node))
        || (options.es2021.logical_assignment_operators && is_logical_assignment(node))
        || (options.es2018.object_rest_spread.is_some()
            && (is_object_spread(node) || is_object_rest(node)))
        || (options.es2015.arrow_function.is_some() && is_arrow(node))
}

fn is_enabled_statement(node: &Node, options: &EnvOptions) -> bool
    ensures { result ≡ is_enabled_statement options.now (kind_of node.now) (label_of node.now) (fields_of node.now) }
{
    (options.es2019.optional_catch_binding && is_optional_catch(node))
        || (options.es2020.export_namespace_from && is_namespace_export(node))
        || (options.es2026.explicit_resource_management && is_using(node))
}

/// Whether the node is `**` with no BigInt literal directly at either side, or `**=` with none directly
/// at its right.
pub fn is_exponentiation(node: &Node) -> bool
    ensures { result ≡ is_exponentiation (kind_of node.now) (label_of node.now) (fields_of node.now) }
{
    match &node.kind {
        Kind::BinaryExpression { operator } => {
            is_power(*operator) && !is_big_int(field_at(node, 0)) && !is_big_int(field_at(node, 1))
        }
        Kind::AssignmentExpression { operator } => {
            is_power_assignment(*operator) && !is_big_int(field_at(node, 1))
        }
        _ => false,
    }
}

/// Whether the node is `??`.
pub fn is_nullish_coalescing(node: &Node) -> bool
    ensures { result ≡ is_nullish_coalescing (kind_of node.now) (label_of node.now) (fields_of node.now) }
{
    match &node.kind {
        Kind::LogicalExpression { operator } => is_coalesce(*operator),
        _ => false,
    }
}

/// Whether the node is an optional chain.
pub fn is_chain(node: &Node) -> bool
    ensures { result ≡ is_chain (kind_of node.now) (label_of node.now) (fields_of node.now) }
{
    matches!(node.kind, Kind::ChainExpression)
}

/// Whether the node is `||=`, `&&=` or `??=` to something other than a private member.
pub fn is_logical_assignment(node: &Node) -> bool
    ensures { result ≡ is_logical_assignment (kind_of node.now) (label_of node.now) (fields_of node.now) }
{
    match &node.kind {
        Kind::AssignmentExpression { operator } => {
            is_logical(*operator) && !is_private_target(field_at(node, 0))
        }
        _ => false,
    }
}

/// Whether the node is a `catch` without a parameter.
pub fn is_optional_catch(node: &Node) -> bool
    ensures { result ≡ is_optional_catch (kind_of node.now) (label_of node.now) (fields_of node.now) }
{
    match &node.kind {
        Kind::CatchClause { .. } => !stands(field_at(node, 0)),
        _ => false,
    }
}

/// Whether the node is `export * as` with a name.
pub fn is_namespace_export(node: &Node) -> bool
    ensures { result ≡ is_namespace_export (kind_of node.now) (label_of node.now) (fields_of node.now) }
{
    match &node.kind {
        Kind::ExportAllDeclaration => stands(field_at(node, 0)),
        _ => false,
    }
}

/// Whether the node is an object literal with a spread.
pub fn is_object_spread(node: &Node) -> bool
    ensures { result ≡ is_object_spread (kind_of node.now) (label_of node.now) (fields_of node.now) }
{
    match &node.kind {
        Kind::ObjectExpression => has_spread(field_at(node, 0)),
        _ => false,
    }
}

/// Whether the node is an object pattern with a rest.
pub fn is_object_rest(node: &Node) -> bool
    ensures { result ≡ is_object_rest (kind_of node.now) (label_of node.now) (fields_of node.now) }
{
    match &node.kind {
        Kind::ObjectPattern | Kind::ObjectTarget => has_rest(field_at(node, 0)),
        _ => false,
    }
}

/// Whether the node is a declaration by `using`.
pub fn is_using(node: &Node) -> bool
    ensures { result ≡ is_using (kind_of node.now) (label_of node.now) (fields_of node.now) }
{
    match &node.kind {
        Kind::VariableDeclaration { kind } => is_using_word(*kind),
        _ => false,
    }
}

/// Whether the node is an arrow function.
pub fn is_arrow(node: &Node) -> bool
    ensures { result ≡ is_arrow (kind_of node.now) (label_of node.now) (fields_of node.now) }
{
    matches!(node.kind, Kind::ArrowFunctionExpression { .. })
}

fn is_power(operator: BinaryOperator) -> bool
    ensures { result ≡ bytes_eq (binary_operator_text operator) (codes "**") }
{
    matches!(operator, BinaryOperator::Exponential)
}

fn is_power_assignment(operator: AssignmentOperator) -> bool
    ensures { result ≡ bytes_eq (assignment_operator_text operator) (codes "**=") }
{
    matches!(operator, AssignmentOperator::Exponential)
}

fn is_coalesce(operator: LogicalOperator) -> bool
    ensures { result ≡ bytes_eq (logical_operator_text operator) (codes "??") }
{
    matches!(operator, LogicalOperator::Coalesce)
}

fn is_logical(operator: AssignmentOperator) -> bool
    ensures { let text = assignment_operator_text operator in result ≡ (bytes_eq text (codes "||=") || bytes_eq text (codes "&&=") || bytes_eq text (codes "??=")) }
{
    matches!(
        operator,
        AssignmentOperator::LogicalOr
            | AssignmentOperator::LogicalAnd
            | AssignmentOperator::LogicalNullish
    )
}

fn is_using_word(kind: VariableDeclarationKind) -> bool
    ensures { result ≡ bytes_eq (variable_declaration_kind_text kind) (codes "using") }
{
    matches!(kind, VariableDeclarationKind::Using)
}

/// Whether the field is a BigInt literal.
pub fn is_big_int(field: Option<&Field>) -> bool
    ensures { result ≡ is_child is_big_int (maybe_field field.entry) }
{
    match field {
        Some(Field::One(node)) => matches!(node.kind, Kind::BigIntLiteral { .. }),
        _ => false,
    }
}

/// Whether the field is a private name.
fn is_private_name(field: Option<&Field>) -> bool
    ensures { result ≡ is_child is_private_name (maybe_field field.entry) }
{
    match field {
        Some(Field::One(node)) => matches!(node.kind, Kind::PrivateIdentifier { .. }),
        _ => false,
    }
}

/// Whether the field is a member with a private name, maybe in parentheses.
pub fn is_private_target(field: Option<&Field>) -> bool
    ensures { result ≡ is_private_target (maybe_field field.entry) }
{
    match field {
        Some(Field::One(target)) => is_private_member(strip_parens(target)),
        _ => false,
    }
}

fn is_private_member(node: &Node) -> bool
    ensures { result ≡ is_private_member (kind_of node.now) (fields_of node.now) }
{
    match &node.kind {
        Kind::MemberExpression { .. } => is_private_name(field_at(node, 1)),
        _ => false,
    }
}

/// Whether the field is a list with a spread.
fn has_spread(field: Option<&Field>) -> bool
    ensures { result ≡ has_member is_spread (maybe_field field.entry) }
{
    match field {
        Some(Field::Many(nodes)) => any_spread(nodes),
        _ => false,
    }
}

fn any_spread(nodes: &[Node]) -> bool
    ensures { result ≡ any_kind is_spread (trees nodes.now) }
{
    for node in nodes {
        if is_spread(node) {
            return true;
        }
    }
    false
}

fn is_spread(node: &Node) -> bool
    ensures { result ≡ is_spread (kind_of node.now) }
{
    matches!(node.kind, Kind::SpreadElement)
}

/// Whether the field is a list with a rest.
pub fn has_rest(field: Option<&Field>) -> bool
    ensures { result ≡ has_member is_rest (maybe_field field.entry) }
{
    match field {
        Some(Field::Many(nodes)) => any_rest(nodes),
        _ => false,
    }
}

fn any_rest(nodes: &[Node]) -> bool
    ensures { result ≡ any_kind is_rest (trees nodes.now) }
{
    for node in nodes {
        if is_rest(node) {
            return true;
        }
    }
    false
}

fn is_rest(node: &Node) -> bool
    ensures { result ≡ is_rest (kind_of node.now) }
{
    matches!(node.kind, Kind::RestElement | Kind::TargetRest)
}
