//! Whether a program is of the core grammar: expression statements, and declarations of plain names, over
//! expressions without functions, classes, patterns, templates, spreads and private names.
ghost use Rattle.std.specs.Prelude.{◌≡◌, ℕ, option_map};
ghost use Rattle.es_tree.specs.Core.{is_core_node, is_not_core};
ghost use Rattle.es_tree.specs.Tree.{fields_of, kind_of, label_of};
ghost use Rattle.es_tree.specs.Views.{plain_field};
ghost use Rattle.es_tree.specs.Walks.{first_in_field, first_node};

use es_tree::ids::NodeId;
use es_tree::kind::Kind;
use es_tree::node::{Field, Node};
use es_tree::operators::VariableDeclarationKind;

/// The first node in node order that no core program has, or none.
#[cycle(core)]
pub fn first_not_core(node: &Node) -> Option<NodeId>
    ensures { option_map (λ id. id.0) result ≡ first_node is_not_core node.now }
{
    if !is_core_node(node) {
        return Some(node.id);
    }
    for field in &node.fields {
        if let Some(id) = first_not_core_in(field) {
            return Some(id);
        }
    }
    None
}

#[cycle(core)]
fn first_not_core_in(field: &Field) -> Option<NodeId>
    ensures { option_map (λ id. id.0) result ≡ first_in_field is_not_core (plain_field field.now) }
{
    match field {
        Field::Missing => None,
        Field::One(node) => first_not_core(node),
        Field::Many(nodes) | Field::Statements(nodes) => {
            for node in nodes {
                if let Some(id) = first_not_core(node) {
                    return Some(id);
                }
            }
            None
        }
    }
}

/// Whether a core program may have the node.
fn is_core_node(node: &Node) -> bool
    ensures { result ≡ is_core_node (kind_of node.now) (label_of node.now) (fields_of node.now) }
{
    match &node.kind {
        Kind::VariableDeclaration { kind } => !matches!(kind, VariableDeclarationKind::Using),
        Kind::Program { .. }
        | Kind::Directive { .. }
        | Kind::ExpressionStatement
        | Kind::VariableDeclarator
        | Kind::Identifier { .. }
        | Kind::ThisExpression
        | Kind::NullLiteral
        | Kind::BooleanLiteral { .. }
        | Kind::NumericLiteral { .. }
        | Kind::BigIntLiteral { .. }
        | Kind::StringLiteral { .. }
        | Kind::UnaryExpression { .. }
        | Kind::UpdateExpression { .. }
        | Kind::BinaryExpression { .. }
        | Kind::LogicalExpression { .. }
        | Kind::ConditionalExpression
        | Kind::AssignmentExpression { .. }
        | Kind::SequenceExpression
        | Kind::MemberExpression { .. }
        | Kind::CallExpression { .. }
        | Kind::NewExpression
        | Kind::ChainExpression
        | Kind::ParenthesizedExpression => true,
        _ => false,
    }
}
