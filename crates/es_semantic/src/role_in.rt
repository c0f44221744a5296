//! What stands in the fields of a node, which count from 0 (ECMA-262, 8.2 and 13.1; for what writes, 13.4, 13.15 and
//! 14.7.5).
ghost use Rattle.std.specs.Prelude.{◌≡◌, ℕ, suc, if◌then◌else◌};
ghost use Rattle.es_tree.specs.Heads.{head_of, label};
ghost use Rattle.es_tree.specs.Names.{third_stands};
ghost use Rattle.es_tree.specs.Tree.{Fields, fields_of, kind_of, label_of};
ghost use Rattle.es_tree.specs.Words.{assignment_operator_text, method_definition_kind_text, variable_declaration_kind_text};
ghost use Rattle.es_tree.specs.declared.ids.NodeId.{NodeId};
ghost use Rattle.es_tree.specs.declared.ids.Span.{Span};
ghost use Rattle.es_semantic.specs.RolesOf.{binding_of, extends, function_binding, member_role, reads, role_at, target_of};

use crate::place::{Binding, Role};
use es_scope::flags::ReferenceFlags;
use es_scope::names::{is_first_name, is_second_name};
use es_tree::kind::Kind;
use es_tree::node::Node;
use es_tree::operators::{AssignmentOperator, MethodDefinitionKind, VariableDeclarationKind};

pub(crate) const READS: Role = Role::Refers(ReferenceFlags {
    read: true,
    write: false,
});

const WRITES: Role = Role::Refers(ReferenceFlags {
    read: false,
    write: true,
});

const UPDATES: Role = Role::Refers(ReferenceFlags {
    read: true,
    write: true,
});

/// What stands in this field of a node that is itself of this role.
pub(crate) fn role_in(role: Role, node: &Node, index: usize) -> Role
    ensures { result ≡ role_at role (kind_of node.now) (label_of node.now) (fields_of node.now) index }
{
    match index {
        0 => first_role(role, &node.kind),
        1 => second_role(role, node),
        2 => third_role(role, node),
        _ => later_role(role, node),
    }
}

fn first_role(role: Role, kind: &Kind) -> Role
    ensures { (id : NodeId) (span : Span) (fs : Fields) → result ≡ role_at role (head_of kind.now).kind (label id span (head_of kind.now)) fs 0 }
{
    match kind {
        Kind::StaticBlock { .. } => Role::Top,
        Kind::VariableDeclaration { kind } => Role::Binds(declared_by(*kind)),
        Kind::FunctionDeclaration { .. } => Role::Binds(function_binding(role)),
        Kind::FunctionExpression { .. } => Role::Binds(Binding::FunctionName),
        Kind::ArrowFunctionExpression { .. } => Role::Binds(Binding::Parameter),
        Kind::ClassDeclaration { .. } | Kind::ClassExpression { .. } => Role::Binds(Binding::Class),
        Kind::CatchClause { .. } => Role::Binds(Binding::CatchParameter),
        Kind::ImportDefaultSpecifier | Kind::ImportNamespaceSpecifier => {
            Role::Binds(Binding::Import)
        }
        Kind::ForInStatement { .. } | Kind::ForOfStatement { .. } => WRITES,
        Kind::AssignmentExpression { operator } => target_role(*operator),
        Kind::UpdateExpression { .. } => UPDATES,
        Kind::ExportNamedDeclaration
        | Kind::ExportDefaultDeclaration
        | Kind::VariableDeclarator
        | Kind::ExportSpecifier
        | Kind::ParenthesizedExpression
        | Kind::ObjectPattern
        | Kind::ArrayPattern
        | Kind::AssignmentPattern
        | Kind::RestElement
        | Kind::ObjectTarget
        | Kind::ArrayTarget
        | Kind::TargetWithDefault
        | Kind::TargetRest => role,
        _ => name_role(is_first_name(kind)),
    }
}

fn second_role(role: Role, node: &Node) -> Role
    ensures { result ≡ role_at role (kind_of node.now) (label_of node.now) (fields_of node.now) 1 }
{
    match &node.kind {
        Kind::Program { .. } | Kind::FunctionBody { .. } => Role::Top,
        Kind::FunctionDeclaration { .. } | Kind::FunctionExpression { .. } => {
            Role::Binds(Binding::Parameter)
        }
        Kind::MethodDefinition { kind, .. } => member_role(*kind, role),
        Kind::ImportSpecifier => Role::Binds(Binding::Import),
        Kind::ExportNamedDeclaration => name_role(!third_stands(node)),
        Kind::PatternProperty { .. }
        | Kind::TargetProperty { .. }
        | Kind::ArrayPattern
        | Kind::ArrayTarget => role,
        _ => name_role(is_second_name(&node.kind)),
    }
}

fn third_role(role: Role, node: &Node) -> Role
    ensures { result ≡ role_at role (kind_of node.now) (label_of node.now) (fields_of node.now) 2 }
{
    match &node.kind {
        Kind::ClassDeclaration { .. } | Kind::ClassExpression { .. } => Role::Member(extends(node)),
        Kind::ArrayPattern | Kind::ArrayTarget => role,
        _ => READS,
    }
}

/// What stands in a field after the third.
fn later_role(role: Role, node: &Node) -> Role
    ensures { (i : ℕ) → result ≡ role_at role (kind_of node.now) (label_of node.now) (fields_of node.now) (suc (suc (suc i))) }
{
    match &node.kind {
        Kind::ArrayPattern | Kind::ArrayTarget => role,
        _ => READS,
    }
}

/// What stands where an identifier is read, if it is a name there at all.
fn name_role(is_name: bool) -> Role
    ensures { result ≡ (if is_name then reads else Role.Nothing) }
{
    if is_name { READS } else { Role::Nothing }
}

/// What the target of an assignment is: a compound one reads it too.
fn target_role(operator: AssignmentOperator) -> Role
    ensures { result ≡ target_of (assignment_operator_text operator) }
{
    match operator {
        AssignmentOperator::Assign => WRITES,
        _ => UPDATES,
    }
}

/// How a declaration by this word declares.
fn declared_by(kind: VariableDeclarationKind) -> Binding
    ensures { result ≡ binding_of (variable_declaration_kind_text kind) }
{
    match kind {
        VariableDeclarationKind::Var => Binding::Variable,
        VariableDeclarationKind::Let => Binding::Let,
        _ => Binding::Constant,
    }
}

/// How a function declaration declares its name, by what it is itself.
fn function_binding(role: Role) -> Binding
    ensures { result ≡ function_binding role }
{
    match role {
        Role::Top => Binding::TopFunction,
        _ => Binding::BlockFunction,
    }
}

/// What the function of a method is.
fn member_role(kind: MethodDefinitionKind, role: Role) -> Role
    ensures { result ≡ member_role (method_definition_kind_text kind) role }
{
    match (kind, role) {
        (MethodDefinitionKind::Constructor, Role::Member(derived)) => Role::Constructor(derived),
        _ => Role::Nothing,
    }
}

/// Whether a class extends another.
fn extends(node: &Node) -> bool
    ensures { result ≡ extends (fields_of node.now) }
{
    node.child_at(1).is_some()
}

/// Whether a node has a third field, as an export from another module.
fn third_stands(node: &Node) -> bool
    ensures { result ≡ third_stands (fields_of node.now) }
{
    node.child_at(2).is_some()
}
